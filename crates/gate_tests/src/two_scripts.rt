// Two scripts over one program: each has its own output, and what fails for one leaves the other's whole.

use crate::samples::{EXPANDED, READ, boxed, calm, texts};
use edge_io::fail_plan::FailPlan;
use edge_io::memory_host::MemoryHost;
use slicer_ids::list::List;
use slicer_ids::name::Name;
use slicer_service::run;
use std::alloc::Global;
use std::test::Fail;
use std::thread::Threads;

// The status of a run over both scripts.
fn status<R: Threads + Sync>(rt: &R, alloc: Global, host: &mut MemoryHost) -> Result<u8, Fail> {
    let words = texts(alloc, &["f", "s", "t"])?;
    Ok(run(rt, alloc, words.as_slice(), host))
}

#[test]
fn each_output_is_that_of_its_script(rt: HostRuntime) -> Result<(), Fail> {
    let mut host = boxed(rt.alloc(), calm(rt.alloc()))?;
    assert_eq!(rt; status(&rt, rt.alloc(), &mut host)?, 0);
    assert_eq!(rt;
        host.said(),
        b"session 1 done 3 replies\nsession 2 done 2 replies\n".as_slice()
    );
    assert_eq!(rt; host.file("s.out"), Some(EXPANDED));
    assert_eq!(rt; host.file("t.out"), Some(READ));
    Ok(())
}

// The second write of the second output fails.
fn second_write(alloc: Global) -> Result<FailPlan, Fail> {
    let mut sinks = Vec::new(alloc);
    sinks.push((Name::from_bytes(alloc, b"t.out")?, 2u64))?;
    Ok(FailPlan {
        host: List::from_vec(Vec::new(alloc)),
        sources: List::from_vec(Vec::new(alloc)),
        sinks: List::from_vec(sinks),
    })
}

#[test]
fn an_output_that_fails_leaves_the_other(rt: HostRuntime) -> Result<(), Fail> {
    let mut host = boxed(rt.alloc(), second_write(rt.alloc())?)?;
    assert_eq!(rt; status(&rt, rt.alloc(), &mut host)?, 5);
    assert_eq!(rt;
        host.said(),
        b"session 1 done 3 replies\nsession 2 write fault after 1 replies\n".as_slice()
    );
    assert_eq!(rt; host.file("s.out"), Some(EXPANDED));
    assert_eq!(rt; host.file("t.out"), Some(b"ok\n".as_slice()));
    Ok(())
}

// The eighth call of the host is the first close: before it come list, read twice, open twice and create twice.
fn first_close(alloc: Global) -> Result<FailPlan, Fail> {
    Ok(FailPlan {
        host: List::from_vec([8u64].to_vec(alloc)?),
        sources: List::from_vec(Vec::new(alloc)),
        sinks: List::from_vec(Vec::new(alloc)),
    })
}

#[test]
fn an_output_that_is_not_closed_is_a_fault(rt: HostRuntime) -> Result<(), Fail> {
    let mut host = boxed(rt.alloc(), first_close(rt.alloc())?)?;
    assert_eq!(rt; status(&rt, rt.alloc(), &mut host)?, 3);
    assert_eq!(rt;
        host.said(),
        b"session 1 done 3 replies\nsession 2 done 2 replies\nhost fault\n".as_slice()
    );
    assert_eq!(rt; host.file("s.out"), Some(b"".as_slice()));
    assert_eq!(rt; host.file("t.out"), Some(READ));
    Ok(())
}
