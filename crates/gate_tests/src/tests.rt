// Two sessions of which each holds its second line until the other has written: only sessions that run side by side come to their end.

use crate::samples::{CALLED, calling, texts};
use gates::host::GateHost;
use slicer_service::run;
use std::alloc::Global;
use std::test::Fail;

// More turns than the other session takes to its first reply.
const MANY: u64 = 1_000_000_000;

fn host(alloc: Global, turns: u64) -> Result<GateHost, Fail> {
    Ok(GateHost::new(alloc, calling(alloc)?, turns)?)
}

#[test]
fn sessions_run_at_once(rt: HostRuntime) -> Result<(), Fail> {
    let mut host = host(rt.alloc(), MANY)?;
    let words = texts(rt.alloc(), &["f", "s", "t"])?;
    assert_eq!(rt; run(&rt, rt.alloc(), words.as_slice(), &mut host), 0);
    assert_eq!(rt;
        host.said(),
        b"session 1 done 2 replies\nsession 2 done 2 replies\n".as_slice()
    );
    assert_eq!(rt; host.written("s.out"), Some(CALLED));
    assert_eq!(rt; host.written("t.out"), Some(CALLED));
    Ok(())
}

// What opens the gate before a session's second line is the other session alone: so one that comes to its end before the other begins
// ends with a fault.
#[test]
fn a_session_alone_waits_in_vain(rt: HostRuntime) -> Result<(), Fail> {
    let mut host = host(rt.alloc(), 3)?;
    let words = texts(rt.alloc(), &["f", "s"])?;
    assert_eq!(rt; run(&rt, rt.alloc(), words.as_slice(), &mut host), 5);
    assert_eq!(rt;
        host.said(),
        b"session 1 read fault after 1 replies\n".as_slice()
    );
    assert_eq!(rt; host.written("s.out"), Some(b"ok\n".as_slice()));
    Ok(())
}

#[test]
fn a_third_script_is_not_opened(rt: HostRuntime) -> Result<(), Fail> {
    let mut host = host(rt.alloc(), 3)?;
    let words = texts(rt.alloc(), &["f", "s", "t", "f/One.class"])?;
    assert_eq!(rt; run(&rt, rt.alloc(), words.as_slice(), &mut host), 3);
    assert_eq!(rt; host.said(), b"host fault\n".as_slice());
    assert_eq!(rt; host.written("s.out"), None);
    Ok(())
}
