// The system itself: what is written is listed and read, and what isn't there is a fault.
use crate::host::RealHost;
use edge_io::host::{Host, HostError};
use edge_io::sink::Sink;
use edge_io::source::Source;
use std::fs;
use std::test::Fail;

#[test]
fn writes_lists_and_reads(rt: HostRuntime) -> Result<(), Fail> {
    let folder = "real_host_test";
    fs::create_dir_all(&rt, "real_host_test/inner")?;
    let mut host = RealHost::new(rt.clone()?);
    let mut out = host.create("real_host_test/a.txt")?;
    assert_eq!(rt; out.write(b"hello"), Ok(5));
    host.close(out)?;
    let mut folders = 0u32;
    let items = host.list(folder)?;
    assert_eq!(rt; items.len(), 2);
    for item in items.as_slice() {
        assert_eq!(rt;
            item.name.as_str(),
            if item.folder { "inner" } else { "a.txt" }
        );
        folders = folders.saturating_add(u32::from(item.folder));
    }
    assert_eq!(rt; folders, 1);
    assert_eq!(rt;
        host.read("real_host_test/a.txt", 5)?.as_slice(),
        b"hello".as_slice()
    );
    assert_eq!(rt;
        host.read("real_host_test/a.txt", 4).err(),
        Some(HostError::TooLong)
    );
    let mut source = host.open("real_host_test/a.txt")?;
    let mut into = [0u8; 8];
    assert_eq!(rt; source.read(&mut into), Ok(5));
    assert_eq!(rt; source.read(&mut into), Ok(0));
    for path in ["real_host_test/none", "real_host_test/inner"] {
        assert_eq!(rt; host.read(path, 9).err(), Some(HostError::Fault), "{path}");
        assert!(rt; is_fault(host.open(path).err()), "{path}");
    }
    assert!(rt; is_fault(host.list("real_host_test/a.txt").err()));
    assert!(rt; is_fault(host.create("real_host_test/inner").err()));
    fs::remove_dir_all(&rt, folder)?;
    assert!(rt; is_fault(host.list(folder).err()));
    Ok(())
}

fn is_fault(error: Option<HostError>) -> bool {
    error == Some(HostError::Fault)
}
