// What no clause says: that a program is loaded, and what is said of folders that are refused, worked out by hand.

use crate::error::LoadError;
use crate::loading::load;
use crate::parts::Loaded;
use edge_io::fail_plan::FailPlan;
use edge_io::host::Entry;
use edge_io::memory_host::{MemoryHost, are_paths};
use slicer_ids::list::List;
use slicer_ids::name::Name;
use std::test::Fail;

// The class One, with a static method main; its superclass stands in byte 85.
const ONE: [u8; 127] = [
    0xca, 0xfe, 0xba, 0xbe, 0, 0, 0, 0x33, 0, 8, 1, 0, 3, 0x4f, 0x6e, 0x65, 7, 0, 1, 1, 0, 0x10,
    0x6a, 0x61, 0x76, 0x61, 0x2f, 0x6c, 0x61, 0x6e, 0x67, 0x2f, 0x4f, 0x62, 0x6a, 0x65, 0x63, 0x74,
    7, 0, 3, 1, 0, 4, 0x6d, 0x61, 0x69, 0x6e, 1, 0, 0x16, 0x28, 0x5b, 0x4c, 0x6a, 0x61, 0x76, 0x61,
    0x2f, 0x6c, 0x61, 0x6e, 0x67, 0x2f, 0x53, 0x74, 0x72, 0x69, 0x6e, 0x67, 0x3b, 0x29, 0x56, 1, 0,
    4, 0x43, 0x6f, 0x64, 0x65, 0, 0x21, 0, 2, 0, 4, 0, 0, 0, 0, 0, 1, 0, 9, 0, 5, 0, 6, 0, 1, 0, 7,
    0, 0, 0, 0x13, 0, 2, 0, 3, 0, 0, 0, 7, 5, 4, 0x60, 0x3c, 0x1b, 0x3d, 0xb1, 0, 0, 0, 0, 0, 0,
];

// A host with a folder that has this file, of which no call is to fail.
fn host_of(rt: &HostRuntime, bytes: &[u8]) -> Result<MemoryHost, Fail> {
    let mut files = Vec::new(rt.alloc());
    files.push((Name::from_bytes(rt.alloc(), b"in")?, Entry::Folder))?;
    let file = Entry::File(Name::from_bytes(rt.alloc(), bytes)?);
    files.push((Name::from_bytes(rt.alloc(), b"in/a.class")?, file))?;
    if !are_paths(files.as_slice()) {
        return Err("no paths".into());
    }
    let plan = FailPlan {
        host: List::from_vec(Vec::new(rt.alloc())),
        sources: List::from_vec(Vec::new(rt.alloc())),
        sinks: List::from_vec(Vec::new(rt.alloc())),
    };
    Ok(MemoryHost::new(rt.alloc(), List::from_vec(files), plan)?)
}

fn is_whole(outcome: &Result<Loaded, LoadError>) -> bool {
    match outcome {
        Ok(loaded) => loaded.bodies.len() == 1 && loaded.entries.items().len() == 1,
        Err(_) => false,
    }
}

fn is_refused(outcome: &Result<Loaded, LoadError>, text: &[u8]) -> bool {
    match outcome {
        Err(LoadError::Refused(line)) => line.bytes() == text,
        _ => false,
    }
}

fn is_fault(outcome: &Result<Loaded, LoadError>) -> bool {
    matches!(outcome, Err(LoadError::Host))
}

#[test]
fn loads_a_program(rt: HostRuntime) -> Result<(), Fail> {
    let mut host = host_of(&rt, &ONE)?;
    let outcome = load(rt.alloc(), &mut host, "in", Some(b"One"));
    assert!(rt; is_whole(&outcome));
    Ok(())
}

#[test]
fn finds_no_entry_in_another_class(rt: HostRuntime) -> Result<(), Fail> {
    let mut host = host_of(&rt, &ONE)?;
    let outcome = load(rt.alloc(), &mut host, "in", Some(b"Two"));
    assert!(rt; is_refused(&outcome, b"refused no entry method"));
    Ok(())
}

#[test]
fn names_a_class_that_is_its_own_ancestor(rt: HostRuntime) -> Result<(), Fail> {
    let mut bytes = ONE;
    bytes[85] = 2;
    let mut host = host_of(&rt, &bytes)?;
    let outcome = load(rt.alloc(), &mut host, "in", None);
    assert!(rt; is_refused(&outcome, b"refused cyclic class One"));
    Ok(())
}

#[test]
fn names_a_file_below_the_folder(rt: HostRuntime) -> Result<(), Fail> {
    let mut host = host_of(&rt, b"nope")?;
    let outcome = load(rt.alloc(), &mut host, "in", None);
    assert!(rt; is_refused(&outcome, b"refused a.class not a class file"));
    Ok(())
}

#[test]
fn fails_where_there_is_no_folder(rt: HostRuntime) -> Result<(), Fail> {
    let mut host = host_of(&rt, &ONE)?;
    let outcome = load(rt.alloc(), &mut host, "out", None);
    assert!(rt; is_fault(&outcome));
    Ok(())
}
