// What no clause says: that the calls succeed, and what they answer where a host fails by its plan.

use crate::error::FolderError;
use crate::folder::read_folder;
use crate::reading::contents;
use crate::walk::class_files;
use edge_io::fail_plan::FailPlan;
use edge_io::host::Entry;
use edge_io::memory_host::{MemoryHost, are_paths};
use slicer_ids::limits::LimitKind;
use slicer_ids::list::List;
use slicer_ids::name::{Name, Text};
use std::test::Fail;

// Adds a folder, or a file with a byte.
fn add(
    rt: &HostRuntime,
    files: &mut Vec<(Name, Entry)>,
    path: &str,
    byte: Option<u8>,
) -> Result<(), Fail> {
    let name = Name::from_bytes(rt.alloc(), path.as_bytes())?;
    let entry = match byte {
        Some(byte) => Entry::File(Name::from_bytes(rt.alloc(), &[byte])?),
        None => Entry::Folder,
    };
    files.push((name, entry))?;
    Ok(())
}

// A host with these files, of which these calls are to fail.
fn host_of(
    rt: &HostRuntime,
    files: Vec<(Name, Entry)>,
    failing: &[u64],
) -> Result<MemoryHost, Fail> {
    if !are_paths(files.as_slice()) {
        return Err("no paths".into());
    }
    let plan = FailPlan {
        host: List::from_vec(failing.to_vec(rt.alloc())?),
        sources: List::from_vec(Vec::new(rt.alloc())),
        sinks: List::from_vec(Vec::new(rt.alloc())),
    };
    Ok(MemoryHost::new(rt.alloc(), List::from_vec(files), plan)?)
}

// A folder with class files and others, in no order.
fn sample(rt: &HostRuntime, failing: &[u64]) -> Result<MemoryHost, Fail> {
    let mut files = Vec::new(rt.alloc());
    add(rt, &mut files, "in", None)?;
    add(rt, &mut files, "in/c.class", Some(3))?;
    add(rt, &mut files, "in/b", None)?;
    add(rt, &mut files, "in/b/x.class", Some(2))?;
    add(rt, &mut files, "in/b.txt", Some(9))?;
    add(rt, &mut files, "in/B.class", Some(1))?;
    host_of(rt, files, failing)
}

fn are(paths: &[Text], expected: &[&str]) -> bool {
    if paths.len() != expected.len() {
        return false;
    }
    for (path, text) in paths.iter().zip(expected) {
        if path.as_str() != *text {
            return false;
        }
    }
    true
}

#[test]
fn finds_class_files_by_name(rt: HostRuntime) -> Result<(), Fail> {
    let mut host = sample(&rt, &[])?;
    match class_files(rt.alloc(), &mut host, "in") {
        Ok(paths) => {
            assert!(rt; are(&paths, &["in/B.class", "in/b/x.class", "in/c.class"]));
        }
        Err(_) => return Err("refused".into()),
    }
    Ok(())
}

// The bytes of files, one after another.
fn joined(rt: &HostRuntime, contents: &[Name]) -> Result<Vec<u8>, Fail> {
    let mut bytes = Vec::new(rt.alloc());
    for name in contents {
        bytes.extend_from_slice(name.bytes())?;
    }
    Ok(bytes)
}

#[test]
fn reads_what_was_found(rt: HostRuntime) -> Result<(), Fail> {
    let mut host = sample(&rt, &[])?;
    let Ok(paths) = class_files(rt.alloc(), &mut host, "in") else {
        return Err("refused".into());
    };
    let Ok(all) = contents(rt.alloc(), &mut host, &paths) else {
        return Err("unread".into());
    };
    let bytes = joined(&rt, &all)?;
    assert_eq!(rt; bytes.as_slice(), b"\x01\x02\x03".as_slice());
    Ok(())
}

#[test]
fn reads_a_folder(rt: HostRuntime) -> Result<(), Fail> {
    let mut host = sample(&rt, &[])?;
    let Ok(files) = read_folder(rt.alloc(), &mut host, "in/b") else {
        return Err("refused".into());
    };
    assert!(rt; are(&files.paths, &["in/b/x.class"]));
    let bytes = joined(&rt, &files.contents)?;
    assert_eq!(rt; bytes.as_slice(), b"\x02".as_slice());
    Ok(())
}

#[test]
fn fails_where_the_host_does(rt: HostRuntime) -> Result<(), Fail> {
    let mut missing = sample(&rt, &[])?;
    assert_eq!(rt;
        class_files(rt.alloc(), &mut missing, "out").err(),
        Some(FolderError::Host)
    );
    let mut failing = sample(&rt, &[2])?;
    assert_eq!(rt;
        class_files(rt.alloc(), &mut failing, "in").err(),
        Some(FolderError::Host)
    );
    Ok(())
}

// Folders in one another, so many below the first.
fn nested(rt: &HostRuntime, below: usize) -> Result<MemoryHost, Fail> {
    let mut files = Vec::new(rt.alloc());
    let mut path = String::from_str(rt.alloc(), "in")?;
    add(rt, &mut files, path.as_str(), None)?;
    for _ in 0..below {
        path.push_str("/d")?;
        add(rt, &mut files, path.as_str(), None)?;
    }
    host_of(rt, files, &[])
}

#[test]
fn folders_are_walked_to_the_limit(rt: HostRuntime) -> Result<(), Fail> {
    let mut host = nested(&rt, 64)?;
    assert_eq!(rt; class_files(rt.alloc(), &mut host, "in").err(), None);
    let mut deep = nested(&rt, 65)?;
    let too_deep = FolderError::TooMany(LimitKind::Depth, 65);
    assert_eq!(rt;
        class_files(rt.alloc(), &mut deep, "in").err(),
        Some(too_deep)
    );
    Ok(())
}
