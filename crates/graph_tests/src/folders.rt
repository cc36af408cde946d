// Folders of class files in memory, and the facts of their programs.

use dep_form::facts::Facts;
use edge_io::fail_plan::FailPlan;
use edge_io::host::Entry;
use edge_io::memory_host::{MemoryHost, are_paths};
use program_loader::load;
use slicer_ids::list::List;
use slicer_ids::name::Name;
use std::alloc::Global;
use std::test::Fail;

/// A class file: its path and its bytes.
pub struct ClassBytes {
    pub path: &'static [u8],
    pub bytes: &'static [u8],
}

fn add_file(alloc: Global, files: &mut Vec<(Name, Entry)>, class: &ClassBytes) -> Result<(), Fail> {
    let path = Name::from_bytes(alloc, class.path)?;
    let bytes = Name::from_bytes(alloc, class.bytes)?;
    files.push((path, Entry::File(bytes)))?;
    Ok(())
}

// A folder `f` with these files.
fn folder(alloc: Global, classes: &[ClassBytes]) -> Result<Vec<(Name, Entry)>, Fail> {
    let mut files = Vec::new(alloc);
    files.push((Name::from_bytes(alloc, b"f")?, Entry::Folder))?;
    for class in classes {
        add_file(alloc, &mut files, class)?;
    }
    Ok(files)
}

// A host with these files, of which no call fails.
fn host(alloc: Global, files: Vec<(Name, Entry)>) -> Result<MemoryHost, Fail> {
    if !are_paths(files.as_slice()) {
        return Err("no paths".into());
    }
    let calm = FailPlan {
        host: List::from_vec(Vec::new(alloc)),
        sources: List::from_vec(Vec::new(alloc)),
        sinks: List::from_vec(Vec::new(alloc)),
    };
    Ok(MemoryHost::new(alloc, List::from_vec(files), calm)?)
}

/// The facts of the program that these class files are.
pub fn facts(alloc: Global, classes: &[ClassBytes]) -> Result<Facts, Fail> {
    let mut host = host(alloc, folder(alloc, classes)?)?;
    match load(alloc, &mut host, "f", None) {
        Ok((_, facts)) => Ok(facts),
        Err(_) => Err("load".into()),
    }
}
