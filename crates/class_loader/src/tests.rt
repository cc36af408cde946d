// What no clause says: that the calls succeed, and what is said of files that are refused.
ghost use Rattle.std.specs.Prelude.{◌≡◌, ◌≤◌, All, length};
ghost use Rattle.std.specs.List.{sum_by};
ghost use Rattle.class_form.specs.Numbers.{IsNamedClass};
ghost use Rattle.hierarchy.specs.Trees.{AreFew};
ghost use Rattle.folder_reader.specs.Below.{IsBelow};
ghost use Rattle.acceptance.specs.Classes.{AreSound};

use crate::classes::read_classes;
use crate::error::ClassesError;
use crate::laws::sound_files_have_sound_classes;
use crate::listing::bodies;
use class_form::class_file::ClassFile;
use edge_io::fail_plan::FailPlan;
use edge_io::host::Entry;
use edge_io::memory_host::{MemoryHost, are_paths};
use folder_reader::read_folder;
use hierarchy::build;
use slicer_ids::list::List;
use slicer_ids::name::{Name, Text};
use std::test::Fail;

// The class One, with a static method main of 7 bytes of code, which begins at byte 114.
const ONE: [u8; 127] = [
    0xca, 0xfe, 0xba, 0xbe, 0, 0, 0, 0x33, 0, 8, 1, 0, 3, 0x4f, 0x6e, 0x65, 7, 0, 1, 1, 0, 0x10,
    0x6a, 0x61, 0x76, 0x61, 0x2f, 0x6c, 0x61, 0x6e, 0x67, 0x2f, 0x4f, 0x62, 0x6a, 0x65, 0x63, 0x74,
    7, 0, 3, 1, 0, 4, 0x6d, 0x61, 0x69, 0x6e, 1, 0, 0x16, 0x28, 0x5b, 0x4c, 0x6a, 0x61, 0x76, 0x61,
    0x2f, 0x6c, 0x61, 0x6e, 0x67, 0x2f, 0x53, 0x74, 0x72, 0x69, 0x6e, 0x67, 0x3b, 0x29, 0x56, 1, 0,
    4, 0x43, 0x6f, 0x64, 0x65, 0, 0x21, 0, 2, 0, 4, 0, 0, 0, 0, 0, 1, 0, 9, 0, 5, 0, 6, 0, 1, 0, 7,
    0, 0, 0, 0x13, 0, 2, 0, 3, 0, 0, 0, 7, 5, 4, 0x60, 0x3c, 0x1b, 0x3d, 0xb1, 0, 0, 0, 0, 0, 0,
];

// Its bytes, with this instruction at pc 2.
fn one_with(rt: &HostRuntime, opcode: u8) -> Result<Name, Fail> {
    let mut bytes = ONE;
    bytes[116] = opcode;
    Ok(Name::from_bytes(rt.alloc(), &bytes)?)
}

// Adds a folder, or a file.
fn add(
    rt: &HostRuntime,
    files: &mut Vec<(Name, Entry)>,
    path: &str,
    bytes: Option<&[u8]>,
) -> Result<(), Fail> {
    let name = Name::from_bytes(rt.alloc(), path.as_bytes())?;
    let entry = match bytes {
        Some(bytes) => Entry::File(Name::from_bytes(rt.alloc(), bytes)?),
        None => Entry::Folder,
    };
    files.push((name, entry))?;
    Ok(())
}

// A host with these files, of which no call is to fail.
fn host_of(rt: &HostRuntime, files: Vec<(Name, Entry)>) -> Result<MemoryHost, Fail> {
    if !are_paths(files.as_slice()) {
        return Err("no paths".into());
    }
    let plan = FailPlan {
        host: List::from_vec(Vec::new(rt.alloc())),
        sources: List::from_vec(Vec::new(rt.alloc())),
        sinks: List::from_vec(Vec::new(rt.alloc())),
    };
    Ok(MemoryHost::new(rt.alloc(), List::from_vec(files), plan)?)
}

// A folder with two files.
fn sample(rt: &HostRuntime, one: &[u8], other: &[u8]) -> Result<MemoryHost, Fail> {
    let mut files = Vec::new(rt.alloc());
    add(rt, &mut files, "in", None)?;
    add(rt, &mut files, "in/b", None)?;
    add(rt, &mut files, "in/b/x.class", Some(other))?;
    add(rt, &mut files, "in/One.class", Some(one))?;
    host_of(rt, files)
}

// The classes of the folder.
fn loaded(
    rt: &HostRuntime,
    host: &mut MemoryHost,
    folder: &str,
) -> Result<Result<Vec<ClassFile>, ClassesError>, Fail> {
    let Ok(files) = read_folder(rt.alloc(), host, folder) else {
        return Err("unread".into());
    };
    let paths = files.paths.as_slice();
    let contents = files.contents.as_slice();
    Ok(read_classes(rt.alloc(), folder, paths, contents))
}

// How many bodies the methods of classes have.
fn count_bodies(rt: &HostRuntime, contents: &[Name], classes: Vec<ClassFile>) -> Result<usize, Fail>
    requires sound { AreSound contents.now classes.items }
    requires few { AreFew classes.items }
    requires named { All IsNamedClass classes.items }
{
    sound_files_have_sound_classes();
    let Ok(hierarchy) = build(rt.alloc(), classes) else {
        return Err("no hierarchy".into());
    };
    let all = bodies(rt.alloc(), &hierarchy)?;
    Ok(all.len())
}

// .. those of the files at these paths.
fn count_in(
    rt: &HostRuntime,
    folder: &str,
    paths: &[Text],
    contents: &[Name],
) -> Result<usize, Fail>
    requires below { All (IsBelow folder.now) paths.now }
    requires number { length contents.now ≡ length paths.now }
    requires total { sum_by length contents.now ≤ 67108864 }
{
    let Ok(classes) = read_classes(rt.alloc(), folder, paths, contents) else {
        return Err("refused".into());
    };
    count_bodies(rt, contents, classes)
}

fn count_loaded(rt: &HostRuntime, host: &mut MemoryHost, folder: &str) -> Result<usize, Fail> {
    let Ok(files) = read_folder(rt.alloc(), host, folder) else {
        return Err("unread".into());
    };
    let paths = files.paths.as_slice();
    let contents = files.contents.as_slice();
    count_in(rt, folder, paths, contents)
}

fn is_line(error: &ClassesError, text: &[u8]) -> bool {
    match error {
        ClassesError::Refused(line) => line.bytes() == text,
        ClassesError::NoMemory => false,
    }
}

#[test]
fn reads_classes(rt: HostRuntime) -> Result<(), Fail> {
    let one = one_with(&rt, 0x60)?;
    let mut host = sample(&rt, one.bytes(), one.bytes())?;
    match loaded(&rt, &mut host, "in")? {
        Ok(classes) => assert_eq!(rt; classes.len(), 2),
        Err(_) => return Err("refused".into()),
    }
    Ok(())
}

#[test]
fn makes_bodies(rt: HostRuntime) -> Result<(), Fail> {
    let mut files = Vec::new(rt.alloc());
    add(&rt, &mut files, "in", None)?;
    let one = one_with(&rt, 0x60)?;
    add(&rt, &mut files, "in/One.class", Some(one.bytes()))?;
    let mut host = host_of(&rt, files)?;
    assert_eq!(rt; count_loaded(&rt, &mut host, "in")?, 1);
    Ok(())
}

#[test]
fn names_the_file_below_the_folder(rt: HostRuntime) -> Result<(), Fail> {
    let one = one_with(&rt, 0x60)?;
    let mut host = sample(&rt, one.bytes(), b"nope")?;
    match loaded(&rt, &mut host, "in")? {
        Ok(_) => return Err("accepted".into()),
        Err(error) => {
            assert!(rt; is_line(&error, b"refused b/x.class not a class file"));
        }
    }
    Ok(())
}

#[test]
fn names_the_method_of_the_first_file(rt: HostRuntime) -> Result<(), Fail> {
    // A jump to a subroutine.
    let bytes = one_with(&rt, 168)?;
    let mut host = sample(&rt, bytes.bytes(), b"nope")?;
    match loaded(&rt, &mut host, "in")? {
        Ok(_) => return Err("accepted".into()),
        Err(error) => {
            let line = b"refused One.class method main ([Ljava/lang/String;)V jsr at pc 2";
            assert!(rt; is_line(&error, line));
        }
    }
    Ok(())
}
