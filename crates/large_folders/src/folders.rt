// Large folders of classes.
ghost use Rattle.std.specs.Prelude.{◌≡◌, ◌≤◌, ◌+◌, ◌^◌, length, All, IfOk, OnOk};
ghost use Rattle.hierarchy_tests.specs.TestClasses.{IsTestClass};

use crate::classes::{ABSTRACT, MISSING, PUBLIC, implementing, plain};
use class_form::class_file::ClassFile;
use hierarchy::tree::{Hierarchy, TreeError, build};
use std::alloc::{AllocError, Global};

fn hierarchy(alloc: Global, files: Vec<ClassFile>) -> Result<Hierarchy, TreeError>
    requires classes { All IsTestClass files.items }
    requires few { length files.items ≤ 2 ^ 20 }
{
    build(alloc, files)
}

fn push(files: &mut Vec<ClassFile>, class: ClassFile) -> Result<(), AllocError>
    requires class { IsTestClass class }
    requires files { All IsTestClass files.old.items }
    ensures classes { OnOk result (All IsTestClass files.new.items) }
    ensures len { OnOk result (length files.new.items ≡ length files.old.items + 1) }
{
    match files.push(class) {
        Ok(()) => Ok(()),
        Err(_) => Err(AllocError),
    }
}

// Flags, or none.
fn only(has: bool, flags: u16) -> Option<u16> {
    if has { Some(flags) } else { None }
}

/// Classes of which each is the superclass of the next, by their numbers; the first has the field f and the method m.
pub fn chain(alloc: Global, count: u16) -> Result<Result<Hierarchy, TreeError>, AllocError> {
    let mut files = Vec::new(alloc);
    for number in 0..count {
        let class = plain(
            alloc,
            number,
            number.wrapping_sub(1),
            only(number == 0, PUBLIC),
        )?;
        push(&mut files, class)?;
    }
    Ok(hierarchy(alloc, files))
}

// Interfaces, of which the last has the field f and the method m.
fn interfaces(alloc: Global, count: u16) -> Result<Vec<ClassFile>, AllocError>
    ensures classes { IfOk result (λ files. All IsTestClass files.items) }
    ensures len { IfOk result (λ files. length files.items ≡ count) }
{
    let mut files = Vec::new(alloc);
    for number in 0..count {
        let class = plain(
            alloc,
            number,
            MISSING,
            only(number == count - 1, PUBLIC | ABSTRACT),
        )?;
        push(&mut files, class)?;
    }
    Ok(files)
}

/// Interfaces, by their numbers, of which the last has the field f and the method m, and a class with all of them.
pub fn fan(alloc: Global, count: u16) -> Result<Result<Hierarchy, TreeError>, AllocError> {
    let mut files = interfaces(alloc, count)?;
    let class = implementing(alloc, count, count)?;
    push(&mut files, class)?;
    Ok(hierarchy(alloc, files))
}
