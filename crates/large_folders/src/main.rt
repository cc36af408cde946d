//! Builds the hierarchies of a chain of 16,384 classes and of a class with 16,384 interfaces, and looks up what stands at their
//! far ends.
#![tactic(auto)]

mod classes;
mod folders;

use crate::folders::{chain, fan};
use hierarchy::tree::{Hierarchy, Select, TreeError};
use slicer_ids::ids::ClassId;
use std::alloc::AllocError;
use std::io;

/// How many classes stand in a chain, and how many interfaces on a class.
pub const CLASSES: u16 = 16_384;

// The numbers of the field f and of the method m that are found from a class, where they are found.
fn found(tree: &Hierarchy, class: u16) -> (Option<u32>, Option<u32>) {
    let name = class.to_be_bytes();
    let field = tree.find_field(&name, b"f", b"I").map(|n| n.0);
    let method = tree.find_method(&name, b"m", b"()V").map(|n| n.0);
    (field, method)
}

// What a class selects, and whether it is below another.
fn selected(tree: &Hierarchy, class: u16, above: u16) -> Option<(Select, bool)> {
    let (Some(class), Some(above)) = (
        tree.find_class(&class.to_be_bytes()),
        tree.find_class(&above.to_be_bytes()),
    ) else {
        return None;
    };
    Some((
        tree.select(class, b"m", b"()V"),
        tree.is_sub(class, above) && !tree.is_sub(above, class),
    ))
}

fn print(
    rt: &HostRuntime,
    name: &str,
    tree: Result<Result<Hierarchy, TreeError>, AllocError>,
    class: u16,
    above: u16,
) -> io::Result<()> {
    let Ok(Ok(tree)) = tree else {
        return println!(rt; "{name}: refused");
    };
    let (field, method) = found(&tree, class);
    println!(rt;
        "{name}: field {field:?}, method {method:?}, {:?}",
        selected(&tree, class, above)
    )
}

fn main(rt: HostRuntime) -> io::Result<()> {
    let alloc = rt.alloc();
    print(&rt, "chain", chain(alloc, CLASSES), CLASSES - 1, 0)?;
    print(&rt, "fan", fan(alloc, CLASSES), CLASSES, CLASSES - 1)
}
