// The system of a folder without classes: the root's two sites, of which the one holds the other.
use crate::whole::constraints;
use class_form::body::Body;
use dep_form::rules::Entry;
use hierarchy::build;
use std::alloc::Global;

// How many constraints and sites the system of the folder without classes has; none where memory is out.
fn counts_of_none(alloc: Global) -> Option<(usize, usize)> {
    let Ok(h) = build(alloc, Vec::new(alloc)) else {
        return None;
    };
    let bodies: Vec<Body> = Vec::new(alloc);
    let entries: Vec<Entry> = Vec::new(alloc);
    match constraints(alloc, &h, bodies.as_slice(), entries.as_slice()) {
        Ok(system) => Some((system.constraints.items().len(), system.sites.items().len())),
        Err(_) => None,
    }
}

#[test]
fn a_folder_without_classes_has_the_constraint_of_the_root(rt: HostRuntime) {
    assert_eq!(rt; counts_of_none(rt.alloc()), Some((1, 2)));
}
