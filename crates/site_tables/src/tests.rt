// Descriptors row by row, numbers in a list of sites, and the table of a folder without classes.
use crate::descriptors::{of_array, of_field, of_new, of_result};
use crate::fresh::Fresh;
use crate::numbers::{Numbers, numbers_of};
use crate::table::site_table;
use class_form::body::Body;
use dep_form::rules::SiteInfo;
use hierarchy::build;
use slicer_ids::ids::{MethodId, Statement};
use std::alloc::{AllocError, Global};
use std::test::Fail;

// Whether it is so many arrays and no object.
fn is_arrays(fresh: &Fresh<'_>, dims: u8) -> bool {
    fresh.dims == dims && fresh.class.is_none()
}

// Whether it is so many arrays and an object of the class.
fn is_object(fresh: &Fresh<'_>, dims: u8, name: &str) -> bool {
    match fresh.class {
        Some(class) => fresh.dims == dims && class == name.as_bytes(),
        None => false,
    }
}

#[test]
fn what_calls_answer(rt: HostRuntime) {
    assert!(rt; is_arrays(&of_result(b"()V"), 0));
    assert!(rt; is_arrays(&of_result(b"(La)b;[[J)I"), 0));
    assert!(rt; is_object(&of_result(b"(La)b;[[J)Lc)d;"), 0, "c)d"));
    assert!(rt; is_object(&of_result(b"()[[La/B;"), 2, "a/B"));
    assert!(rt; is_arrays(&of_result(b"()"), 0));
}

#[test]
fn what_fields_hold(rt: HostRuntime) {
    assert!(rt; is_arrays(&of_field(b"J"), 0));
    assert!(rt; is_arrays(&of_field(b"[[D"), 2));
    assert!(rt; is_object(&of_field(b"Ljava/lang/String;"), 0, "java/lang/String"));
    assert!(rt; is_object(&of_field(b"[LA;"), 1, "A"));
    assert!(rt; is_arrays(&of_field(b"()V"), 0));
}

#[test]
fn what_class_constants_name(rt: HostRuntime) {
    assert!(rt; is_object(&of_new(b"a/B"), 0, "a/B"));
    assert!(rt; is_arrays(&of_new(b"[[I"), 1));
    assert!(rt; is_arrays(&of_new(b"a;b"), 0));
    assert!(rt; is_arrays(&of_array(b"[[[I", 2), 2));
    assert!(rt; is_arrays(&of_array(b"a/B", 1), 0));
}

fn site(method: u32, pc: u16, k: u8) -> SiteInfo {
    SiteInfo {
        class: None,
        array: true,
        place: Some(Statement {
            method: MethodId(method),
            pc,
        }),
        k,
    }
}

const ROOT: SiteInfo = SiteInfo {
    class: None,
    array: true,
    place: None,
    k: 0,
};

// The numbers of a statement's sites among seven.
fn numbers(alloc: Global, method: u32, pc: u16) -> Result<Numbers, AllocError> {
    let sites = vec![in alloc;
        site(0, 3, 0),
        site(0, 3, 1),
        site(0, 7, 0),
        site(2, 0, 0),
        site(2, 0, 1),
        site(2, 0, 2),
        ROOT,
    ]?;
    let place = Statement {
        method: MethodId(method),
        pc,
    };
    Ok(numbers_of(sites.as_slice(), place))
}

#[test]
fn numbers_by_statement(rt: HostRuntime) -> Result<(), Fail> {
    let alloc = rt.alloc();
    let first = numbers(alloc, 0, 3)?;
    assert_eq!(rt; (first.first, first.count), (0, 2));
    let last = numbers(alloc, 2, 0)?;
    assert_eq!(rt; (last.first, last.count), (3, 3));
    assert_eq!(rt; numbers(alloc, 0, 7)?.count, 1);
    assert_eq!(rt; numbers(alloc, 1, 3)?.count, 0);
    Ok(())
}

// How many sites the folder without classes has; none where memory is out.
fn sites_of_none(alloc: Global) -> Option<usize> {
    let Ok(h) = build(alloc, Vec::new(alloc)) else {
        return None;
    };
    let bodies: Vec<Body> = Vec::new(alloc);
    match site_table(alloc, &h, bodies.as_slice()) {
        Ok(sites) => Some(sites.items().len()),
        Err(_) => None,
    }
}

#[test]
fn a_folder_without_classes_has_the_sites_of_the_root(rt: HostRuntime) {
    let alloc = rt.alloc();
    assert_eq!(rt; sites_of_none(alloc), Some(2));
}
