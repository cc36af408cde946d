// Explanations of accesses of a box, worked out by hand.

use crate::boxes::passed_box;
use crate::expected::{Expected, NOTHING, explains};
use explainers::explain::accesses;
use slice_tests::examples::at;
use slicer_ids::ids::{NodeId, SiteId};
use std::test::Fail;

// The first box comes to 20 by 7, 8, 9, through pass, and by 12 and 19; it comes to 16 by 7 and 13. It is made at 0.
#[test]
fn a_box_that_both_have(rt: HostRuntime) -> Result<(), Fail> {
    let facts = passed_box(rt.alloc())?.expect(&rt, "facts");
    let passed = [
        at(1, 0),
        at(1, 7),
        at(1, 8),
        at(1, 9),
        at(1, 12),
        at(1, 19),
        at(2, 0),
        at(2, 1),
    ];
    let kept = [at(1, 0), at(1, 7), at(1, 13)];
    let expected = Expected {
        objects: &[SiteId(0)],
        left: &passed,
        right: &kept,
    };
    explains(&rt, rt.alloc(), &facts, at(1, 20), at(1, 16), &expected)?;
    let expected = Expected {
        objects: &[SiteId(0)],
        left: &kept,
        right: &passed,
    };
    explains(&rt, rt.alloc(), &facts, at(1, 16), at(1, 20), &expected)?;
    Ok(())
}

// 31 reads the second box.
#[test]
fn boxes_that_differ(rt: HostRuntime) -> Result<(), Fail> {
    let facts = passed_box(rt.alloc())?.expect(&rt, "facts");
    explains(&rt, rt.alloc(), &facts, at(1, 31), at(1, 16), &NOTHING)?;
    explains(&rt, rt.alloc(), &facts, at(1, 20), at(1, 31), &NOTHING)?;
    Ok(())
}

// 16 puts into what 13, node 17, pushes; 12 is a statement, and 2 is none.
#[test]
fn what_is_an_access(rt: HostRuntime) -> Result<(), Fail> {
    let facts = passed_box(rt.alloc())?.expect(&rt, "facts");
    let put = accesses(&facts, at(1, 16)).expect(&rt, "access");
    assert!(rt; put.object.items() == &[NodeId(17)][..]);
    assert!(rt; put.sites.items() == &[SiteId(0)][..]);
    assert!(rt; accesses(&facts, at(1, 12)).is_none());
    assert!(rt; accesses(&facts, at(1, 2)).is_none());
    Ok(())
}
