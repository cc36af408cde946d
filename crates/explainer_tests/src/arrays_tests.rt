// Explanations of accesses of arrays, worked out by hand.

use crate::arrays::one_of_two;
use crate::expected::{Expected, NOTHING, explains};
use slice_tests::examples::at;
use slicer_ids::ids::SiteId;
use std::test::Fail;

// Both may have the first array, which is made at 1 and kept at 3. It comes to 23 by 13, 18 and 19, and to 26 by 24. The second array comes
// to 23 by 5, 7 and 17 too, which the first doesn't; the lengths of the arrays, 0 and 4, are no objects.
#[test]
fn an_array_that_both_have(rt: HostRuntime) -> Result<(), Fail> {
    let facts = one_of_two(rt.alloc())?.expect(&rt, "facts");
    let chosen = [at(0, 1), at(0, 3), at(0, 13), at(0, 18), at(0, 19)];
    let kept = [at(0, 1), at(0, 3), at(0, 24)];
    let expected = Expected {
        objects: &[SiteId(0)],
        left: &chosen,
        right: &kept,
    };
    explains(&rt, rt.alloc(), &facts, at(0, 23), at(0, 26), &expected)?;
    let expected = Expected {
        objects: &[SiteId(0)],
        left: &kept,
        right: &chosen,
    };
    explains(&rt, rt.alloc(), &facts, at(0, 26), at(0, 23), &expected)?;
    Ok(())
}

// Both arrays, where an access is explained with itself.
#[test]
fn two_arrays(rt: HostRuntime) -> Result<(), Fail> {
    let facts = one_of_two(rt.alloc())?.expect(&rt, "facts");
    let chosen = [
        at(0, 1),
        at(0, 3),
        at(0, 5),
        at(0, 7),
        at(0, 13),
        at(0, 17),
        at(0, 18),
        at(0, 19),
    ];
    let expected = Expected {
        objects: &[SiteId(0), SiteId(1)],
        left: &chosen,
        right: &chosen,
    };
    explains(&rt, rt.alloc(), &facts, at(0, 23), at(0, 23), &expected)?;
    Ok(())
}

// The array of 9 is the one that main is given.
#[test]
fn arrays_that_differ(rt: HostRuntime) -> Result<(), Fail> {
    let facts = one_of_two(rt.alloc())?.expect(&rt, "facts");
    explains(&rt, rt.alloc(), &facts, at(0, 9), at(0, 23), &NOTHING)?;
    explains(&rt, rt.alloc(), &facts, at(0, 26), at(0, 9), &NOTHING)?;
    Ok(())
}
