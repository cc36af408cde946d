// Slices over exceptions, arrays, static fields, dispatch and outside calls, worked out by hand.

use crate::containers::containers;
use crate::dependences::{array_copies, dispatch, exceptions, initializers, outside_arrays};
use crate::tests::{agrees_between, agrees_everywhere, walks_to};
use slicer_ids::ids::Mode;
use std::test::Fail;

// What is caught is what boom was given, and what is thrown at 17: statements 0 and 1 of boom, 0, 7, 10, 17, 18 and 19 of main. The
// constructor called at 14 throws nothing.
#[test]
fn an_exception_comes_from_what_is_thrown(rt: HostRuntime) -> Result<(), Fail> {
    let facts = exceptions(rt.alloc())?.expect(&rt, "facts");
    let expected = [5, 6, 7, 8, 10, 15, 16, 17, 21, 22, 23];
    walks_to(&rt, rt.alloc(), &facts, 23, Mode::Thin, &expected)?;
    Ok(())
}

// The element comes from 6, through 8, the copy at 18 with all its arguments, and 23; where it was stored (4, 5) and where it is read
// (21, 22) stay out.
#[test]
fn elements_pass_through_a_copy(rt: HostRuntime) -> Result<(), Fail> {
    let facts = array_copies(rt.alloc())?.expect(&rt, "facts");
    let expected = [
        1, 2, 3, 4, 5, 8, 9, 10, 11, 12, 13, 14, 15, 16, 17, 18, 19, 20, 21, 22, 23, 26, 27, 29,
        30, 32, 33, 34, 35,
    ];
    walks_to(&rt, rt.alloc(), &facts, 27, Mode::Thin, &expected)?;
    Ok(())
}

// Statements 0 and 2 of the initializer, 0 and 3 of main; its return and that of main stay out.
#[test]
fn a_static_field_comes_from_its_initializer(rt: HostRuntime) -> Result<(), Fail> {
    let facts = initializers(rt.alloc())?.expect(&rt, "facts");
    let expected = [0, 1, 3, 5, 6, 7, 9, 11];
    walks_to(&rt, rt.alloc(), &facts, 7, Mode::Thin, &expected)?;
    Ok(())
}

// Statements 0 and 1 of B.get, 9 and 12 of main; those of A.get, which the other receiver selects, stay out.
#[test]
fn a_call_answers_what_its_receiver_selects(rt: HostRuntime) -> Result<(), Fail> {
    let facts = dispatch(rt.alloc())?.expect(&rt, "facts");
    let expected = [15, 16, 17, 27, 28];
    walks_to(&rt, rt.alloc(), &facts, 28, Mode::Thin, &expected)?;
    Ok(())
}

// The elements of the array are made by the call at 4, of its arguments: 0, 2, 4, 8, 9, 12; the index, 7, stays out.
#[test]
fn the_elements_of_an_outside_array(rt: HostRuntime) -> Result<(), Fail> {
    let facts = outside_arrays(rt.alloc())?.expect(&rt, "facts");
    let expected = [
        1, 2, 3, 4, 5, 6, 7, 8, 10, 12, 13, 14, 16, 17, 19, 20, 21, 22,
    ];
    walks_to(&rt, rt.alloc(), &facts, 14, Mode::Thin, &expected)?;
    Ok(())
}

// What the list gives at 37 was put into its state at 31: the text of 17, through 20 and 30, which is made of 0, 7, 9, 13 and 14. The list
// itself is the receiver at 37, from 21 through 28 and 35, with the index of 36. The list into which the text goes (29) and the array of
// which 13 is the length (12) stay out. By the root, what is written in the end is there on entry: 37 writes its index into the list's
// state.
#[test]
fn an_element_comes_out_of_a_container(rt: HostRuntime) -> Result<(), Fail> {
    let facts = containers(rt.alloc())?.expect(&rt, "facts");
    let expected = [
        1, 2, 3, 4, 6, 10, 11, 12, 13, 14, 16, 17, 18, 19, 20, 22, 23, 24, 25, 29, 31, 32, 34, 37,
        38, 39, 40, 41, 42, 43, 44, 51, 52, 53, 54, 57, 58, 59, 60, 62, 63, 64, 65,
    ];
    walks_to(&rt, rt.alloc(), &facts, 44, Mode::Thin, &expected)?;
    Ok(())
}

#[test]
fn every_slice_with_exceptions(rt: HostRuntime) -> Result<(), Fail> {
    let facts = exceptions(rt.alloc())?;
    agrees_everywhere(&rt, rt.alloc(), facts)?;
    Ok(())
}

// The 36 seeds of the array copy, nine a test, since saturation takes the square of the edges and the square of the pairs.
#[test]
fn every_slice_with_an_array_copy_below_9(rt: HostRuntime) -> Result<(), Fail> {
    let facts = array_copies(rt.alloc())?;
    agrees_between(&rt, rt.alloc(), facts, 0, 9)?;
    Ok(())
}

#[test]
fn every_slice_with_an_array_copy_from_9(rt: HostRuntime) -> Result<(), Fail> {
    let facts = array_copies(rt.alloc())?;
    agrees_between(&rt, rt.alloc(), facts, 9, 18)?;
    Ok(())
}

#[test]
fn every_slice_with_an_array_copy_from_18(rt: HostRuntime) -> Result<(), Fail> {
    let facts = array_copies(rt.alloc())?;
    agrees_between(&rt, rt.alloc(), facts, 18, 27)?;
    Ok(())
}

#[test]
fn every_slice_with_an_array_copy_from_27(rt: HostRuntime) -> Result<(), Fail> {
    let facts = array_copies(rt.alloc())?;
    agrees_between(&rt, rt.alloc(), facts, 27, 36)?;
    Ok(())
}

#[test]
fn every_slice_with_an_initializer(rt: HostRuntime) -> Result<(), Fail> {
    let facts = initializers(rt.alloc())?;
    agrees_everywhere(&rt, rt.alloc(), facts)?;
    Ok(())
}

#[test]
fn every_slice_with_dispatch(rt: HostRuntime) -> Result<(), Fail> {
    let facts = dispatch(rt.alloc())?;
    agrees_everywhere(&rt, rt.alloc(), facts)?;
    Ok(())
}

#[test]
fn every_slice_with_an_outside_array(rt: HostRuntime) -> Result<(), Fail> {
    let facts = outside_arrays(rt.alloc())?;
    agrees_everywhere(&rt, rt.alloc(), facts)?;
    Ok(())
}
