// Small programs, their edges written by hand from their code.

use crate::edges::{are_below, are_seeds, expanded_edges, full_edges, summary};
use crate::slices::slice;
use dep_form::node::{Edge, Label};
use slicer_ids::ids::{CallId, NoMemory, NodeId};
use std::alloc::Global;
use std::process::Abort;
use std::test::Fail;

fn thin(from: u32, to: u32) -> Edge {
    Edge {
        from: NodeId(from),
        to: NodeId(to),
        label: Label::Thin,
    }
}

fn base(from: u32, to: u32) -> Edge {
    Edge {
        from: NodeId(from),
        to: NodeId(to),
        label: Label::Base,
    }
}

fn call(c: u32, from: u32, to: u32) -> Edge {
    Edge {
        from: NodeId(from),
        to: NodeId(to),
        label: Label::Call(CallId(c)),
    }
}

fn back(c: u32, from: u32, to: u32) -> Edge {
    Edge {
        from: NodeId(from),
        to: NodeId(to),
        label: Label::Return(CallId(c)),
    }
}

// Whether a list has exactly these nodes, in any order, each once.
fn is_exactly(found: &[NodeId], expected: &[u32]) -> bool {
    if found.len() != expected.len() {
        return false;
    }
    for n in expected {
        if !found.contains(&NodeId(*n)) {
            return false;
        }
    }
    true
}

fn slices_to(
    rt: &impl Abort,
    alloc: Global,
    edges: &[Edge],
    seed: u32,
    expected: &[u32],
) -> Result<(), NoMemory> {
    let seeds = [NodeId(seed)];
    assert!(rt; are_below(32, edges));
    assert!(rt; are_seeds(32, &seeds));
    let found = slice(alloc, 32, edges, &seeds)?;
    assert!(rt; is_exactly(&found, expected));
    Ok(())
}

// rec (I)I: iload_0, ifne 6, iconst_5, ireturn, 6: iload_0, iconst_1, isub, invokestatic rec, ireturn; main calls rec(3).
// Nodes of rec: 0 the formal, 1 to 7 its statements up to isub, 8 the call, 9 its argument, 10 its result, 11 the last ireturn,
// 12 the return node. Nodes of main: 13 iconst_3, 14 the call, 15 its argument, 16 its result.
fn recursion() -> [Edge; 14] {
    [
        thin(0, 1),
        thin(1, 2),
        thin(3, 4),
        thin(4, 12),
        thin(0, 5),
        thin(5, 7),
        thin(6, 7),
        thin(7, 9),
        thin(10, 11),
        thin(11, 12),
        call(0, 9, 0),
        back(0, 12, 10),
        thin(13, 15),
        call(1, 15, 0),
    ]
}

#[test]
fn a_return_without_its_call_passes(rt: HostRuntime) -> Result<(), Fail> {
    // From the last ireturn back: the result of the call, what the callee answers, and no argument.
    slices_to(&rt, rt.alloc(), &recursion(), 11, &[3, 4, 10, 11, 12])?;
    Ok(())
}

// id (I)I: iload_0, ireturn. main: iconst_1, id, istore_1, iconst_2, id, istore_2.
// Nodes of id: 0 the formal, 1 iload_0, 2 ireturn, 3 the return node. Nodes of main: 4 iconst_1, 5 the call, 6 its argument,
// 7 its result, 8 istore_1, 9 iconst_2, 10 the call, 11 its argument, 12 its result, 13 istore_2.
fn two_calls() -> [Edge; 11] {
    [
        thin(0, 1),
        thin(1, 2),
        thin(2, 3),
        thin(4, 6),
        call(0, 6, 0),
        back(0, 3, 7),
        thin(7, 8),
        thin(9, 11),
        call(1, 11, 0),
        back(1, 3, 12),
        thin(12, 13),
    ]
}

#[test]
fn a_return_goes_back_to_its_own_call(rt: HostRuntime) -> Result<(), Fail> {
    slices_to(&rt, rt.alloc(), &two_calls(), 8, &[0, 1, 2, 3, 4, 6, 7, 8])?;
    slices_to(
        &rt,
        rt.alloc(),
        &two_calls(),
        13,
        &[0, 1, 2, 3, 9, 11, 12, 13],
    )?;
    Ok(())
}

#[test]
fn the_summary_of_a_return(rt: HostRuntime) -> Result<(), Fail> {
    let edges = two_calls();
    assert!(rt; are_below(32, &edges));
    let numbers = summary(rt.alloc(), 32, &edges, &[NodeId(0)], NodeId(3))?;
    assert!(rt; numbers.as_slice() == [0].as_slice());
    Ok(())
}

// set (LBox;I)V: aload_0, iload_1, putfield v, return. main: new Box, astore_1, aload_1, bipush 7, set, aload_1, getfield v, istore_2.
// Nodes of set: 0 and 1 the formals, 2 aload_0, 3 iload_1, 4 putfield, 5 v as it leaves it. Nodes of main: 6 new, 7 astore_1, 8 aload_1,
// 9 bipush, 10 and 11 the arguments, 12 v as the call leaves it, 13 aload_1, 14 getfield, 15 istore_2.
fn field() -> [Edge; 16] {
    [
        thin(0, 2),
        base(2, 4),
        thin(1, 3),
        thin(3, 4),
        thin(4, 5),
        thin(6, 7),
        thin(7, 8),
        thin(8, 10),
        thin(9, 11),
        call(0, 10, 0),
        call(0, 11, 1),
        back(0, 5, 12),
        thin(12, 14),
        thin(7, 13),
        base(13, 14),
        thin(14, 15),
    ]
}

#[test]
fn a_field_that_is_written_in_a_callee(rt: HostRuntime) -> Result<(), Fail> {
    let edges = field();
    let thin = expanded_edges(rt.alloc(), &edges, &[])?;
    slices_to(&rt, rt.alloc(), &thin, 15, &[1, 3, 4, 5, 9, 11, 12, 14, 15])?;
    let wide = expanded_edges(rt.alloc(), &edges, &[NodeId(4)])?;
    slices_to(
        &rt,
        rt.alloc(),
        &wide,
        15,
        &[0, 1, 2, 3, 4, 5, 6, 7, 8, 9, 10, 11, 12, 14, 15],
    )?;
    let full = full_edges(rt.alloc(), &edges)?;
    slices_to(
        &rt,
        rt.alloc(),
        &full,
        15,
        &[0, 1, 2, 3, 4, 5, 6, 7, 8, 9, 10, 11, 12, 13, 14, 15],
    )?;
    Ok(())
}
