// Nodes of a call, of a method's entry and of its exit, and words of summaries, worked out by hand.

use crate::counts::words_of;
use crate::segments::{Heap, push_formals, push_if, push_locations};
use crate::statements::push_call;
use dep_form::node::Node;
use slicer_ids::ids::LocId;
use std::test::Fail;

fn are_nodes(found: &[Node], expected: &[Node]) -> bool {
    if found.len() != expected.len() {
        return false;
    }
    for k in 0..found.len() {
        if found[k] != expected[k] {
            return false;
        }
    }
    true
}

// A call at 7 with two arguments and a result, that throws nothing, of methods that use location 3 and change 3 and 5.
#[test]
fn a_call_has_its_nodes_in_order(rt: HostRuntime) -> Result<(), Fail> {
    let mut nodes = Vec::new(rt.alloc());
    push_call(
        &mut nodes,
        7,
        2,
        true,
        false,
        &[LocId(3)],
        &[LocId(3), LocId(5)],
    )?;
    assert!(rt;
        are_nodes(
            nodes.as_slice(),
            &[
                Node::Argument(7, 0),
                Node::Argument(7, 1),
                Node::Result(7),
                Node::HeapArg(7, LocId(3)),
                Node::HeapResult(7, LocId(3)),
                Node::HeapResult(7, LocId(5)),
            ]
        )
    );
    Ok(())
}

// A method with one argument that uses location 4, throws, answers nothing, and changes location 6.
#[test]
fn a_method_begins_and_ends_in_order(rt: HostRuntime) -> Result<(), Fail> {
    let mut nodes = Vec::new(rt.alloc());
    push_formals(&mut nodes, 1)?;
    push_locations(&mut nodes, Heap::Entry, &[LocId(4)])?;
    push_if(&mut nodes, false, Node::Return)?;
    push_if(&mut nodes, true, Node::Thrown)?;
    push_locations(&mut nodes, Heap::Exit, &[LocId(6)])?;
    assert!(rt;
        are_nodes(
            nodes.as_slice(),
            &[
                Node::Formal(0),
                Node::HeapIn(LocId(4)),
                Node::Thrown,
                Node::HeapOut(LocId(6)),
            ]
        )
    );
    Ok(())
}

// An exit has two rows, each with a gate and a word for each 64 formals.
#[test]
fn words_are_counted_by_exits_and_formals(rt: HostRuntime) -> Result<(), Fail> {
    assert!(rt; words_of(0, 1)? == 2);
    assert!(rt; words_of(64, 1)? == 4);
    assert!(rt; words_of(65, 3)? == 18);
    assert!(rt; words_of(65, 0)? == 0);
    Ok(())
}
