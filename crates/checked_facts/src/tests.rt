// What no clause says: that parts that fit together make facts, and that others don't.

use crate::program::SmallProgram;
use dep_form::node::{Edge, Label, Node};
use slicer_ids::ids::{CallId, NodeId};
use std::test::Fail;

fn edge(from: u32, to: u32, label: Label) -> Edge {
    Edge {
        from: NodeId(from),
        to: NodeId(to),
        label,
    }
}

// A method that answers its argument, called once.
#[test]
fn parts_that_fit(rt: HostRuntime) -> Result<(), Fail> {
    let mut program = SmallProgram::new(rt.alloc());
    let direct = [edge(0, 1, Label::Thin), edge(2, 0, Label::Call(CallId(0)))];
    assert!(rt; program.add(&[Node::Formal(0), Node::Return], &direct)?);
    let direct = [edge(1, 3, Label::Return(CallId(0)))];
    assert!(rt; program.add(&[Node::Argument(1, 0), Node::Result(1)], &direct)?);
    assert!(rt; program.add(&[], &[])?);
    let exits = [NodeId(1)];
    let facts = program.facts(&exits, Vec::new(rt.alloc()), Vec::new(rt.alloc()))?;
    assert!(rt; facts.is_some());
    Ok(())
}

#[test]
fn a_thin_edge_between_methods(rt: HostRuntime) -> Result<(), Fail> {
    let mut program = SmallProgram::new(rt.alloc());
    assert!(rt; program.add(&[Node::Own(0)], &[])?);
    assert!(rt; program.add(&[Node::Own(0)], &[edge(0, 1, Label::Thin)])?);
    assert!(rt; program.add(&[], &[])?);
    let facts = program.facts(&[], Vec::new(rt.alloc()), Vec::new(rt.alloc()))?;
    assert!(rt; facts.is_none());
    Ok(())
}

#[test]
fn an_edge_that_ends_elsewhere(rt: HostRuntime) -> Result<(), Fail> {
    let mut program = SmallProgram::new(rt.alloc());
    assert!(rt; !program.add(&[Node::Own(0)], &[edge(0, 1, Label::Thin)])?);
    Ok(())
}
