// The nodes of methods that are made from numbers.

use crate::control::{Control, control_of};
use crate::numbers::Numbers;
use dep_form::node::Node;
use slicer_ids::ids::{LocId, NoMemory, NodeId};
use std::alloc::Global;

/// How many statements and calls a method may have, and how many locations there are.
#[derive(Clone, Copy, Drop)]
pub struct Sizes {
    pub statements: u16,
    pub calls: u16,
    pub locations: u32,
}

/// A method or the root, as it is made: its nodes, and where it defines and uses locations.
#[derive(Drop)]
pub struct Draft {
    /// The number of its first node.
    pub first: u32,
    pub nodes: Vec<Node>,
    pub calls: u16,
    pub control: Control,
}

impl Draft {
    /// The number of a node, where the method has it.
    pub fn find(&self, node: Node) -> Option<NodeId> {
        let mut n = self.first;
        for item in self.nodes.as_slice() {
            if *item == node {
                return Some(NodeId(n));
            }
            n = n.saturating_add(1);
        }
        None
    }
}

/// The pc of a statement that is no call: they stand at even places.
pub fn statement_pc(statement: u16) -> u16 {
    statement.saturating_mul(2)
}

/// The pc of a call: between two statements.
pub fn call_pc(call: u16) -> u16 {
    call.saturating_mul(2).saturating_add(1)
}

// Where a location is held.
#[derive(Clone, Copy, Drop)]
enum Held {
    AtEntry,
    BeforeCall(u16),
    AfterCall(u16),
    AtExit,
}

fn held_node(held: Held, location: LocId) -> Node {
    match held {
        Held::AtEntry => Node::HeapIn(location),
        Held::BeforeCall(pc) => Node::HeapArg(pc, location),
        Held::AfterCall(pc) => Node::HeapResult(pc, location),
        Held::AtExit => Node::HeapOut(location),
    }
}

fn add_if(nodes: &mut Vec<Node>, holds: bool, node: Node) -> Result<(), NoMemory> {
    if holds {
        nodes.push(node)?;
    }
    Ok(())
}

// Nodes of some of the locations.
fn add_held(
    numbers: &mut Numbers,
    nodes: &mut Vec<Node>,
    locations: u32,
    held: Held,
) -> Result<(), NoMemory> {
    for l in 0..locations {
        add_if(nodes, numbers.once_in(2), held_node(held, LocId(l)))?;
    }
    Ok(())
}

fn add_formals(
    numbers: &mut Numbers,
    nodes: &mut Vec<Node>,
    locations: u32,
) -> Result<(), NoMemory> {
    nodes.push(Node::Formal(0))?;
    add_if(nodes, numbers.once_in(3), Node::Formal(1))?;
    add_held(numbers, nodes, locations, Held::AtEntry)
}

fn add_statements(nodes: &mut Vec<Node>, statements: u16) -> Result<(), NoMemory> {
    for k in 0..statements {
        nodes.push(Node::Own(statement_pc(k)))?;
    }
    Ok(())
}

fn add_call(
    numbers: &mut Numbers,
    nodes: &mut Vec<Node>,
    locations: u32,
    pc: u16,
) -> Result<(), NoMemory> {
    nodes.push(Node::Argument(pc, 0))?;
    add_if(nodes, numbers.once_in(4), Node::Argument(pc, 1))?;
    add_held(numbers, nodes, locations, Held::BeforeCall(pc))?;
    nodes.push(Node::Result(pc))?;
    add_if(nodes, numbers.once_in(5), Node::Exception(pc))?;
    add_held(numbers, nodes, locations, Held::AfterCall(pc))
}

fn add_calls(
    numbers: &mut Numbers,
    nodes: &mut Vec<Node>,
    locations: u32,
    calls: u16,
) -> Result<(), NoMemory> {
    for j in 0..calls {
        add_call(numbers, nodes, locations, call_pc(j))?;
    }
    Ok(())
}

fn add_exits(numbers: &mut Numbers, nodes: &mut Vec<Node>, locations: u32) -> Result<(), NoMemory> {
    nodes.push(Node::Return)?;
    add_if(nodes, numbers.once_in(5), Node::Thrown)?;
    add_held(numbers, nodes, locations, Held::AtExit)
}

// A number of statements or calls, at most so many.
fn few(numbers: &mut Numbers, least: u16, most: u16) -> u16 {
    if most > least && numbers.once_in(2) {
        most
    } else {
        least
    }
}

/// A method whose first node has this number.
pub fn make_method(
    alloc: Global,
    numbers: &mut Numbers,
    sizes: Sizes,
    first: u32,
) -> Result<Draft, NoMemory> {
    let statements = few(numbers, 2, sizes.statements);
    let calls = few(numbers, sizes.calls.saturating_sub(1), sizes.calls);
    let mut nodes = Vec::new(alloc);
    add_formals(numbers, &mut nodes, sizes.locations)?;
    add_statements(&mut nodes, statements)?;
    add_calls(numbers, &mut nodes, sizes.locations, calls)?;
    add_exits(numbers, &mut nodes, sizes.locations)?;
    let control = control_of(alloc, numbers, first, &nodes, sizes.locations)?;
    Ok(Draft {
        first,
        nodes,
        calls,
        control,
    })
}

/// The root: calls, with no statements of its own.
pub fn make_root(
    alloc: Global,
    numbers: &mut Numbers,
    sizes: Sizes,
    first: u32,
) -> Result<Draft, NoMemory> {
    let calls = few(numbers, 1, 2);
    let mut nodes = Vec::new(alloc);
    add_calls(numbers, &mut nodes, sizes.locations, calls)?;
    let control = control_of(alloc, numbers, first, &nodes, sizes.locations)?;
    Ok(Draft {
        first,
        nodes,
        calls,
        control,
    })
}
