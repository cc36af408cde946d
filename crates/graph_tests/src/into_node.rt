// The edges that end in the node of one statement.

use dep_form::facts::Facts;
use dep_form::input::MethodInput;
use dep_form::node::{Edge, Node};
use method_graph::build::build_graph;
use slicer_ids::ids::{MethodId, NodeId};
use std::alloc::Global;
use std::test::Fail;

fn is_own(node: &Node, pc: u16) -> bool {
    match node {
        Node::Own(at) => *at == pc,
        _ => false,
    }
}

// The place of the statement's own node.
fn place_of(nodes: &[Node], pc: u16) -> Option<usize> {
    nodes.iter().position(|node| is_own(node, pc))
}

/// The number of the own node of a method's statement.
pub fn own_node(input: &MethodInput, pc: u16) -> Result<NodeId, Fail> {
    let Some(place) = place_of(input.nodes.items(), pc) else {
        return Err("no such node".into());
    };
    match u32::try_from(place) {
        Ok(place) => Ok(NodeId(input.first.0.wrapping_add(place))),
        Err(_) => Err("no such node".into()),
    }
}

/// The edges that end in the own node of a method's statement.
pub fn edges_into(alloc: Global, input: &MethodInput, pc: u16) -> Result<Vec<Edge>, Fail> {
    let graph = build_graph(alloc, input)?;
    let Some(place) = place_of(input.nodes.items(), pc) else {
        return Err("no such node".into());
    };
    match graph.incoming.items().get(place) {
        Some(edges) => Ok(edges.items().to_vec(alloc)?),
        None => Err("no such node".into()),
    }
}

// The input of a method that is reached.
fn input_at(inputs: &[Option<MethodInput>], m: MethodId) -> Result<&MethodInput, Fail> {
    match inputs.get(m.0 as usize) {
        Some(Some(input)) => Ok(input),
        _ => Err("not reached".into()),
    }
}

/// The input of the method of this class, name and descriptor.
pub fn input_of<'f>(
    f: &'f Facts,
    class: &[u8],
    name: &[u8],
    descriptor: &[u8],
) -> Result<&'f MethodInput, Fail> {
    let Some(class) = f.find_class(class) else {
        return Err("no such class".into());
    };
    let Some(method) = f.find_method(class, name, descriptor) else {
        return Err("no such method".into());
    };
    input_at(f.inputs.items(), method)
}
