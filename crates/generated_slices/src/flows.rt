// Edges within a method, made from numbers.

use crate::methods::{Draft, statement_pc};
use crate::numbers::Numbers;
use dep_form::access::Access;
use dep_form::node::{Edge, Label, Node};
use slice_tests::examples::{access, at};
use slicer_ids::ids::{NoMemory, NodeId, Statement};
use std::alloc::Global;

/// An access that may be expanded: its statement, and the statement's own node.
#[derive(Clone, Copy, Drop)]
pub struct Expansion {
    pub statement: Statement,
    pub end: NodeId,
}

/// The accesses of a program, as facts have them and as they may be expanded.
#[derive(Drop)]
pub struct Accesses {
    pub listed: Vec<(Statement, Access)>,
    pub expansions: Vec<Expansion>,
}

/// Where values come from: all nodes but those that hand something on to another method.
fn is_source(node: Node) -> bool {
    match node {
        Node::Argument(_, _) | Node::HeapArg(_, _) => false,
        Node::Return | Node::Thrown | Node::HeapOut(_) => false,
        _ => true,
    }
}

// The numbers of the nodes of a method that values come from.
fn sources_of(alloc: Global, draft: &Draft) -> Result<Vec<NodeId>, NoMemory> {
    let mut sources = Vec::new(alloc);
    let mut n = draft.first;
    for node in draft.nodes.as_slice() {
        if is_source(*node) {
            sources.push(NodeId(n))?;
        }
        n = n.saturating_add(1);
    }
    Ok(sources)
}

// One of the sources.
fn pick(numbers: &mut Numbers, sources: &[NodeId]) -> Option<NodeId> {
    let place = numbers.below(sources.len().min(1 << 16) as u32);
    sources.get(place as usize).copied()
}

// How many values flow to a node within its method. What a location holds flows by definitions and uses, or by one edge more.
fn flow_count(numbers: &mut Numbers, node: Node) -> u32 {
    match node {
        Node::Own(_) => numbers.below(3),
        Node::Argument(_, _) | Node::Thrown => 1,
        Node::Return => numbers.below(2).saturating_add(1),
        Node::HeapArg(_, _) | Node::HeapOut(_) => numbers.below(2),
        _ => 0,
    }
}

// Edges to a node, each from one of the sources.
fn add_edges(
    numbers: &mut Numbers,
    sources: &[NodeId],
    to: NodeId,
    label: Label,
    count: u32,
    edges: &mut Vec<Edge>,
) -> Result<(), NoMemory> {
    for _ in 0..count {
        if let Some(from) = pick(numbers, sources) {
            edges.push(Edge { from, to, label })?;
        }
    }
    Ok(())
}

// Thin edges to all nodes.
fn add_flows(
    numbers: &mut Numbers,
    draft: &Draft,
    sources: &[NodeId],
    edges: &mut Vec<Edge>,
) -> Result<(), NoMemory> {
    let mut n = draft.first;
    for node in draft.nodes.as_slice() {
        let count = flow_count(numbers, *node);
        add_edges(numbers, sources, NodeId(n), Label::Thin, count, edges)?;
        n = n.saturating_add(1);
    }
    Ok(())
}

/// Adds the thin edges of a method or of the root.
pub fn add_thin(
    alloc: Global,
    numbers: &mut Numbers,
    draft: &Draft,
    edges: &mut Vec<Edge>,
) -> Result<(), NoMemory> {
    let sources = sources_of(alloc, draft)?;
    add_flows(numbers, draft, &sources, edges)
}

// Makes a statement an access, with one or two bases.
fn add_access(
    alloc: Global,
    numbers: &mut Numbers,
    place: Statement,
    end: NodeId,
    sources: &[NodeId],
    edges: &mut Vec<Edge>,
    accesses: &mut Accesses,
) -> Result<(), NoMemory> {
    let count = numbers.below(2).saturating_add(1);
    add_edges(numbers, sources, end, Label::Base, count, edges)?;
    let listed = access(alloc, place.method.0, place.pc, end.0)?;
    accesses.listed.push(listed)?;
    accesses.expansions.push(Expansion {
        statement: place,
        end,
    })?;
    Ok(())
}

/// Makes the last two statements of a method accesses, where it has three, or else the last one, with their bases. The first ones
/// are left, so that values come to bases from statements.
pub fn add_accesses(
    alloc: Global,
    numbers: &mut Numbers,
    method: u32,
    draft: &Draft,
    edges: &mut Vec<Edge>,
    accesses: &mut Accesses,
) -> Result<(), NoMemory> {
    let sources = sources_of(alloc, draft)?;
    for k in 1..3u16 {
        let pc = statement_pc(k);
        if let Some(end) = draft.find(Node::Own(pc)) {
            let place = at(method, pc);
            add_access(alloc, numbers, place, end, &sources, edges, accesses)?;
        }
    }
    Ok(())
}
