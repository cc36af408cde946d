// Edges between the nodes of one row.
ghost use Rattle.std.specs.Prelude.{◌≡◌, ◌<◌, ◌≤◌, ◌+◌, ◌↔◌, ◌^◌, ℕ, AllPairs, Contains, OnOk, Some, length};
ghost use Rattle.dep_form.specs.declared.node.Edge.{Edge};
ghost use Rattle.dep_form.specs.Graphs.{EdgeBefore};
ghost use Rattle.dep_form.specs.Nodes.{ComesBefore};
ghost use Rattle.mod_ref.specs.Gains.{Gains};
ghost use Rattle.input_tables.specs.Edges.{IsEdgeBy, IsEdgeFound, IsEdgeFrom, IsEdgeTo, IsFoundNode, edge_of};

use crate::places::place_in;
use dep_form::node::{Edge, Label, Node};
use slicer_ids::ids::{NoMemory, NodeId};

fn push(edges: &mut Vec<Edge>, from: u32, to: u32, label: Label) -> Result<(), NoMemory>
    ensures { OnOk result (Gains edges.old.items edges.new.items (λ x. x ≡ edge_of from to label)) }
{
    match edges.push(Edge {
        from: NodeId(from),
        to: NodeId(to),
        label,
    }) {
        Ok(()) => Ok(()),
        Err(_) => Err(NoMemory),
    }
}

fn add_to(
    first: u32,
    from: u32,
    to: Option<u32>,
    label: Label,
    edges: &mut Vec<Edge>,
) -> Result<(), NoMemory>
    requires from { first + from < 2 ^ 32 }
    requires to { (b : ℕ) → to ≡ Some b → first + b < 2 ^ 32 }
    ensures { OnOk result (Gains edges.old.items edges.new.items (IsEdgeTo first from to label)) }
{
    match to {
        None => Ok(()),
        Some(b) => push(edges, first + from, first + b, label),
    }
}

fn add_found(
    first: u32,
    from: Option<u32>,
    to: Option<u32>,
    label: Label,
    edges: &mut Vec<Edge>,
) -> Result<(), NoMemory>
    requires from { (a : ℕ) → from ≡ Some a → first + a < 2 ^ 32 }
    requires to { (b : ℕ) → to ≡ Some b → first + b < 2 ^ 32 }
    ensures { OnOk result (Gains edges.old.items edges.new.items (IsEdgeFound first from to label)) }
{
    match from {
        None => Ok(()),
        Some(a) => add_to(first, a, to, label, edges),
    }
}

/// Adds an edge, where the row has both nodes. They are numbered from `first` on.
pub fn add_edge(
    first: u32,
    row: &[Node],
    from: Node,
    to: Node,
    label: Label,
    edges: &mut Vec<Edge>,
) -> Result<(), NoMemory>
    requires row { AllPairs ComesBefore row.now }
    requires small { length row.now < 2 ^ 32 }
    requires numbers { first + length row.now ≤ 2 ^ 32 }
    ensures { OnOk result (Gains edges.old.items edges.new.items (IsEdgeBy first row.now from to label)) }
{
    let start = place_in(row, from);
    let end = place_in(row, to);
    add_found(first, start, end, label, edges)
}

/// Adds an edge from the node that was found, where there is one.
pub fn add_from(
    first: u32,
    row: &[Node],
    from: Option<Node>,
    to: Node,
    label: Label,
    edges: &mut Vec<Edge>,
) -> Result<(), NoMemory>
    requires row { AllPairs ComesBefore row.now }
    requires small { length row.now < 2 ^ 32 }
    requires numbers { first + length row.now ≤ 2 ^ 32 }
    ensures { OnOk result (Gains edges.old.items edges.new.items (IsEdgeFrom first row.now (IsFoundNode from) to label)) }
{
    match from {
        None => Ok(()),
        Some(node) => add_edge(first, row, node, to, label, edges),
    }
}

/// The same edges, in order and once each.
pub fn in_order(edges: Vec<Edge>) -> Vec<Edge>
    ensures order { AllPairs EdgeBefore result.items }
    ensures members { (x : Edge) → Contains result.items x ↔ Contains edges.items x }
{
    let mut all = edges;
    all.sort_unstable();
    all.dedup();
    all
}
