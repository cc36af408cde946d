// Edges between the nodes of two rows.
ghost use Rattle.std.specs.Prelude.{◌≡◌, ◌<◌, ◌≤◌, ◌+◌, ◌^◌, ℕ, AllPairs, OnOk, Some, length};
ghost use Rattle.dep_form.specs.declared.node.Edge.{Edge};
ghost use Rattle.dep_form.specs.Nodes.{ComesBefore};
ghost use Rattle.mod_ref.specs.Gains.{Gains};
ghost use Rattle.edge_tables.specs.Rows.{IsEdgeBetween, IsFoundEdge, IsGoodRow, IsStartedEdge, edge_of};

use crate::scene::Row;
use dep_form::node::{Edge, Label, Node};
use input_tables::place_in;
use slicer_ids::ids::{NoMemory, NodeId};

fn push(edges: &mut Vec<Edge>, from: u32, to: u32, label: Label) -> Result<(), NoMemory>
    ensures { OnOk result (Gains edges.old.items edges.new.items (λ x. x ≡ edge_of from to label)) }
{
    match edges.push(Edge {
        from: NodeId(from),
        to: NodeId(to),
        label,
    }) {
        Ok(()) => Ok(()),
        Err(_) => Err(NoMemory),
    }
}

// Adds an edge from a number to the node that was found.
fn add_started(
    edges: &mut Vec<Edge>,
    from: u32,
    first: u32,
    end: Option<u32>,
    label: Label,
) -> Result<(), NoMemory>
    requires { (b : ℕ) → end ≡ Some b → first + b < 2 ^ 32 }
    ensures { OnOk result (Gains edges.old.items edges.new.items (IsStartedEdge from first end label)) }
{
    match end {
        None => Ok(()),
        Some(b) => push(edges, from, first + b, label),
    }
}

// .. where both were found.
fn add_found(
    edges: &mut Vec<Edge>,
    from: u32,
    start: Option<u32>,
    to: u32,
    end: Option<u32>,
    label: Label,
) -> Result<(), NoMemory>
    requires start { (a : ℕ) → start ≡ Some a → from + a < 2 ^ 32 }
    requires end { (b : ℕ) → end ≡ Some b → to + b < 2 ^ 32 }
    ensures { OnOk result (Gains edges.old.items edges.new.items (IsFoundEdge from start to end label)) }
{
    match start {
        None => Ok(()),
        Some(a) => add_started(edges, from + a, to, end, label),
    }
}

/// Adds an edge, where both rows have their node.
pub fn add_between(
    edges: &mut Vec<Edge>,
    from: &Row<'_>,
    k: Node,
    to: &Row<'_>,
    j: Node,
    label: Label,
) -> Result<(), NoMemory>
    requires from { IsGoodRow from.now.first from.now.nodes.now }
    requires to { IsGoodRow to.now.first to.now.nodes.now }
    ensures { OnOk result (Gains edges.old.items edges.new.items (IsEdgeBetween from.now.first from.now.nodes.now k to.now.first to.now.nodes.now j label)) }
{
    let start = place_in(from.nodes, k);
    let end = place_in(to.nodes, j);
    add_found(edges, from.first, start, to.first, end, label)
}

/// .. between two nodes of one row.
pub fn add_within(
    edges: &mut Vec<Edge>,
    row: &Row<'_>,
    k: Node,
    j: Node,
    label: Label,
) -> Result<(), NoMemory>
    requires { IsGoodRow row.now.first row.now.nodes.now }
    ensures { OnOk result (Gains edges.old.items edges.new.items (IsEdgeBetween row.now.first row.now.nodes.now k row.now.first row.now.nodes.now j label)) }
{
    let start = place_in(row.nodes, k);
    let end = place_in(row.nodes, j);
    add_found(edges, row.first, start, row.first, end, label)
}
