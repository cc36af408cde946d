// The first node from which edges lead back to itself.
ghost use Rattle.std.specs.Prelude.{◌≡◌, ◌<◌, ◌↔◌, ◌^◌, ℕ, length, IsTrue, IfOk, MatchOption, Contains};
ghost use Rattle.slicer_ids.specs.Walks.{Leads};
ghost use Rattle.digraph.specs.Graphs.{HasEdge, IsGraph, IsMarked};
ghost use Rattle.digraph.specs.Orders.{IsOnCycle, IsFirstOnCycle};

use crate::reach::reached;
use slicer_ids::ids::NoMemory;
use std::alloc::Global;

// Whether a row has a node.
fn has(row: &[u32], node: u32) -> bool
    ensures { IsTrue result ↔ Contains row.now node }
{
    row.contains(&node)
}

// Whether an edge leads from a marked node to this one.
fn is_next(graph: &[Vec<u32>], marks: &[bool], node: u32) -> bool
    requires { length marks.now ≡ length graph.now }
    ensures { IsTrue result ↔ ((a : ℕ) × IsMarked marks.now a × HasEdge graph.now a node) }
{
    for a in 0..graph.len() {
        if marks[a] && has(&graph[a], node) {
            return true;
        }
    }
    false
}

// Whether edges lead from a node back to itself.
fn is_on_cycle(alloc: Global, graph: &[Vec<u32>], node: u32) -> Result<bool, NoMemory>
    requires graph { IsGraph graph.now }
    requires node { node < length graph.now }
    ensures { IfOk result (λ is. IsTrue is ↔ IsOnCycle graph.now node) }
{
    match reached(alloc, graph, node) {
        Ok(marks) => Ok(is_next(graph, &marks, node)),
        Err(_) => Err(NoMemory),
    }
}

/// The first node from which edges lead back to itself, where there is one. For each node up to it, each edge is followed once.
pub fn first_on_cycle(alloc: Global, graph: &[Vec<u32>]) -> Result<Option<u32>, NoMemory>
    requires graph { IsGraph graph.now }
    requires few { length graph.now < 2 ^ 32 }
    ensures { IfOk result (λ found. MatchOption found ((n : ℕ) → n < length graph.now → IsOnCycle graph.now n → ⊥) (λ n. IsFirstOnCycle graph.now n)) }
{
    for node in 0..graph.len() {
        if is_on_cycle(alloc, graph, node as u32)? {
            return Ok(Some(node as u32));
        }
    }
    Ok(None)
}
