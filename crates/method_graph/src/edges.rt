// Edges in order.
ghost use Rattle.std.specs.Prelude.{◌≡◌, ◌<◌, ◌≤◌, ◌+◌, ◌^◌, ◌↔◌, ◌++◌, ◌∷◌, [], ℕ, List, length, map, slice_get, Some, IfOk, OnOk, Contains, AllPairs, true, false};
ghost use Rattle.std.specs.List.Sorted.{IsPartitionPoint};
ghost use Rattle.std.proofs.Common.{ltb, leb};
ghost use Rattle.dep_form.specs.declared.node.Edge.{Edge};
ghost use Rattle.method_graph.specs.declared.edges.Ending.{Ending};
ghost use Rattle.method_graph.specs.Edges.{EndingBefore, edge_of, ending_of, AreIncoming};

use dep_form::node::{Edge, Label};
use slicer_ids::ids::{NoMemory, NodeId};
use slicer_ids::list::List;
use std::alloc::Global;

/// An edge, by where it ends first.
#[derive(Clone, Copy, PartialEq, Eq, PartialOrd, Ord)]
pub struct Ending {
    pub to: NodeId,
    pub from: NodeId,
    pub label: Label,
}

/// The same edges, in order, each once.
pub fn in_order(edges: Vec<Ending>) -> Vec<Ending>
    ensures order { AllPairs EndingBefore result.items }
    ensures members { (x : Ending) → Contains result.items x ↔ Contains edges.items x }
{
    let mut all = edges;
    all.sort_unstable();
    all.dedup();
    all
}

// How many edges end before a node.
fn count_before(edges: &[Ending], node: u32) -> usize
    requires { AllPairs EndingBefore edges.now }
    ensures bound { result ≤ length edges.now }
    ensures point { IsPartitionPoint (λ (x : Ending). ltb x.to.0 node ≡ true) (λ (x : Ending). ltb x.to.0 node ≡ false) edges.now result }
{
    edges.partition_point(|x| x.to.0 < node)
}

// How many end in it or before it.
fn count_through(edges: &[Ending], node: u32) -> usize
    requires { AllPairs EndingBefore edges.now }
    ensures bound { result ≤ length edges.now }
    ensures point { IsPartitionPoint (λ (x : Ending). leb x.to.0 node ≡ true) (λ (x : Ending). leb x.to.0 node ≡ false) edges.now result }
{
    edges.partition_point(|x| x.to.0 <= node)
}

// The edges that end in a node.
fn ending_in(edges: &[Ending], node: u32) -> &[Ending]
    requires { AllPairs EndingBefore edges.now }
    ensures order { AllPairs EndingBefore result.now }
    ensures members { (x : Ending) → Contains result.now x ↔ (Contains edges.now x × (x.to.0 ≡ node)) }
{
    let low = count_before(edges, node);
    let high = count_through(edges, node);
    &edges[low..high]
}

// The edges as a graph has them.
fn listed(alloc: Global, edges: &[Ending]) -> Result<List<Edge>, NoMemory>
    ensures { IfOk result (λ es. es ≡ map edge_of edges.now) }
{
    let Ok(mut all) = Vec::with_capacity(alloc, edges.len()) else {
        return Err(NoMemory);
    };
    for x in edges {
        push_edge(&mut all, x)?;
    }
    Ok(List::from_vec(all))
}

fn push_edge(edges: &mut Vec<Edge>, x: &Ending) -> Result<(), NoMemory>
    ensures { OnOk result (edges.new.items ≡ edges.old.items ++ edge_of x.now ∷ []) }
{
    match edges.push(Edge {
        from: x.from,
        to: x.to,
        label: x.label,
    }) {
        Ok(()) => Ok(()),
        Err(_) => Err(NoMemory),
    }
}

/// The edges that end in each of so many nodes, from the first one on.
pub fn incoming_of(
    alloc: Global,
    edges: &[Ending],
    first: u32,
    nodes: usize,
) -> Result<Vec<List<Edge>>, NoMemory>
    requires order { AllPairs EndingBefore edges.now }
    requires few { first + nodes ≤ 2 ^ 32 }
    ensures { IfOk result (λ v. AreIncoming edges.now first nodes v.items) }
{
    let Ok(mut incoming) = Vec::with_capacity(alloc, nodes) else {
        return Err(NoMemory);
    };
    for k in 0..nodes {
        let list = listed(alloc, ending_in(edges, first + k as u32))?;
        push_list(&mut incoming, list)?;
    }
    Ok(incoming)
}

fn push_list(lists: &mut Vec<List<Edge>>, list: List<Edge>) -> Result<(), NoMemory>
    ensures { OnOk result (lists.new.items ≡ lists.old.items ++ list ∷ []) }
{
    match lists.push(list) {
        Ok(()) => Ok(()),
        Err(_) => Err(NoMemory),
    }
}
