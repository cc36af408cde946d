// The edges of full slices, those with some bases expanded, and summaries.
ghost use Rattle.std.specs.Prelude.{◌≡◌, ◌<◌, ◌^◌, ◌↔◌, ℕ, IsTrue, true, length, Contains, OnOk, IfOk};
ghost use Rattle.slicer_ids.specs.declared.ids.NodeId.{NodeId};
ghost use Rattle.dep_form.specs.declared.node.Edge.{Edge};
ghost use Rattle.dep_form.specs.declared.node.Label.TheVariants.{Base};
ghost use Rattle.dep_form.specs.Slices.{plain};
ghost use Rattle.worklists.specs.Growth.{Grows, FromOne};
ghost use Rattle.plain_slice.specs.Rules.{AreBelow, AreSeeds};
ghost use Rattle.plain_slice.specs.Edges.{IsPlainOf, Counts, Leads, IsInSummary};

use crate::levels::levels;
use crate::table::Pair;
use dep_form::node::{Edge, Label};
use slicer_ids::ids::{NoMemory, NodeId};
use std::alloc::Global;

// A label without telling whether a base is used.
fn plain_label(label: Label) -> Label
    ensures { result ≡ plain label }
{
    match label {
        Label::Thin => Label::Thin,
        Label::Base => Label::Thin,
        Label::Call(c) => Label::Call(c),
        Label::Return(c) => Label::Return(c),
    }
}

fn add_plain(edges: &mut Vec<Edge>, edge: Edge) -> Result<(), NoMemory>
    ensures { OnOk result (Grows edges.old.items edges.new.items (IsPlainOf edge)) }
{
    worklists::add(
        edges,
        Edge {
            from: edge.from,
            to: edge.to,
            label: plain_label(edge.label),
        },
    )
}

/// The edges of full slices: all, without telling bases.
pub fn full_edges(alloc: Global, edges: &[Edge]) -> Result<Vec<Edge>, NoMemory>
    ensures { IfOk result (λ es. (e : Edge) → Contains es.items e ↔ ((g : Edge) × Contains edges.now g × IsPlainOf g e)) }
{
    let mut plain = Vec::new(alloc);
    for edge in edges {
        add_plain(&mut plain, *edge)?;
    }
    Ok(plain)
}

// Whether a node is among others.
fn has_node(nodes: &[NodeId], n: NodeId) -> bool
    ensures { IsTrue result ↔ Contains nodes.now n }
{
    nodes.contains(&n)
}

// Whether an edge counts where the bases of these nodes are expanded.
fn does_count(asked: &[NodeId], edge: Edge) -> bool
    ensures { IsTrue result ↔ Counts asked.now edge }
{
    match edge.label {
        Label::Base => has_node(asked, edge.to),
        Label::Thin => true,
        Label::Call(_) => true,
        Label::Return(_) => true,
    }
}

fn add_counted(edges: &mut Vec<Edge>, asked: &[NodeId], edge: Edge) -> Result<(), NoMemory>
    ensures { OnOk result (Grows edges.old.items edges.new.items (λ e. Counts asked.now edge × (e ≡ edge))) }
{
    if does_count(asked, edge) {
        worklists::add(edges, edge)
    } else {
        Ok(())
    }
}

/// The edges but the base edges that end in other nodes than these.
pub fn expanded_edges(
    alloc: Global,
    edges: &[Edge],
    asked: &[NodeId],
) -> Result<Vec<Edge>, NoMemory>
    ensures { IfOk result (λ es. (e : Edge) → Contains es.items e ↔ (Contains edges.now e × Counts asked.now e)) }
{
    let mut kept = Vec::new(alloc);
    for edge in edges {
        add_counted(&mut kept, asked, *edge)?;
    }
    Ok(kept)
}

// Whether the formal of this number leads to the exit.
fn leads(pairs: &[Pair], formals: &[NodeId], exit: NodeId, k: usize) -> bool
    requires { k < length formals.now }
    ensures { IsTrue result ↔ Leads pairs.now formals.now exit k }
{
    let formal = formals[k];
    has_pair(
        pairs,
        Pair {
            node: formal.0,
            place: exit.0,
        },
    )
}

fn has_pair(pairs: &[Pair], one: Pair) -> bool
    ensures { IsTrue result ↔ Contains pairs.now one }
{
    pairs.contains(&one)
}

fn add_formal(numbers: &mut Vec<u32>, holds: bool, k: u32) -> Result<(), NoMemory>
    ensures { OnOk result (Grows numbers.old.items numbers.new.items (λ j. (holds ≡ true) × (j ≡ k))) }
{
    if holds {
        worklists::add(numbers, k)
    } else {
        Ok(())
    }
}

// The numbers of the formals that lead to the exit.
fn leading(
    alloc: Global,
    pairs: &[Pair],
    formals: &[NodeId],
    exit: NodeId,
) -> Result<Vec<u32>, NoMemory>
    requires { length formals.now < 2 ^ 32 }
    ensures { IfOk result (λ ks. (k : ℕ) → Contains ks.items k ↔ Leads pairs.now formals.now exit k) }
{
    let mut numbers = Vec::new(alloc);
    for k in 0..formals.len() {
        let holds = leads(pairs, formals, exit, k);
        add_formal(&mut numbers, holds, k as u32)?;
    }
    Ok(numbers)
}

/// The summary of an exit: the numbers of the formals of its method that flow to it within one call.
pub fn summary(
    alloc: Global,
    size: usize,
    edges: &[Edge],
    formals: &[NodeId],
    exit: NodeId,
) -> Result<Vec<u32>, NoMemory>
    requires size { size < 2 ^ 31 }
    requires edges { AreBelow size edges.now }
    requires exit { exit.0 < size }
    requires formals { length formals.now < 2 ^ 32 }
    ensures { IfOk result (λ ks. (k : ℕ) → Contains ks.items k ↔ IsInSummary edges.now formals.now exit k) }
{
    let level = levels(alloc, size, edges)?;
    let numbers = leading(alloc, &level, formals, exit)?;
    Ok(numbers)
}

fn is_edge_below(size: usize, edge: Edge) -> bool
    ensures { IsTrue result ↔ ((edge.from.0 < size) × (edge.to.0 < size)) }
{
    (edge.from.0 as usize) < size && (edge.to.0 as usize) < size
}

/// Whether the ends of all edges are below the size.
pub fn are_below(size: usize, edges: &[Edge]) -> bool
    ensures { IsTrue result ↔ AreBelow size edges.now }
{
    for edge in edges {
        if !is_edge_below(size, *edge) {
            return false;
        }
    }
    true
}

/// Whether all seeds are below the size.
pub fn are_seeds(size: usize, seeds: &[NodeId]) -> bool
    ensures { IsTrue result ↔ AreSeeds size seeds.now }
{
    for seed in seeds {
        if seed.0 as usize >= size {
            return false;
        }
    }
    true
}
