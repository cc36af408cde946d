// Slices of small graphs, by realizable paths.
ghost use Rattle.std.specs.Prelude.{◌≡◌, ◌⊎◌, ◌<◌, ◌^◌, ◌↔◌, ◌++◌, ◌∷◌, [], ℕ, IsTrue, All, Contains, OnOk, IfOk, true};
ghost use Rattle.slicer_ids.specs.declared.ids.NodeId.{NodeId};
ghost use Rattle.dep_form.specs.Paths.{IsInSlice};
ghost use Rattle.worklists.specs.Growth.{Grows, FromOne};
ghost use Rattle.plain_slice.specs.Tables.{IsTable, IsBelow, pair};
ghost use Rattle.plain_slice.specs.Rules.{AreBelow, AreLevels, AreSeeds, node, may_go, MovesOne, JumpsOne, Turns, Leaves};

use crate::levels::{levels, new_marks};
use crate::table::{Pair, add, add_if};
use dep_form::node::{Edge, Label};
use slicer_ids::ids::{NoMemory, NodeId};
use std::alloc::Global;

// Whether a walk in this phase goes back along an edge of the label.
fn may_go_by(phase: u32, label: Label) -> bool
    ensures { result ≡ may_go phase label }
{
    match label {
        Label::Thin => false,
        Label::Base => false,
        Label::Call(_) => phase == 0,
        Label::Return(_) => phase == 1,
    }
}

fn may_move(from: Pair, edge: Edge) -> bool
    ensures { IsTrue result ↔ ((may_go from.place edge.label ≡ true) × (edge.to.0 ≡ from.node)) }
{
    may_go_by(from.place, edge.label) && edge.to.0 == from.node
}

fn move_one(
    from: Pair,
    edge: Edge,
    size: usize,
    marks: &mut Vec<bool>,
    pairs: &mut Vec<Pair>,
) -> Result<(), NoMemory>
    requires size { size < 2 ^ 31 }
    requires edge { edge.from.0 < size }
    requires below { IsBelow size from }
    requires table { IsTable size marks.old.items pairs.old.items }
    ensures table { OnOk result (IsTable size marks.new.items pairs.new.items) }
    ensures grown { OnOk result (Grows pairs.old.items pairs.new.items (MovesOne from edge)) }
{
    let holds = may_move(from, edge);
    add_if(
        holds,
        size,
        marks,
        pairs,
        Pair {
            node: edge.from.0,
            place: from.place,
        },
    )
}

// Back to callers in phase 1, into methods in phase 0.
fn moves(
    edges: &[Edge],
    from: Pair,
    size: usize,
    marks: &mut Vec<bool>,
    pairs: &mut Vec<Pair>,
) -> Result<(), NoMemory>
    requires size { size < 2 ^ 31 }
    requires edges { AreBelow size edges.now }
    requires below { IsBelow size from }
    requires table { IsTable size marks.old.items pairs.old.items }
    ensures table { OnOk result (IsTable size marks.new.items pairs.new.items) }
    ensures grown { OnOk result (Grows pairs.old.items pairs.new.items (FromOne (MovesOne from) edges.now)) }
{
    for edge in edges {
        move_one(from, *edge, size, marks, pairs)?;
    }
    Ok(())
}

fn jump_one(
    from: Pair,
    level: Pair,
    size: usize,
    marks: &mut Vec<bool>,
    pairs: &mut Vec<Pair>,
) -> Result<(), NoMemory>
    requires size { size < 2 ^ 31 }
    requires level { IsBelow size level }
    requires below { IsBelow size from }
    requires table { IsTable size marks.old.items pairs.old.items }
    ensures table { OnOk result (IsTable size marks.new.items pairs.new.items) }
    ensures grown { OnOk result (Grows pairs.old.items pairs.new.items (JumpsOne from level)) }
{
    let holds = level.place == from.node;
    add_if(
        holds,
        size,
        marks,
        pairs,
        Pair {
            node: level.node,
            place: from.place,
        },
    )
}

// Back along same-level paths.
fn jumps(
    levels: &[Pair],
    from: Pair,
    size: usize,
    marks: &mut Vec<bool>,
    pairs: &mut Vec<Pair>,
) -> Result<(), NoMemory>
    requires size { size < 2 ^ 31 }
    requires levels { All (IsBelow size) levels.now }
    requires below { IsBelow size from }
    requires table { IsTable size marks.old.items pairs.old.items }
    ensures table { OnOk result (IsTable size marks.new.items pairs.new.items) }
    ensures grown { OnOk result (Grows pairs.old.items pairs.new.items (FromOne (JumpsOne from) levels.now)) }
{
    for level in levels {
        jump_one(from, *level, size, marks, pairs)?;
    }
    Ok(())
}

// All that one pair leads back to.
fn leave(
    edges: &[Edge],
    levels: &[Pair],
    from: Pair,
    size: usize,
    marks: &mut Vec<bool>,
    pairs: &mut Vec<Pair>,
) -> Result<(), NoMemory>
    requires size { size < 2 ^ 31 }
    requires two { 1 < size }
    requires edges { AreBelow size edges.now }
    requires levels { All (IsBelow size) levels.now }
    requires below { IsBelow size from }
    requires table { IsTable size marks.old.items pairs.old.items }
    ensures table { OnOk result (IsTable size marks.new.items pairs.new.items) }
    ensures grown { OnOk result (Grows pairs.old.items pairs.new.items (Leaves edges.now levels.now from)) }
{
    moves(edges, from, size, marks, pairs)?;
    jumps(levels, from, size, marks, pairs)?;
    add_if(
        from.place == 0,
        size,
        marks,
        pairs,
        Pair {
            node: from.node,
            place: 1,
        },
    )?;
    Ok(())
}

// The nodes of both phases; those of phase 1 are the slice.
fn walk(
    alloc: Global,
    size: usize,
    edges: &[Edge],
    levels: &[Pair],
    seeds: &[NodeId],
) -> Result<Vec<Pair>, NoMemory>
    requires size { size < 2 ^ 31 }
    requires two { 1 < size }
    requires edges { AreBelow size edges.now }
    requires levels { AreLevels size edges.now levels.now }
    requires seeds { AreSeeds size seeds.now }
    ensures { IfOk result (λ t. (n : ℕ) → Contains t.items (pair n 1) ↔ IsInSlice (Contains edges.now) (Contains seeds.now) (node n)) }
{
    let mut marks = new_marks(alloc, size)?;
    let mut pairs = Vec::new(alloc);
    for seed in seeds {
        add(
            size,
            &mut marks,
            &mut pairs,
            Pair {
                node: seed.0,
                place: 0,
            },
        )?;
    }
    let mut next = 0;
    while next < pairs.len() {
        let from = pairs[next];
        leave(edges, levels, from, size, &mut marks, &mut pairs)?;
        next += 1;
    }
    Ok(pairs)
}

// Adds the node of a pair of phase 1.
fn pick_one(nodes: &mut Vec<NodeId>, found: Pair) -> Result<(), NoMemory>
    ensures { OnOk result (Grows nodes.old.items nodes.new.items (λ n. found ≡ pair n.0 1)) }
{
    if found.place == 1 {
        worklists::add(nodes, NodeId(found.node))
    } else {
        Ok(())
    }
}

// The nodes of phase 1.
fn pick(alloc: Global, found: &[Pair]) -> Result<Vec<NodeId>, NoMemory>
    ensures { IfOk result (λ ns. (n : NodeId) → Contains ns.items n ↔ Contains found.now (pair n.0 1)) }
{
    let mut nodes = Vec::new(alloc);
    for one in found {
        pick_one(&mut nodes, *one)?;
    }
    Ok(nodes)
}

/// The slice of the seeds: they and the nodes from which a realizable path leads to one of them, after Horwitz, Reps and Binkley.
/// All nodes are below the size. It takes time in the square of the edges and in the square of the pairs of nodes.
pub fn slice(
    alloc: Global,
    size: usize,
    edges: &[Edge],
    seeds: &[NodeId],
) -> Result<Vec<NodeId>, NoMemory>
    requires size { size < 2 ^ 31 }
    requires two { 1 < size }
    requires edges { AreBelow size edges.now }
    requires seeds { AreSeeds size seeds.now }
    ensures { IfOk result (λ ns. (n : NodeId) → Contains ns.items n ↔ IsInSlice (Contains edges.now) (Contains seeds.now) n) }
{
    let level = levels(alloc, size, edges)?;
    let found = walk(alloc, size, edges, &level, seeds)?;
    let nodes = pick(alloc, &found)?;
    Ok(nodes)
}
