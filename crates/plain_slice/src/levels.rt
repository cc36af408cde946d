// Same-level paths between all nodes.
ghost use Rattle.std.specs.Prelude.{◌≡◌, ◌<◌, ◌≤◌, ◌^◌, ◌*◌, ◌↔◌, false, replicate, ℕ, IsTrue, All, Contains, OnOk, IfOk, length, take, vec_len, true};
ghost use Rattle.worklists.specs.Growth.{Grows, FromOne, Meets};
ghost use Rattle.plain_slice.specs.Tables.{IsTable, IsBelow, pair};
ghost use Rattle.plain_slice.specs.Rules.{AreBelow, AreLevels, is_flow, FollowsOne, Follows, is_call_of, IsWhole, JoinsOne, JoinsBack, Joins};

use crate::table::{Pair, add, add_if};
use dep_form::node::{Edge, Label};
use slicer_ids::ids::NoMemory;
use std::alloc::Global;

// Whether a value flows by the label within a method.
fn is_flow_label(label: Label) -> bool
    ensures { result ≡ is_flow label }
{
    match label {
        Label::Thin => true,
        Label::Base => true,
        Label::Call(_) => false,
        Label::Return(_) => false,
    }
}

// Whether the one label is that of a call, and the other of a return to it.
fn is_call_label(into: Label, back: Label) -> bool
    ensures { result ≡ is_call_of into back }
{
    match into {
        Label::Call(c) => match back {
            Label::Return(d) => c.0 == d.0,
            Label::Thin => false,
            Label::Base => false,
            Label::Call(_) => false,
        },
        Label::Thin => false,
        Label::Base => false,
        Label::Return(_) => false,
    }
}

// Whether the edge leads to the pair's node within a method.
fn may_follow(from: Pair, edge: Edge) -> bool
    ensures { IsTrue result ↔ ((is_flow edge.label ≡ true) × (edge.to.0 ≡ from.node)) }
{
    is_flow_label(edge.label) && edge.to.0 == from.node
}

fn follow_one(
    edge: Edge,
    from: Pair,
    size: usize,
    marks: &mut Vec<bool>,
    pairs: &mut Vec<Pair>,
) -> Result<(), NoMemory>
    requires size { size < 2 ^ 31 }
    requires edge { edge.from.0 < size }
    requires below { IsBelow size from }
    requires table { IsTable size marks.old.items pairs.old.items }
    ensures table { OnOk result (IsTable size marks.new.items pairs.new.items) }
    ensures grown { OnOk result (Grows pairs.old.items pairs.new.items (FollowsOne from edge)) }
{
    let holds = may_follow(from, edge);
    add_if(
        holds,
        size,
        marks,
        pairs,
        Pair {
            node: edge.from.0,
            place: from.place,
        },
    )
}

/// Back along each edge within a method.
fn follow(
    edges: &[Edge],
    from: Pair,
    size: usize,
    marks: &mut Vec<bool>,
    pairs: &mut Vec<Pair>,
) -> Result<(), NoMemory>
    requires size { size < 2 ^ 31 }
    requires edges { AreBelow size edges.now }
    requires below { IsBelow size from }
    requires table { IsTable size marks.old.items pairs.old.items }
    ensures table { OnOk result (IsTable size marks.new.items pairs.new.items) }
    ensures grown { OnOk result (Grows pairs.old.items pairs.new.items (Follows edges.now from)) }
{
    for edge in edges {
        follow_one(*edge, from, size, marks, pairs)?;
    }
    Ok(())
}

// Whether two edges lead over a whole call, around the inner pair and into the outer one.
fn is_whole_call(outer: Pair, inner: Pair, back: Edge, into: Edge) -> bool
    ensures { IsTrue result ↔ IsWhole outer inner back into }
{
    is_call_label(into.label, back.label)
        && into.to.0 == inner.node
        && back.from.0 == inner.place
        && back.to.0 == outer.node
}

fn join_one(
    outer: Pair,
    inner: Pair,
    back: Edge,
    into: Edge,
    size: usize,
    marks: &mut Vec<bool>,
    pairs: &mut Vec<Pair>,
) -> Result<(), NoMemory>
    requires size { size < 2 ^ 31 }
    requires edge { into.from.0 < size }
    requires below { IsBelow size outer }
    requires table { IsTable size marks.old.items pairs.old.items }
    ensures table { OnOk result (IsTable size marks.new.items pairs.new.items) }
    ensures grown { OnOk result (Grows pairs.old.items pairs.new.items (JoinsOne outer inner back into)) }
{
    let holds = is_whole_call(outer, inner, back, into);
    add_if(
        holds,
        size,
        marks,
        pairs,
        Pair {
            node: into.from.0,
            place: outer.place,
        },
    )
}

fn join_back(
    edges: &[Edge],
    outer: Pair,
    inner: Pair,
    back: Edge,
    size: usize,
    marks: &mut Vec<bool>,
    pairs: &mut Vec<Pair>,
) -> Result<(), NoMemory>
    requires size { size < 2 ^ 31 }
    requires edges { AreBelow size edges.now }
    requires below { IsBelow size outer }
    requires table { IsTable size marks.old.items pairs.old.items }
    ensures table { OnOk result (IsTable size marks.new.items pairs.new.items) }
    ensures grown { OnOk result (Grows pairs.old.items pairs.new.items (JoinsBack edges.now outer inner back)) }
{
    for into in edges {
        join_one(outer, inner, back, *into, size, marks, pairs)?;
    }
    Ok(())
}

/// Over each whole call around the inner pair.
fn join(
    edges: &[Edge],
    outer: Pair,
    inner: Pair,
    size: usize,
    marks: &mut Vec<bool>,
    pairs: &mut Vec<Pair>,
) -> Result<(), NoMemory>
    requires size { size < 2 ^ 31 }
    requires edges { AreBelow size edges.now }
    requires below { IsBelow size outer }
    requires table { IsTable size marks.old.items pairs.old.items }
    ensures table { OnOk result (IsTable size marks.new.items pairs.new.items) }
    ensures grown { OnOk result (Grows pairs.old.items pairs.new.items (Joins edges.now outer inner)) }
{
    for back in edges {
        join_back(edges, outer, inner, *back, size, marks, pairs)?;
    }
    Ok(())
}

/// Joins a pair with the first pairs of the table, either way round.
fn meet(
    edges: &[Edge],
    one: Pair,
    count: usize,
    size: usize,
    marks: &mut Vec<bool>,
    pairs: &mut Vec<Pair>,
) -> Result<(), NoMemory>
    requires size { size < 2 ^ 31 }
    requires edges { AreBelow size edges.now }
    requires below { IsBelow size one }
    requires count { count ≤ vec_len pairs.old }
    requires table { IsTable size marks.old.items pairs.old.items }
    ensures table { OnOk result (IsTable size marks.new.items pairs.new.items) }
    ensures grown { OnOk result (Grows pairs.old.items pairs.new.items (FromOne (Meets (Joins edges.now) one) (take count pairs.old.items))) }
{
    for k in 0..count {
        let other = pairs[k];
        join(edges, other, one, size, marks, pairs)?;
        join(edges, one, other, size, marks, pairs)?;
    }
    Ok(())
}

/// The pairs of nodes below the size with a same-level path from the first to the second. It takes time in the square of the edges
/// and in the square of the pairs.
pub fn levels(alloc: Global, size: usize, edges: &[Edge]) -> Result<Vec<Pair>, NoMemory>
    requires size { size < 2 ^ 31 }
    requires edges { AreBelow size edges.now }
    ensures { IfOk result (λ t. AreLevels size edges.now t.items) }
{
    let mut marks = new_marks(alloc, size)?;
    let mut pairs = Vec::new(alloc);
    for n in 0..size as u32 {
        add(size, &mut marks, &mut pairs, Pair { node: n, place: n })?;
    }
    let mut next = 0;
    while next < pairs.len() {
        let one = pairs[next];
        follow(edges, one, size, &mut marks, &mut pairs)?;
        next += 1;
        meet(edges, one, next, size, &mut marks, &mut pairs)?;
    }
    Ok(pairs)
}

/// No mark yet.
pub fn new_marks(alloc: Global, size: usize) -> Result<Vec<bool>, NoMemory>
    requires { size < 2 ^ 31 }
    ensures { IfOk result (λ m. m.items ≡ replicate (size * size) false) }
{
    match vec![in alloc; false; size * size] {
        Ok(marks) => Ok(marks),
        Err(_) => Err(NoMemory),
    }
}
