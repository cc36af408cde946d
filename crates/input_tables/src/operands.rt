// The edges from definitions to the operands that they reach.
ghost use Rattle.std.specs.Prelude.{◌≡◌, ◌<◌, ◌≤◌, ◌+◌, ◌↔◌, ◌^◌, All, AllPairs, Contains, IfOk, OnOk, Some, length, slice_get};
ghost use Rattle.std.specs.Ordering.{nat_cmp};
ghost use Rattle.class_form.specs.declared.body.Body.{Body};
ghost use Rattle.dep_form.specs.declared.node.Edge.{Edge};
ghost use Rattle.dep_form.specs.Graphs.{EdgeBefore};
ghost use Rattle.dep_form.specs.Nodes.{ComesBefore};
ghost use Rattle.dep_form.specs.Orders.{RiseBy};
ghost use Rattle.mod_ref.specs.Gains.{Gains};
ghost use Rattle.node_tables.specs.Scenes.{IsInOrder};
ghost use Rattle.worklists.specs.Growth.{FromOne};
ghost use Rattle.input_tables.specs.Edges.{AreOperandEdgesOf, HasReach, IsGround, IsPointEdge, IsUseEdge, operand_label};

use crate::definitions::{add_defs, taker_node};
use crate::edges::in_order;
use crate::ground::Ground;
use crate::points::{body_at, find_body};
use crate::raises::raises_of;
use class_form::body::{Body, Point, SlotUse};
use dep_form::node::{Edge, Label, Node};
use slicer_ids::ids::{MethodId, NoMemory};
use std::alloc::Global;

// Points stand at program counters of 16 bits.
const MOST: usize = 65536;

fn label_of(base: bool) -> Label
    ensures { result ≡ operand_label base }
{
    if base { Label::Base } else { Label::Thin }
}

/// Adds the edges to one slot of an operand.
pub fn add_use(
    ground: &Ground<'_>,
    body: &Body,
    point: &Point,
    slot_use: SlotUse,
    edges: &mut Vec<Edge>,
) -> Result<(), NoMemory>
    requires ground { IsGround ground.now }
    requires reach { HasReach body.now }
    ensures { OnOk result (Gains edges.old.items edges.new.items (IsUseEdge ground.now.points.now ground.now.first ground.now.row.now body.now.shape point.now slot_use)) }
{
    let to = taker_node(point.op, point.pc, slot_use.operand);
    let label = label_of(slot_use.base);
    let defs = body.reach.at(point.pc, slot_use.slot);
    add_defs(ground, defs, to, label, edges)
}

// .. to the operands of a statement.
fn add_uses(
    ground: &Ground<'_>,
    body: &Body,
    point: &Point,
    edges: &mut Vec<Edge>,
) -> Result<(), NoMemory>
    requires ground { IsGround ground.now }
    requires reach { HasReach body.now }
    ensures { OnOk result (Gains edges.old.items edges.new.items (IsPointEdge ground.now.points.now ground.now.first ground.now.row.now body.now.shape point.now)) }
{
    for slot_use in point.uses.items() {
        add_use(ground, body, point, *slot_use, edges)?;
    }
    Ok(())
}

// .. to those of points.
fn add_points(
    ground: &Ground<'_>,
    body: &Body,
    points: &[Point],
    edges: &mut Vec<Edge>,
) -> Result<(), NoMemory>
    requires ground { IsGround ground.now }
    requires reach { HasReach body.now }
    ensures { OnOk result (Gains edges.old.items edges.new.items (FromOne (IsPointEdge ground.now.points.now ground.now.first ground.now.row.now body.now.shape) points.now)) }
{
    for point in points {
        add_uses(ground, body, point, edges)?;
    }
    Ok(())
}

fn edges_on(alloc: Global, ground: &Ground<'_>, body: &Body) -> Result<Vec<Edge>, NoMemory>
    requires ground { IsGround ground.now }
    requires reach { HasReach body.now }
    ensures order { IfOk result (λ v. AllPairs EdgeBefore v.items) }
    ensures members { IfOk result (λ v. (x : Edge) → Contains v.items x ↔ FromOne (IsPointEdge ground.now.points.now ground.now.first ground.now.row.now body.now.shape) ground.now.points.now x) }
{
    let mut edges = Vec::new(alloc);
    add_points(ground, body, ground.points, &mut edges)?;
    Ok(in_order(edges))
}

fn edges_in(
    alloc: Global,
    body: &Body,
    points: &[Point],
    first: u32,
    row: &[Node],
) -> Result<Vec<Edge>, NoMemory>
    requires points { RiseBy nat_cmp (λ (t : Point). t.pc) points.now }
    requires reach { HasReach body.now }
    requires row { AllPairs ComesBefore row.now }
    requires small { length row.now < 2 ^ 32 }
    requires numbers { first + length row.now ≤ 2 ^ 32 }
    ensures order { IfOk result (λ v. AllPairs EdgeBefore v.items) }
    ensures members { IfOk result (λ v. (x : Edge) → Contains v.items x ↔ FromOne (IsPointEdge points.now first row.now body.now.shape) points.now x) }
{
    if points.len() > MOST {
        return Err(NoMemory);
    }
    let raises = raises_of(alloc, points)?;
    let ground = Ground {
        points,
        raises: raises.as_slice(),
        first,
        row,
    };
    edges_on(alloc, &ground, body)
}

fn edges_at(
    alloc: Global,
    bodies: &[Body],
    m: MethodId,
    number: usize,
    first: u32,
    row: &[Node],
) -> Result<Vec<Edge>, NoMemory>
    requires ordered { All IsInOrder bodies.now }
    requires reaches { All HasReach bodies.now }
    requires number { (b : Body) × (slice_get bodies.now number ≡ Some b) × (b.method ≡ m) }
    requires row { AllPairs ComesBefore row.now }
    requires small { length row.now < 2 ^ 32 }
    requires numbers { first + length row.now ≤ 2 ^ 32 }
    ensures order { IfOk result (λ v. AllPairs EdgeBefore v.items) }
    ensures members { IfOk result (λ v. AreOperandEdgesOf bodies.now m first row.now v.items) }
{
    let body = body_at(bodies, number);
    edges_in(alloc, body, body.shape.points.items(), first, row)
}

/// The edges from definitions to what takes them, within a method, in order: to a statement's own node, or to the argument of a call.
/// They are base edges where an object or array is reached through the operand, or where it is an index, and thin edges elsewhere. The
/// nodes are those of the row, and numbered from `first` on. A method without a body has none.
///
/// For each slot that an operand takes it takes a logarithmic number of steps, and one look-up in the row for each definition that holds
/// there; an edge takes 16 bytes.
pub fn operand_edges(
    alloc: Global,
    bodies: &[Body],
    m: MethodId,
    first: u32,
    row: &[Node],
) -> Result<Vec<Edge>, NoMemory>
    requires bodies { RiseBy nat_cmp (λ (b : Body). b.method.0) bodies.now }
    requires ordered { All IsInOrder bodies.now }
    requires reaches { All HasReach bodies.now }
    requires row { AllPairs ComesBefore row.now }
    requires small { length row.now < 2 ^ 32 }
    requires numbers { first + length row.now ≤ 2 ^ 32 }
    ensures order { IfOk result (λ v. AllPairs EdgeBefore v.items) }
    ensures members { IfOk result (λ v. AreOperandEdgesOf bodies.now m first row.now v.items) }
{
    match find_body(bodies, m) {
        None => Ok(Vec::new(alloc)),
        Some(number) => edges_at(alloc, bodies, m, number, first, row),
    }
}
