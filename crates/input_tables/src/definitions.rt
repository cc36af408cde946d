// Edges from the nodes of definitions.
ghost use Rattle.std.specs.Prelude.{◌≡◌, ◌<◌, ◌↔◌, ◌^◌, ℕ, IsTrue, OnOk, Some, length, option_map, slice_get};
ghost use Rattle.std.specs.Ordering.{nat_cmp};
ghost use Rattle.class_form.specs.Opcodes.{IsCall, IsThrow};
ghost use Rattle.class_form.specs.declared.body.Point.{Point};
ghost use Rattle.dep_form.specs.declared.node.Node.{Node};
ghost use Rattle.dep_form.specs.declared.node.Node.TheVariants.{Exception};
ghost use Rattle.dep_form.specs.Orders.{RiseBy};
ghost use Rattle.mod_ref.specs.Gains.{Gains};
ghost use Rattle.worklists.specs.Growth.{FromOne};
ghost use Rattle.input_tables.specs.Edges.{HasOp, IsCaughtAt, IsDefEdge, IsEdgeFrom, IsGround, IsRaiseEdge, IsRaisedAt, IsRaisedNode, IsTakerNode, IsValueAt, IsValueNode};

use crate::edges::{add_edge, add_from};
use crate::ground::Ground;
use crate::points::point_of;
use crate::raises::of_handler;
use class_form::body::{Def, Point};
use dep_form::node::{Edge, Label, Node};
use slicer_ids::ids::NoMemory;

fn is_throw(op: u8) -> bool
    ensures { IsTrue result ↔ IsThrow op }
{
    op == 191
}

fn is_call(op: u8) -> bool
    ensures { IsTrue result ↔ IsCall op }
{
    matches!(op, 182..=186)
}

// The node where the value of a statement stands: its own, or the result of a call.
fn value_node(op: u8, pc: u16) -> Node
    ensures { IsValueNode op pc result }
{
    if is_call(op) {
        Node::Result(pc)
    } else {
        Node::Own(pc)
    }
}

/// What takes an operand: the statement's own node, or the argument of a call.
pub fn taker_node(op: u8, pc: u16, operand: u8) -> Node
    ensures { IsTakerNode op pc operand result }
{
    if is_call(op) {
        Node::Argument(pc, operand)
    } else {
        Node::Own(pc)
    }
}

fn call_exception(op: u8, pc: u16) -> Option<Node>
    ensures { (k : Node) → (result ≡ Some k) ↔ (IsCall op × (k ≡ Exception pc)) }
{
    if is_call(op) {
        Some(Node::Exception(pc))
    } else {
        None
    }
}

/// The node of what a statement throws: its own for a throw, for a call its exception.
pub fn raised_node(op: u8, pc: u16) -> Option<Node>
    ensures { (k : Node) → (result ≡ Some k) ↔ IsRaisedNode op pc k }
{
    if is_throw(op) {
        Some(Node::Own(pc))
    } else {
        call_exception(op, pc)
    }
}

fn op_of(points: &[Point], q: u32) -> u8
    requires { q < length points.now }
    ensures { (t : Point) × (slice_get points.now q ≡ Some t) × (t.op ≡ result) }
{
    points[q as usize].op
}

// The opcode at a program counter; none where control doesn't reach it.
fn op_at(points: &[Point], pc: u16) -> Option<u8>
    requires order { RiseBy nat_cmp (λ (t : Point). t.pc) points.now }
    requires few { length points.now < 2 ^ 32 }
    ensures { (op : ℕ) → (result ≡ Some op) ↔ HasOp points.now pc op }
{
    match point_of(points, pc) {
        None => None,
        Some(q) => Some(op_of(points, q)),
    }
}

// The node of the value of the statement at a program counter.
fn value_at(points: &[Point], pc: u16) -> Option<Node>
    requires order { RiseBy nat_cmp (λ (t : Point). t.pc) points.now }
    requires few { length points.now < 2 ^ 32 }
    ensures { (k : Node) → (result ≡ Some k) ↔ IsValueAt points.now pc k }
{
    match op_at(points, pc) {
        None => None,
        Some(op) => Some(value_node(op, pc)),
    }
}

fn point_at(points: &[Point], q: usize) -> Option<&Point>
    ensures { option_map (λ x. x.now) result ≡ slice_get points.now q }
{
    points.get(q)
}

// The node of what is thrown at the point of this number.
fn raised_at(points: &[Point], q: u32) -> Option<Node>
    ensures { (k : Node) → (result ≡ Some k) ↔ IsRaisedAt points.now q k }
{
    match point_at(points, q as usize) {
        None => None,
        Some(point) => raised_node(point.op, point.pc),
    }
}

fn add_value(
    ground: &Ground<'_>,
    pc: u16,
    to: Node,
    label: Label,
    edges: &mut Vec<Edge>,
) -> Result<(), NoMemory>
    requires { IsGround ground.now }
    ensures { OnOk result (Gains edges.old.items edges.new.items (IsEdgeFrom ground.now.first ground.now.row.now (IsValueAt ground.now.points.now pc) to label)) }
{
    let from = value_at(ground.points, pc);
    add_from(ground.first, ground.row, from, to, label, edges)
}

// Adds an edge from what is thrown at the point of a pair.
fn add_raised(
    ground: &Ground<'_>,
    raise: (u32, u32),
    to: Node,
    label: Label,
    edges: &mut Vec<Edge>,
) -> Result<(), NoMemory>
    requires { IsGround ground.now }
    ensures { OnOk result (Gains edges.old.items edges.new.items (IsRaiseEdge ground.now.points.now ground.now.first ground.now.row.now to label raise)) }
{
    let from = raised_at(ground.points, raise.1);
    add_from(ground.first, ground.row, from, to, label, edges)
}

fn add_each_raised(
    ground: &Ground<'_>,
    raises: &[(u32, u32)],
    to: Node,
    label: Label,
    edges: &mut Vec<Edge>,
) -> Result<(), NoMemory>
    requires { IsGround ground.now }
    ensures { OnOk result (Gains edges.old.items edges.new.items (FromOne (IsRaiseEdge ground.now.points.now ground.now.first ground.now.row.now to label) raises.now)) }
{
    for raise in raises {
        add_raised(ground, *raise, to, label, edges)?;
    }
    Ok(())
}

// Adds edges from all that the handler catches.
fn add_caught(
    ground: &Ground<'_>,
    h: u16,
    to: Node,
    label: Label,
    edges: &mut Vec<Edge>,
) -> Result<(), NoMemory>
    requires { IsGround ground.now }
    ensures { OnOk result (Gains edges.old.items edges.new.items (IsEdgeFrom ground.now.first ground.now.row.now (IsCaughtAt ground.now.points.now h) to label)) }
{
    let raises = of_handler(ground.raises, h);
    add_each_raised(ground, raises, to, label, edges)
}

fn add_def(
    ground: &Ground<'_>,
    def: Def,
    to: Node,
    label: Label,
    edges: &mut Vec<Edge>,
) -> Result<(), NoMemory>
    requires { IsGround ground.now }
    ensures { OnOk result (Gains edges.old.items edges.new.items (IsDefEdge ground.now.points.now ground.now.first ground.now.row.now to label def)) }
{
    match def {
        Def::Formal(i) => add_edge(ground.first, ground.row, Node::Formal(i), to, label, edges),
        Def::Value(pc) => add_value(ground, pc, to, label, edges),
        Def::Caught(h) => add_caught(ground, h, to, label, edges),
    }
}

/// Adds edges from definitions to what takes them.
pub fn add_defs(
    ground: &Ground<'_>,
    defs: &[Def],
    to: Node,
    label: Label,
    edges: &mut Vec<Edge>,
) -> Result<(), NoMemory>
    requires { IsGround ground.now }
    ensures { OnOk result (Gains edges.old.items edges.new.items (FromOne (IsDefEdge ground.now.points.now ground.now.first ground.now.row.now to label) defs.now)) }
{
    for def in defs {
        add_def(ground, *def, to, label, edges)?;
    }
    Ok(())
}
