// The edges to what a method answers, and to what it throws.
ghost use Rattle.std.specs.Prelude.{◌≡◌, ◌<◌, ◌≤◌, ◌+◌, ◌↔◌, ◌^◌, All, AllPairs, Contains, IfOk, IsTrue, OnOk, Some, length, slice_get};
ghost use Rattle.std.specs.Ordering.{nat_cmp};
ghost use Rattle.class_form.specs.Opcodes.{IsValueReturn};
ghost use Rattle.class_form.specs.declared.body.Body.{Body};
ghost use Rattle.dep_form.specs.declared.node.Edge.{Edge};
ghost use Rattle.dep_form.specs.declared.node.Node.{Node};
ghost use Rattle.dep_form.specs.Graphs.{EdgeBefore};
ghost use Rattle.dep_form.specs.Nodes.{ComesBefore};
ghost use Rattle.dep_form.specs.Orders.{RiseBy};
ghost use Rattle.mod_ref.specs.Gains.{Gains};
ghost use Rattle.worklists.specs.Growth.{FromOne};
ghost use Rattle.input_tables.specs.Exits.{AreExitEdgesOf, Covers, IsAllCaught, IsCatchAll, IsLeavingNode, IsPointExit, IsReturnEdge, IsReturnNode, IsThrownEdge};

use crate::definitions::raised_node;
use crate::edges::{add_from, in_order};
use crate::points::{body_at, find_body};
use class_form::body::{Body, Point};
use class_form::class_file::Handler;
use dep_form::node::{Edge, Label, Node};
use slicer_ids::ids::{MethodId, NoMemory};
use std::alloc::Global;

fn covers(handler: &Handler, pc: u16) -> bool
    ensures { IsTrue result ↔ Covers pc handler.now }
{
    handler.start <= pc && pc < handler.end
}

// Whether a handler covers the program counter and catches all.
fn is_catch_all(handler: &Handler, pc: u16) -> bool
    ensures { IsTrue result ↔ IsCatchAll pc handler.now }
{
    handler.catch_type == 0 && covers(handler, pc)
}

// Whether one of the handlers does.
fn is_all_caught(handlers: &[Handler], pc: u16) -> bool
    ensures { IsTrue result ↔ IsAllCaught handlers.now pc }
{
    for handler in handlers {
        if is_catch_all(handler, pc) {
            return true;
        }
    }
    false
}

fn is_value_return(op: u8) -> bool
    ensures { IsTrue result ↔ IsValueReturn op }
{
    matches!(op, 172..=176)
}

/// The node of a return, where it answers a value.
pub fn return_node(op: u8, pc: u16) -> Option<Node>
    ensures { (k : Node) → (result ≡ Some k) ↔ IsReturnNode op pc k }
{
    if is_value_return(op) {
        Some(Node::Own(pc))
    } else {
        None
    }
}

/// The node of what is thrown at a point, where it may leave the method.
pub fn leaving_node(handlers: &[Handler], op: u8, pc: u16) -> Option<Node>
    ensures { (k : Node) → (result ≡ Some k) ↔ IsLeavingNode handlers.now op pc k }
{
    if is_all_caught(handlers, pc) {
        None
    } else {
        raised_node(op, pc)
    }
}

fn add_return(
    first: u32,
    row: &[Node],
    point: &Point,
    edges: &mut Vec<Edge>,
) -> Result<(), NoMemory>
    requires row { AllPairs ComesBefore row.now }
    requires small { length row.now < 2 ^ 32 }
    requires numbers { first + length row.now ≤ 2 ^ 32 }
    ensures { OnOk result (Gains edges.old.items edges.new.items (IsReturnEdge first row.now point.now)) }
{
    let from = return_node(point.op, point.pc);
    add_from(first, row, from, Node::Return, Label::Thin, edges)
}

fn add_thrown(
    handlers: &[Handler],
    first: u32,
    row: &[Node],
    point: &Point,
    edges: &mut Vec<Edge>,
) -> Result<(), NoMemory>
    requires row { AllPairs ComesBefore row.now }
    requires small { length row.now < 2 ^ 32 }
    requires numbers { first + length row.now ≤ 2 ^ 32 }
    ensures { OnOk result (Gains edges.old.items edges.new.items (IsThrownEdge handlers.now first row.now point.now)) }
{
    let from = leaving_node(handlers, point.op, point.pc);
    add_from(first, row, from, Node::Thrown, Label::Thin, edges)
}

fn add_point(
    handlers: &[Handler],
    first: u32,
    row: &[Node],
    point: &Point,
    edges: &mut Vec<Edge>,
) -> Result<(), NoMemory>
    requires row { AllPairs ComesBefore row.now }
    requires small { length row.now < 2 ^ 32 }
    requires numbers { first + length row.now ≤ 2 ^ 32 }
    ensures { OnOk result (Gains edges.old.items edges.new.items (IsPointExit handlers.now first row.now point.now)) }
{
    add_return(first, row, point, edges)?;
    add_thrown(handlers, first, row, point, edges)
}

fn add_points(
    handlers: &[Handler],
    first: u32,
    row: &[Node],
    points: &[Point],
    edges: &mut Vec<Edge>,
) -> Result<(), NoMemory>
    requires row { AllPairs ComesBefore row.now }
    requires small { length row.now < 2 ^ 32 }
    requires numbers { first + length row.now ≤ 2 ^ 32 }
    ensures { OnOk result (Gains edges.old.items edges.new.items (FromOne (IsPointExit handlers.now first row.now) points.now)) }
{
    for point in points {
        add_point(handlers, first, row, point, edges)?;
    }
    Ok(())
}

fn exits_of(
    alloc: Global,
    handlers: &[Handler],
    first: u32,
    row: &[Node],
    points: &[Point],
) -> Result<Vec<Edge>, NoMemory>
    requires row { AllPairs ComesBefore row.now }
    requires small { length row.now < 2 ^ 32 }
    requires numbers { first + length row.now ≤ 2 ^ 32 }
    ensures order { IfOk result (λ v. AllPairs EdgeBefore v.items) }
    ensures members { IfOk result (λ v. (x : Edge) → Contains v.items x ↔ FromOne (IsPointExit handlers.now first row.now) points.now x) }
{
    let mut edges = Vec::new(alloc);
    add_points(handlers, first, row, points, &mut edges)?;
    Ok(in_order(edges))
}

fn exits_at(
    alloc: Global,
    bodies: &[Body],
    m: MethodId,
    number: usize,
    handlers: &[Handler],
    first: u32,
    row: &[Node],
) -> Result<Vec<Edge>, NoMemory>
    requires number { (b : Body) × (slice_get bodies.now number ≡ Some b) × (b.method ≡ m) }
    requires row { AllPairs ComesBefore row.now }
    requires small { length row.now < 2 ^ 32 }
    requires numbers { first + length row.now ≤ 2 ^ 32 }
    ensures order { IfOk result (λ v. AllPairs EdgeBefore v.items) }
    ensures members { IfOk result (λ v. AreExitEdgesOf bodies.now m handlers.now first row.now v.items) }
{
    let body = body_at(bodies, number);
    exits_of(alloc, handlers, first, row, body.shape.points.items())
}

/// The edges to what a method answers and to what it throws, in order: from each return of a value, and from each throw and what each
/// call throws, unless one of the handlers that cover it catches all. The handlers are those of the method's code, the nodes those of
/// the row, numbered from `first` on. A method without a body has none.
pub fn exit_edges(
    alloc: Global,
    bodies: &[Body],
    m: MethodId,
    handlers: &[Handler],
    first: u32,
    row: &[Node],
) -> Result<Vec<Edge>, NoMemory>
    requires bodies { RiseBy nat_cmp (λ (b : Body). b.method.0) bodies.now }
    requires row { AllPairs ComesBefore row.now }
    requires small { length row.now < 2 ^ 32 }
    requires numbers { first + length row.now ≤ 2 ^ 32 }
    ensures order { IfOk result (λ v. AllPairs EdgeBefore v.items) }
    ensures members { IfOk result (λ v. AreExitEdgesOf bodies.now m handlers.now first row.now v.items) }
{
    match find_body(bodies, m) {
        None => Ok(Vec::new(alloc)),
        Some(number) => exits_at(alloc, bodies, m, number, handlers, first, row),
    }
}
