// The nodes of statements.
ghost use Rattle.std.specs.Prelude.{◌≡◌, ◌++◌, ◌<◌, ◌≤◌, ◌↔◌, nat_lt, Contains, IfOk, IsTrue, OnOk, length, slice_get};
ghost use Rattle.std.specs.Ordering.{nat_cmp};
ghost use Rattle.slicer_ids.specs.Sets.{IsOrderedListOf};
ghost use Rattle.slicer_ids.specs.declared.ids.SiteId.{SiteId};
ghost use Rattle.class_form.specs.declared.body.Point.{Point};
ghost use Rattle.dep_form.specs.declared.call_site.CallSite.{CallSite};
ghost use Rattle.dep_form.specs.declared.system.System.{System};
ghost use Rattle.dep_form.specs.PointsTo.{Has};
ghost use Rattle.dep_form.specs.Constraints.{IsCallSite, SystemHolds};
ghost use Rattle.dep_form.specs.Orders.{RiseBy};
ghost use Rattle.dep_form.specs.Solutions.{IsSolutionOf};
ghost use Rattle.worklists.specs.Growth.{FromOne};
ghost use Rattle.method_facts.specs.Numbers.{LocBefore};
ghost use Rattle.node_tables.specs.Scenes.{IsInOrder, IsScene};
ghost use Rattle.node_tables.specs.Segments.{AddsNodes, call_nodes};
ghost use Rattle.node_tables.specs.Statements.{AtCall, AtInstr, AtStatement, IsChangedAt, IsUsedAt};

use crate::scene::Scene;
use crate::segments::{Heap, push, push_arguments, push_if, push_locations};
use class_form::body::{Body, Instr, Point};
use dep_form::call_site::CallSite;
use dep_form::node::Node;
use dep_form::rules::Var;
use dep_form::solution::Solution;
use dep_form::system::System;
use method_facts::calls::find_call;
use method_facts::locations::in_any;
use method_facts::solved::{sites_of, targets_of};
use slicer_ids::ids::{CallId, LocId, NoMemory, Statement};
use std::alloc::Global;
use std::cmp::Ordering;

/// Whether a variable may be something.
pub fn is_something(solution: &Solution, v: Var) -> bool
    requires { v.0 < length solution.now.sites }
    ensures { (s : System) → IsSolutionOf s solution.now → IsTrue result ↔ ((h : SiteId) × SystemHolds s (Has v h)) }
{
    !sites_of(solution, v).is_empty()
}

fn call_at(system: &System, c: CallId) -> &CallSite
    requires { c.0 < length system.now.calls }
    ensures { IsCallSite system.now c result.now }
{
    &system.calls.items()[c.0 as usize]
}

// The locations that one of the methods that the call may go to uses.
fn used_at(alloc: Global, scene: &Scene<'_>, c: CallId) -> Result<Vec<LocId>, NoMemory>
    requires scene { IsScene scene.now }
    requires call { c.0 < length scene.now.system.now.calls }
    ensures { IfOk result (λ ls. IsOrderedListOf LocBefore ls.items (IsUsedAt scene.now.system.now scene.now.effects.now c)) }
{
    let targets = targets_of(scene.solution, c);
    in_any(alloc, scene.effects.used.items(), targets)
}

// .. changes.
fn changed_at(alloc: Global, scene: &Scene<'_>, c: CallId) -> Result<Vec<LocId>, NoMemory>
    requires scene { IsScene scene.now }
    requires call { c.0 < length scene.now.system.now.calls }
    ensures { IfOk result (λ ls. IsOrderedListOf LocBefore ls.items (IsChangedAt scene.now.system.now scene.now.effects.now c)) }
{
    let targets = targets_of(scene.solution, c);
    in_any(alloc, scene.effects.changed.items(), targets)
}

/// Adds the nodes of a call, beside its own.
pub fn push_call(
    nodes: &mut Vec<Node>,
    pc: u16,
    count: usize,
    answers: bool,
    throws: bool,
    used: &[LocId],
    changed: &[LocId],
) -> Result<(), NoMemory>
    requires { count ≤ 256 }
    ensures { OnOk result (nodes.new.items ≡ nodes.old.items ++ call_nodes pc count answers throws used.now changed.now) }
{
    push_arguments(nodes, pc, count)?;
    push_if(nodes, answers, Node::Result(pc))?;
    push_if(nodes, throws, Node::Exception(pc))?;
    push_locations(nodes, Heap::Before(pc), used)?;
    push_locations(nodes, Heap::After(pc), changed)
}

fn add_call(
    alloc: Global,
    scene: &Scene<'_>,
    nodes: &mut Vec<Node>,
    c: CallId,
    pc: u16,
    answers: bool,
) -> Result<(), NoMemory>
    requires scene { IsScene scene.now }
    requires call { c.0 < length scene.now.system.now.calls }
    ensures { (k : CallSite) → IsCallSite scene.now.system.now c k → OnOk result (AddsNodes nodes.old.items nodes.new.items (AtCall scene.now.system.now scene.now.effects.now c k pc answers)) }
{
    let site = call_at(scene.system, c);
    let used = used_at(alloc, scene, c)?;
    let changed = changed_at(alloc, scene, c)?;
    let throws = is_something(scene.solution, site.exception);
    let count = site.arguments.items().len();
    push_call(
        nodes,
        pc,
        count,
        answers,
        throws,
        used.as_slice(),
        changed.as_slice(),
    )
}

// Adds the nodes of a statement; a call of which `answers` is true has a result.
fn add_statement(
    alloc: Global,
    scene: &Scene<'_>,
    nodes: &mut Vec<Node>,
    t: Statement,
    answers: bool,
) -> Result<(), NoMemory>
    requires scene { IsScene scene.now }
    ensures { OnOk result (AddsNodes nodes.old.items nodes.new.items (AtStatement scene.now.system.now scene.now.effects.now t answers)) }
{
    push(nodes, Node::Own(t.pc))?;
    match find_call(scene.system.calls.items(), t) {
        None => Ok(()),
        Some(c) => add_call(alloc, scene, nodes, c, t.pc, answers),
    }
}

fn compare(point: &Point, pc: u16) -> Ordering
    ensures { result ≡ nat_cmp point.now.pc pc }
{
    point.pc.cmp(&pc)
}

// Whether control reaches the program counter.
fn has_point(points: &[Point], pc: u16) -> bool
    requires { RiseBy nat_cmp (λ (t : Point). t.pc) points.now }
    ensures { IsTrue result ↔ ((t : Point) × Contains points.now t × (t.pc ≡ pc)) }
{
    match points.binary_search_by(|point| compare(point, pc)) {
        Ok(_) => true,
        Err(_) => false,
    }
}

/// Adds the nodes of an instruction, where control reaches it.
pub fn add_instr(
    alloc: Global,
    scene: &Scene<'_>,
    nodes: &mut Vec<Node>,
    body: &Body,
    instr: &Instr,
) -> Result<(), NoMemory>
    requires scene { IsScene scene.now }
    requires order { IsInOrder body.now }
    ensures { OnOk result (AddsNodes nodes.old.items nodes.new.items (AtInstr scene.now.system.now scene.now.effects.now body.now instr.now)) }
{
    let place = Statement {
        method: body.method,
        pc: instr.pc,
    };
    if has_point(body.shape.points.items(), instr.pc) {
        add_statement(alloc, scene, nodes, place, instr.leaves > 0)
    } else {
        Ok(())
    }
}
