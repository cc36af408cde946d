// The nodes of methods and of the root, in order.
ghost use Rattle.std.specs.Prelude.{◌≡◌, ◌⊎◌, ◌<◌, ◌≤◌, ◌↔◌, ℕ, true, Contains, IfOk, IsTrue, MatchOption, OnOk, Some, length, slice_get};
ghost use Rattle.std.specs.Ordering.{nat_cmp};
ghost use Rattle.slicer_ids.specs.Sets.{IsOrderedListOf};
ghost use Rattle.class_form.specs.declared.body.Body.{Body};
ghost use Rattle.dep_form.specs.Constraints.{IsMethodVars};
ghost use Rattle.dep_form.specs.Nodes.{ComesBefore};
ghost use Rattle.dep_form.specs.Orders.{RiseBy};
ghost use Rattle.fact_form.specs.EntryCalls.{IsGiven};
ghost use Rattle.worklists.specs.Growth.{FromOne};
ghost use Rattle.node_tables.specs.Rows.{AtBody, AtMethod, AtRoot, IsBodyAt};
ghost use Rattle.node_tables.specs.Scenes.{IsInOrder, IsScene};
ghost use Rattle.node_tables.specs.Segments.{AddsNodes};
ghost use Rattle.node_tables.specs.Statements.{AtEntry, AtEntryCall, AtExit, AtInstr};

use crate::scene::Scene;
use crate::segments::{Heap, push_formals, push_if, push_locations};
use crate::statements::{add_instr, is_something};
use class_form::body::{Body, Instr};
use dep_form::node::Node;
use dep_form::rules::MethodVars;
use dep_form::system::System;
use method_facts::locations::list_of;
use slicer_ids::ids::{MethodId, NoMemory};
use std::alloc::Global;
use std::cmp::Ordering;

// Adds the nodes of instructions.
fn add_instrs(
    alloc: Global,
    scene: &Scene<'_>,
    nodes: &mut Vec<Node>,
    body: &Body,
    instrs: &[Instr],
) -> Result<(), NoMemory>
    requires scene { IsScene scene.now }
    requires order { IsInOrder body.now }
    requires instrs { instrs.now ≡ body.now.instrs }
    ensures { OnOk result (AddsNodes nodes.old.items nodes.new.items (FromOne (AtInstr scene.now.system.now scene.now.effects.now body.now) instrs.now)) }
{
    for instr in instrs {
        add_instr(alloc, scene, nodes, body, instr)?;
    }
    Ok(())
}

fn compare(body: &Body, m: MethodId) -> Ordering
    ensures { result ≡ nat_cmp body.now.method.0 m.0 }
{
    body.method.0.cmp(&m.0)
}

/// The number of the body of a method.
pub fn find_body(bodies: &[Body], m: MethodId) -> Option<usize>
    requires { RiseBy nat_cmp (λ (b : Body). b.method.0) bodies.now }
    ensures { MatchOption result ((b : Body) → Contains bodies.now b → b.method ≡ m → ⊥) (λ k. (b : Body) × IsBodyAt bodies.now m k b) }
{
    match bodies.binary_search_by(|body| compare(body, m)) {
        Ok(k) => Some(k),
        Err(_) => None,
    }
}

/// The body of this number.
pub fn body_at(bodies: &[Body], number: usize) -> &Body
    requires { number < length bodies.now }
    ensures { slice_get bodies.now number ≡ Some result.now }
{
    &bodies[number]
}

// Adds the nodes of the body of this number.
fn add_body(
    alloc: Global,
    scene: &Scene<'_>,
    nodes: &mut Vec<Node>,
    m: MethodId,
    number: usize,
) -> Result<(), NoMemory>
    requires scene { IsScene scene.now }
    requires number { (b : Body) × IsBodyAt scene.now.bodies.now m number b }
    ensures { OnOk result (AddsNodes nodes.old.items nodes.new.items (AtBody scene.now m)) }
{
    let body = body_at(scene.bodies, number);
    add_instrs(alloc, scene, nodes, body, body.instrs.items())
}

/// Adds the nodes of the statements of a method.
pub fn add_statements(
    alloc: Global,
    scene: &Scene<'_>,
    nodes: &mut Vec<Node>,
    m: MethodId,
) -> Result<(), NoMemory>
    requires scene { IsScene scene.now }
    ensures { OnOk result (AddsNodes nodes.old.items nodes.new.items (AtBody scene.now m)) }
{
    match find_body(scene.bodies, m) {
        None => Ok(()),
        Some(number) => add_body(alloc, scene, nodes, m, number),
    }
}

fn vars_of(system: &System, m: MethodId) -> &MethodVars
    requires { m.0 < length system.now.methods }
    ensures { IsMethodVars system.now m result.now }
{
    &system.methods.items()[m.0 as usize]
}

/// Adds the nodes before the statements of a method.
pub fn add_entry(scene: &Scene<'_>, nodes: &mut Vec<Node>, m: MethodId) -> Result<(), NoMemory>
    requires scene { IsScene scene.now }
    requires m { m.0 < length scene.now.system.now.methods }
    ensures { OnOk result (AddsNodes nodes.old.items nodes.new.items (AtEntry scene.now.system.now scene.now.effects.now m)) }
{
    let vars = vars_of(scene.system, m);
    let used = list_of(scene.effects.used.items(), m);
    push_formals(nodes, vars.formals.items().len())?;
    push_locations(nodes, Heap::Entry, used)
}

/// .. and after them.
pub fn add_exit(
    scene: &Scene<'_>,
    nodes: &mut Vec<Node>,
    m: MethodId,
    answers: bool,
) -> Result<(), NoMemory>
    requires scene { IsScene scene.now }
    requires m { m.0 < length scene.now.system.now.methods }
    ensures { OnOk result (AddsNodes nodes.old.items nodes.new.items (AtExit scene.now.system.now scene.now.effects.now m answers)) }
{
    let vars = vars_of(scene.system, m);
    let changed = list_of(scene.effects.changed.items(), m);
    let throws = is_something(scene.solution, vars.thrown);
    push_if(nodes, answers, Node::Return)?;
    push_if(nodes, throws, Node::Thrown)?;
    push_locations(nodes, Heap::Exit, changed)
}

/// The nodes of a method that may run.
pub fn method_nodes(
    alloc: Global,
    scene: &Scene<'_>,
    m: MethodId,
    answers: bool,
) -> Result<Vec<Node>, NoMemory>
    requires scene { IsScene scene.now }
    requires m { m.0 < length scene.now.system.now.methods }
    ensures { IfOk result (λ ns. IsOrderedListOf ComesBefore ns.items (AtMethod scene.now m answers)) }
{
    let mut nodes = Vec::new(alloc);
    add_entry(scene, &mut nodes, m)?;
    add_statements(alloc, scene, &mut nodes, m)?;
    add_exit(scene, &mut nodes, m, answers)?;
    Ok(nodes)
}

/// Adds the nodes of a call of the root.
pub fn add_entry_call(
    scene: &Scene<'_>,
    nodes: &mut Vec<Node>,
    k: u16,
    t: MethodId,
    given: bool,
) -> Result<(), NoMemory>
    requires scene { IsScene scene.now }
    requires t { t.0 < length scene.now.system.now.methods }
    ensures { (given ≡ true) ↔ IsGiven scene.now.system.now t → OnOk result (AddsNodes nodes.old.items nodes.new.items (AtEntryCall scene.now.system.now scene.now.effects.now k t)) }
{
    let used = list_of(scene.effects.used.items(), t);
    let changed = list_of(scene.effects.changed.items(), t);
    push_if(nodes, given, Node::Argument(k, 0))?;
    push_locations(nodes, Heap::Before(k), used)?;
    push_locations(nodes, Heap::After(k), changed)
}
