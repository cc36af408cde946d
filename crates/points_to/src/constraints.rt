// What a constraint says, where it is in force.
ghost use Rattle.std.specs.Prelude.{◌≡◌, false, OnOk, Some, slice_get};
ghost use Rattle.dep_form.specs.declared.system.System.{System};
ghost use Rattle.dep_form.specs.Constraints.{elements_field};
ghost use Rattle.points_to.specs.declared.place.Place.TheVariants.{Cell, Receivers, Running, Static, Variable};
ghost use Rattle.points_to.specs.Indexes.{IsIndexOf, IsMask};
ghost use Rattle.points_to.specs.Items.{Adds, At, Flows, IfSome, Under, Where};
ghost use Rattle.points_to.specs.Rules.{Constrains, Copies, DirectCall, Does, FlowsSome, GoesOutside, formal_at, receiver_at, receiver_of};
ghost use Rattle.points_to.specs.States.{Moves, IsShape};

use crate::fields::{load, store};
use crate::filters::mask_of;
use crate::flows::flow_some;
use crate::found::Found;
use crate::index::{Index, mask};
use crate::look_ups::{elements_field, formal_at, is_root, receiver_at, receiver_of};
use crate::place::Place;
use crate::selection::{enter, virtual_call};
use crate::steps::{flow, give, is_new, is_recent, knows, pass};
use dep_form::call_site::CallSite;
use dep_form::rules::{Constraint, Rule, Var};
use dep_form::system::System;
use slicer_ids::ids::{CallId, ClassId, MethodId, NoMemory, SiteId};
use std::alloc::Global;

fn filter_by(
    alloc: Global,
    system: &System,
    found: &mut Found,
    from: Var,
    to: Var,
    keep: ClassId,
    row: &[u64],
) -> Result<(), NoMemory>
    requires shape { IsShape found.old }
    requires mask { IsMask system.now keep row.now }
    ensures shape { OnOk result (IsShape found.new) }
    ensures moved { OnOk result ((s : System) → Moves s found.old found.new (Copies system.now from to (Some keep))) }
{
    pass(
        alloc,
        found,
        row,
        Place::Variable(from),
        Place::Variable(to),
    )
}

fn filter_now(
    alloc: Global,
    system: &System,
    index: &Index,
    found: &mut Found,
    from: Var,
    to: Var,
    keep: ClassId,
) -> Result<(), NoMemory>
    requires shape { IsShape found.old }
    requires index { IsIndexOf system.now index.now }
    ensures shape { OnOk result (IsShape found.new) }
    ensures moved { OnOk result ((s : System) → Moves s found.old found.new (Copies system.now from to (Some keep))) }
{
    match mask(system, index, keep) {
        Some(row) => filter_by(alloc, system, found, from, to, keep, row),
        None => {
            let row = mask_of(alloc, system, index.below.as_slice(), keep)?;
            filter_by(alloc, system, found, from, to, keep, row.as_slice())
        }
    }
}

// Where not every rule is tried it is left out if the variable did not change lately.
fn filter(
    alloc: Global,
    system: &System,
    index: &Index,
    found: &mut Found,
    from: Var,
    to: Var,
    keep: ClassId,
    fresh: bool,
) -> Result<(), NoMemory>
    requires shape { IsShape found.old }
    requires index { IsIndexOf system.now index.now }
    ensures shape { OnOk result (IsShape found.new) }
    ensures moved { OnOk result ((s : System) → Moves s found.old found.new (Copies system.now from to (Some keep))) }
{
    if found.full {
        filter_now(alloc, system, index, found, from, to, keep)
    } else if fresh {
        filter_now(alloc, system, index, found, from, to, keep)
    } else {
        Ok(())
    }
}

fn copy(
    alloc: Global,
    system: &System,
    index: &Index,
    found: &mut Found,
    from: Var,
    to: Var,
    keep: Option<ClassId>,
    force: bool,
) -> Result<(), NoMemory>
    requires shape { IsShape found.old }
    requires index { IsIndexOf system.now index.now }
    ensures shape { OnOk result (IsShape found.new) }
    ensures moved { OnOk result ((s : System) → Moves s found.old found.new (Copies system.now from to keep)) }
{
    let fresh = force || is_recent(found, Place::Variable(from));
    match keep {
        None => flow(
            alloc,
            found,
            Place::Variable(from),
            Place::Variable(to),
            force,
        ),
        Some(class) => filter(alloc, system, index, found, from, to, class, fresh),
    }
}

fn receive(
    alloc: Global,
    system: &System,
    found: &mut Found,
    c: CallId,
    t: MethodId,
    force: bool,
) -> Result<(), NoMemory>
    requires { IsShape found.old }
    ensures shape { OnOk result (IsShape found.new) }
    ensures moved { OnOk result ((s : System) → Moves s found.old found.new (FlowsSome (receiver_at system.now c) (formal_at system.now t 0))) }
{
    let receiver = receiver_at(system, c);
    let formal = formal_at(system, t, 0);
    flow_some(alloc, found, receiver, formal, force)
}

fn direct_call(
    alloc: Global,
    system: &System,
    found: &mut Found,
    c: CallId,
    t: MethodId,
    force: bool,
) -> Result<(), NoMemory>
    requires { IsShape found.old }
    ensures shape { OnOk result (IsShape found.new) }
    ensures moved { OnOk result ((s : System) → Moves s found.old found.new (DirectCall system.now c t)) }
{
    enter(alloc, found, c, t)?;
    receive(alloc, system, found, c, t, force)?;
    Ok(())
}

fn go_static(alloc: Global, found: &mut Found, c: CallId, call: &CallSite) -> Result<(), NoMemory>
    requires { IsShape found.old }
    ensures shape { OnOk result (IsShape found.new) }
    ensures moved { OnOk result ((s : System) → Moves s found.old found.new (Where (call.now.instance ≡ false) (Adds (Static c) 0))) }
{
    if call.instance {
        Ok(())
    } else {
        give(alloc, found, Place::Static(c), 0)
    }
}

fn go_with(
    alloc: Global,
    found: &mut Found,
    c: CallId,
    receiver: Option<Var>,
    force: bool,
) -> Result<(), NoMemory>
    requires { IsShape found.old }
    ensures shape { OnOk result (IsShape found.new) }
    ensures moved { OnOk result ((s : System) → Moves s found.old found.new (IfSome (λ v. Flows (Variable v) (Receivers c)) receiver)) }
{
    match receiver {
        None => Ok(()),
        Some(v) => flow(alloc, found, Place::Variable(v), Place::Receivers(c), force),
    }
}

fn go_receiver(
    alloc: Global,
    found: &mut Found,
    c: CallId,
    call: &CallSite,
    force: bool,
) -> Result<(), NoMemory>
    requires { IsShape found.old }
    ensures shape { OnOk result (IsShape found.new) }
    ensures moved { OnOk result ((s : System) → Moves s found.old found.new (IfSome (λ v. Flows (Variable v) (Receivers c)) (receiver_of call.now))) }
{
    let receiver = receiver_of(call);
    go_with(alloc, found, c, receiver, force)
}

fn go_outside(
    alloc: Global,
    found: &mut Found,
    c: CallId,
    call: &CallSite,
    force: bool,
) -> Result<(), NoMemory>
    requires { IsShape found.old }
    ensures shape { OnOk result (IsShape found.new) }
    ensures moved { OnOk result ((s : System) → Moves s found.old found.new (GoesOutside c call.now)) }
{
    go_static(alloc, found, c, call)?;
    go_receiver(alloc, found, c, call, force)?;
    Ok(())
}

fn outside_direct(
    alloc: Global,
    system: &System,
    found: &mut Found,
    c: CallId,
    force: bool,
) -> Result<(), NoMemory>
    requires { IsShape found.old }
    ensures shape { OnOk result (IsShape found.new) }
    ensures moved { OnOk result ((s : System) → Moves s found.old found.new (IfSome (GoesOutside c) (slice_get system.now.calls c.0))) }
{
    match system.calls.items().get(c.0 as usize) {
        None => Ok(()),
        Some(call) => go_outside(alloc, found, c, call, force),
    }
}

fn hold(
    alloc: Global,
    system: &System,
    found: &mut Found,
    outer: SiteId,
    inner: SiteId,
) -> Result<(), NoMemory>
    requires { IsShape found.old }
    ensures shape { OnOk result (IsShape found.new) }
    ensures moved { OnOk result ((s : System) → Moves s found.old found.new (Adds (Cell outer (elements_field system.now)) inner.0)) }
{
    let field = elements_field(system);
    give(alloc, found, Place::Cell(outer, field), inner.0)
}

// What a rule says. It is forced where it came into force lately.
fn apply(
    alloc: Global,
    system: &System,
    index: &Index,
    found: &mut Found,
    rule: Rule,
    force: bool,
) -> Result<(), NoMemory>
    requires shape { IsShape found.old }
    requires index { IsIndexOf system.now index.now }
    ensures shape { OnOk result (IsShape found.new) }
    ensures moved { OnOk result (Moves system.now found.old found.new (Does system.now rule)) }
{
    match rule {
        Rule::Enter { target } => give(alloc, found, Place::Running, target.0),
        Rule::Alloc { to, site } => give(alloc, found, Place::Variable(to), site.0),
        Rule::Hold { outer, inner } => hold(alloc, system, found, outer, inner),
        Rule::Copy { from, to, keep } => {
            copy(alloc, system, index, found, from, to, keep, force)
        }
        Rule::Load { base, field, to } => {
            let base = Place::Variable(base);
            load(alloc, found, base, field, Place::Variable(to), force)
        }
        Rule::Store { base, field, from } => {
            let base = Place::Variable(base);
            store(alloc, found, base, field, Place::Variable(from), force)
        }
        Rule::Direct { call, target } => { direct_call(alloc, system, found, call, target, force) }
        Rule::Virtual { call, signature } => {
            virtual_call(alloc, system, index, found, call, signature, force)
        }
        Rule::OutsideDirect { call } => outside_direct(alloc, system, found, call, force),
    }
}

fn apply_reached(
    alloc: Global,
    system: &System,
    index: &Index,
    found: &mut Found,
    constraint: Constraint,
) -> Result<(), NoMemory>
    requires shape { IsShape found.old }
    requires index { IsIndexOf system.now index.now }
    ensures shape { OnOk result (IsShape found.new) }
    ensures moved { OnOk result (Moves system.now found.old found.new (Under (At Running constraint.method.0) (Does system.now constraint.rule))) }
{
    let force = is_new(found, Place::Running, constraint.method.0);
    if knows(found, Place::Running, constraint.method.0) {
        apply(alloc, system, index, found, constraint.rule, force)
    } else {
        Ok(())
    }
}

/// What a constraint says, where its method is reached or the root.
pub fn constrain(
    alloc: Global,
    system: &System,
    index: &Index,
    found: &mut Found,
    constraint: Constraint,
) -> Result<(), NoMemory>
    requires shape { IsShape found.old }
    requires index { IsIndexOf system.now index.now }
    ensures shape { OnOk result (IsShape found.new) }
    ensures moved { OnOk result (Moves system.now found.old found.new (Constrains system.now constraint)) }
{
    if is_root(system, constraint.method) {
        apply(alloc, system, index, found, constraint.rule, false)
    } else {
        apply_reached(alloc, system, index, found, constraint)
    }
}
