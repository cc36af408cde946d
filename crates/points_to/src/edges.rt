// What flows along the edges of the call graph: arguments, results and exceptions.
ghost use Rattle.std.specs.Prelude.{◌≡◌, ◌<◌, OnOk, length, slice_get};
ghost use Rattle.dep_form.specs.declared.system.System.{System};
ghost use Rattle.dep_form.specs.Outside.{IsReceiver};
ghost use Rattle.points_to.specs.declared.place.Place.TheVariants.{Targets};
ghost use Rattle.points_to.specs.Items.{Below, Each, IfSome, OneOf, Where};
ghost use Rattle.points_to.specs.Rules.{Binds, FlowsSome, Joins};
ghost use Rattle.points_to.specs.States.{Moves, IsShape};

use crate::flows::flow_some;
use crate::found::Found;
use crate::look_ups::{is_receiver, var_at};
use crate::place::Place;
use crate::steps::{flow, is_new, list};
use dep_form::call_site::CallSite;
use dep_form::rules::MethodVars;
use dep_form::system::System;
use slicer_ids::ids::{CallId, NoMemory};
use std::alloc::Global;

fn pass_argument(
    alloc: Global,
    found: &mut Found,
    call: &CallSite,
    method: &MethodVars,
    index: usize,
    force: bool,
) -> Result<(), NoMemory>
    requires { IsShape found.old }
    ensures shape { OnOk result (IsShape found.new) }
    ensures moved { OnOk result ((s : System) → Moves s found.old found.new (FlowsSome (slice_get call.now.arguments index) (slice_get method.now.formals index))) }
{
    let argument = var_at(call.arguments.items(), index);
    let formal = var_at(method.formals.items(), index);
    flow_some(alloc, found, argument, formal, force)
}

fn bind_one(
    alloc: Global,
    found: &mut Found,
    call: &CallSite,
    method: &MethodVars,
    index: usize,
    force: bool,
) -> Result<(), NoMemory>
    requires { IsShape found.old }
    ensures shape { OnOk result (IsShape found.new) }
    ensures moved { OnOk result ((s : System) → Moves s found.old found.new (Where (IsReceiver call.now.instance index → ⊥) (FlowsSome (slice_get call.now.arguments index) (slice_get method.now.formals index)))) }
{
    if is_receiver(call, index) {
        Ok(())
    } else {
        pass_argument(alloc, found, call, method, index, force)
    }
}

fn bind_each(
    alloc: Global,
    found: &mut Found,
    call: &CallSite,
    method: &MethodVars,
    force: bool,
) -> Result<(), NoMemory>
    requires { IsShape found.old }
    ensures shape { OnOk result (IsShape found.new) }
    ensures moved { OnOk result ((s : System) → Moves s found.old found.new (Below (λ i. Where (IsReceiver call.now.instance i → ⊥) (FlowsSome (slice_get call.now.arguments i) (slice_get method.now.formals i))) (length call.now.arguments))) }
{
    let count = call.arguments.items().len();
    for index in 0..count {
        bind_one(alloc, found, call, method, index, force)?;
    }
    Ok(())
}

fn bind(
    alloc: Global,
    found: &mut Found,
    call: &CallSite,
    method: &MethodVars,
    force: bool,
) -> Result<(), NoMemory>
    requires { IsShape found.old }
    ensures shape { OnOk result (IsShape found.new) }
    ensures moved { OnOk result ((s : System) → Moves s found.old found.new (Binds call.now method.now)) }
{
    bind_each(alloc, found, call, method, force)?;
    flow_some(alloc, found, method.result, call.result, force)?;
    let thrown = Place::Variable(method.thrown);
    let exception = Place::Variable(call.exception);
    flow(alloc, found, thrown, exception, force)?;
    Ok(())
}

fn join_one(
    alloc: Global,
    system: &System,
    found: &mut Found,
    call: &CallSite,
    target: u32,
    force: bool,
) -> Result<(), NoMemory>
    requires { IsShape found.old }
    ensures shape { OnOk result (IsShape found.new) }
    ensures moved { OnOk result ((s : System) → Moves s found.old found.new (Joins system.now call.now target)) }
{
    match system.methods.items().get(target as usize) {
        None => Ok(()),
        Some(method) => bind(alloc, found, call, method, force),
    }
}

fn join_each(
    alloc: Global,
    system: &System,
    found: &mut Found,
    call: &CallSite,
    targets: &[u32],
    c: CallId,
) -> Result<(), NoMemory>
    requires { IsShape found.old }
    ensures shape { OnOk result (IsShape found.new) }
    ensures moved { OnOk result ((s : System) → Moves s found.old found.new (OneOf (Joins system.now call.now) targets.now)) }
{
    for target in targets {
        let force = is_new(found, Place::Targets(c), *target);
        join_one(alloc, system, found, call, *target, force)?;
    }
    Ok(())
}

/// What a call says of its targets.
pub fn join_all(
    alloc: Global,
    system: &System,
    found: &mut Found,
    c: CallId,
    call: &CallSite,
) -> Result<(), NoMemory>
    requires { IsShape found.old }
    ensures shape { OnOk result (IsShape found.new) }
    ensures moved { OnOk result ((s : System) → Moves s found.old found.new (Each (Targets c) (Joins system.now call.now))) }
{
    let targets = list(alloc, found, Place::Targets(c))?;
    join_each(alloc, system, found, call, targets.as_slice(), c)
}
