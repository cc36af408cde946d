// What goes between a call and a method that it may go to.

use crate::facts::{Fact, Known, flow};
use crate::selection::variable_at;
use dep_form::call_site::CallSite;
use dep_form::rules::MethodVars;
use slicer_ids::ids::{CallId, MethodId, NoMemory};

/// Whether an argument of the call is its receiver.
pub fn is_receiver(call: &CallSite, k: usize) -> bool {
    call.instance && k == 0
}

// An argument that isn't the receiver.
fn pass(
    known: &Known,
    call: &CallSite,
    method: &MethodVars,
    k: usize,
    found: &mut Vec<Fact>,
) -> Result<(), NoMemory> {
    let Some(argument) = variable_at(call.arguments.items(), k) else {
        return Ok(());
    };
    let Some(formal) = variable_at(method.formals.items(), k) else {
        return Ok(());
    };
    flow(known, argument, formal, found)
}

fn passes(
    known: &Known,
    call: &CallSite,
    method: &MethodVars,
    found: &mut Vec<Fact>,
) -> Result<(), NoMemory> {
    for k in 0..call.arguments.items().len() {
        if !is_receiver(call, k) {
            pass(known, call, method, k, found)?;
        }
    }
    Ok(())
}

fn answers(
    known: &Known,
    call: &CallSite,
    method: &MethodVars,
    found: &mut Vec<Fact>,
) -> Result<(), NoMemory> {
    let Some(answer) = method.result else {
        return Ok(());
    };
    let Some(to) = call.result else {
        return Ok(());
    };
    flow(known, answer, to, found)
}

fn throws(
    known: &Known,
    call: &CallSite,
    method: &MethodVars,
    found: &mut Vec<Fact>,
) -> Result<(), NoMemory> {
    flow(known, method.thrown, call.exception, found)
}

// Arguments, result and exception of a call that goes to the method.
fn by_target(
    known: &Known,
    call: CallId,
    target: MethodId,
    found: &mut Vec<Fact>,
) -> Result<(), NoMemory> {
    let Some(site) = known.system.calls.items().get(call.0 as usize) else {
        return Ok(());
    };
    let Some(method) = known.system.methods.items().get(target.0 as usize) else {
        return Ok(());
    };
    passes(known, site, method, found)?;
    answers(known, site, method, found)?;
    throws(known, site, method, found)
}

/// Adds what follows from calls and the methods that they may go to.
pub fn by_targets(known: &Known, found: &mut Vec<Fact>) -> Result<(), NoMemory> {
    for fact in known.facts {
        if let Fact::Calls(call, target) = *fact {
            by_target(known, call, target, found)?;
        }
    }
    Ok(())
}
