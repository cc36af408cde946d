// Where a call may go, and what its receiver becomes there.

use crate::facts::{Fact, Known, sites_of};
use dep_form::call_site::CallSite;
use dep_form::rules::{SiteInfo, Var};
use dep_form::system::System;
use slicer_ids::ids::{CallId, ClassId, MethodId, NoMemory, SiteId};

/// The variable of this number in the list.
pub fn variable_at(variables: &[Var], k: usize) -> Option<Var> {
    match variables.get(k) {
        None => None,
        Some(variable) => Some(*variable),
    }
}

/// What an argument of the call may be.
pub fn argument_sites(known: &Known, call: &CallSite, k: usize) -> Result<Vec<SiteId>, NoMemory> {
    match variable_at(call.arguments.items(), k) {
        None => Ok(Vec::new(known.alloc)),
        Some(argument) => sites_of(known, argument),
    }
}

fn receivers_of(known: &Known, call: &CallSite) -> Result<Vec<SiteId>, NoMemory> {
    if call.instance {
        argument_sites(known, call, 0)
    } else {
        Ok(Vec::new(known.alloc))
    }
}

// What the receiver of the call may be. A call without one has none.
fn receivers(known: &Known, call: CallId) -> Result<Vec<SiteId>, NoMemory> {
    match known.system.calls.items().get(call.0 as usize) {
        None => Ok(Vec::new(known.alloc)),
        Some(site) => receivers_of(known, site),
    }
}

// The variable of a method that its receiver is.
fn receiver_of(system: &System, method: MethodId) -> Option<Var> {
    match system.methods.items().get(method.0 as usize) {
        None => None,
        Some(method) => variable_at(method.formals.items(), 0),
    }
}

fn receive(
    known: &Known,
    target: MethodId,
    receiver: SiteId,
    found: &mut Vec<Fact>,
) -> Result<(), NoMemory> {
    if let Some(formal) = receiver_of(known.system, target) {
        found.push(Fact::Has(formal, receiver))?;
    }
    Ok(())
}

/// A call that names its target: it goes there, the target is reached, and has the receiver.
pub fn direct_call(
    known: &Known,
    call: CallId,
    target: MethodId,
    found: &mut Vec<Fact>,
) -> Result<(), NoMemory> {
    found.push(Fact::Calls(call, target))?;
    found.push(Fact::Reached(target))?;
    let sites = receivers(known, call)?;
    for site in sites.as_slice() {
        receive(known, target, *site, found)?;
    }
    Ok(())
}

fn enter(
    known: &Known,
    call: CallId,
    target: MethodId,
    receiver: SiteId,
    found: &mut Vec<Fact>,
) -> Result<(), NoMemory> {
    found.push(Fact::Calls(call, target))?;
    found.push(Fact::Reached(target))?;
    receive(known, target, receiver, found)
}

fn is_of_class(system: &System, site: SiteId, class: ClassId) -> bool {
    match system.sites.items().get(site.0 as usize) {
        None => false,
        Some(info) => !info.array && info.class == Some(class),
    }
}

// The methods of the folder that the class of the receiver selects.
fn select(
    known: &Known,
    call: CallId,
    signature: u32,
    receiver: SiteId,
    found: &mut Vec<Fact>,
) -> Result<(), NoMemory> {
    for row in known.system.selects.items() {
        if row.0 == signature && is_of_class(known.system, receiver, row.1) {
            if let Some(target) = row.2 {
                enter(known, call, target, receiver, found)?;
            }
        }
    }
    Ok(())
}

fn is_listed(system: &System, signature: u32, class: ClassId) -> bool {
    for row in system.selects.items() {
        if row.0 == signature && row.1 == class {
            return true;
        }
    }
    false
}

fn class_selects_outside(system: &System, signature: u32, class: Option<ClassId>) -> bool {
    match class {
        None => true,
        Some(class) => !is_listed(system, signature, class),
    }
}

fn info_selects_outside(system: &System, signature: u32, info: SiteInfo) -> bool {
    info.array || class_selects_outside(system, signature, info.class)
}

// An array, an object of a class outside, and one of a class that isn't listed for the signature.
fn selects_outside(system: &System, signature: u32, site: SiteId) -> bool {
    match system.sites.items().get(site.0 as usize) {
        None => false,
        Some(info) => info_selects_outside(system, signature, *info),
    }
}

fn select_outside(
    known: &Known,
    call: CallId,
    signature: u32,
    receiver: SiteId,
    found: &mut Vec<Fact>,
) -> Result<(), NoMemory> {
    if selects_outside(known.system, signature, receiver) {
        found.push(Fact::OutsideAt(call, Some(receiver)))?;
    }
    Ok(())
}

/// A call whose target the class of the receiver selects.
pub fn virtual_call(
    known: &Known,
    call: CallId,
    signature: u32,
    found: &mut Vec<Fact>,
) -> Result<(), NoMemory> {
    let sites = receivers(known, call)?;
    for site in sites.as_slice() {
        select(known, call, signature, *site, found)?;
        select_outside(known, call, signature, *site, found)?;
    }
    Ok(())
}

// With each object that the receiver may be.
fn outside_special(known: &Known, call: CallId, found: &mut Vec<Fact>) -> Result<(), NoMemory> {
    let sites = receivers(known, call)?;
    for site in sites.as_slice() {
        found.push(Fact::OutsideAt(call, Some(*site)))?;
    }
    Ok(())
}

fn is_static(system: &System, call: CallId) -> bool {
    match system.calls.items().get(call.0 as usize) {
        None => false,
        Some(site) => !site.instance,
    }
}

/// A call whose target isn't in the folder.
pub fn outside_call(known: &Known, call: CallId, found: &mut Vec<Fact>) -> Result<(), NoMemory> {
    if is_static(known.system, call) {
        found.push(Fact::OutsideAt(call, None))?;
    }
    outside_special(known, call, found)
}
