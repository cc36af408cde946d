// What the rules look up in a system.
ghost use Rattle.std.specs.Prelude.{◌≡◌, ◌↔◌, None, Some, IsTrue, slice_get, option_map, if◌then◌else◌};
ghost use Rattle.dep_form.specs.Constraints.{IsRoot, elements_field, state_field};
ghost use Rattle.dep_form.specs.Outside.{IsReceiver};
ghost use Rattle.points_to.specs.declared.place.Place.{Place};
ghost use Rattle.points_to.specs.declared.place.Place.TheVariants.{Variable};
ghost use Rattle.points_to.specs.Rules.{receiver_of, receiver_at, formal_at, state_of, elements_of, IsArgumentPlace};

use crate::place::Place;
use dep_form::call_site::CallSite;
use dep_form::rules::{MethodVars, SiteInfo, Var};
use dep_form::system::System;
use slicer_ids::ids::{CallId, FieldId, MethodId};

/// The variable of this number among some, if there is one.
pub fn var_at(vars: &[Var], index: usize) -> Option<Var>
    ensures { result ≡ slice_get vars.now index }
{
    if index < vars.len() {
        Some(vars[index])
    } else {
        None
    }
}

/// The variable of a call's receiver.
pub fn receiver_of(call: &CallSite) -> Option<Var>
    ensures { result ≡ receiver_of call.now }
{
    if call.instance {
        var_at(call.arguments.items(), 0)
    } else {
        None
    }
}

pub fn receiver_at(system: &System, c: CallId) -> Option<Var>
    ensures { result ≡ receiver_at system.now c }
{
    let calls = system.calls.items();
    let index = c.0 as usize;
    if index < calls.len() {
        receiver_of(&calls[index])
    } else {
        None
    }
}

fn formal_of(method: &MethodVars, index: usize) -> Option<Var>
    ensures { result ≡ slice_get method.now.formals index }
{
    var_at(method.formals.items(), index)
}

/// A formal of a method.
pub fn formal_at(system: &System, t: MethodId, index: usize) -> Option<Var>
    ensures { result ≡ formal_at system.now t index }
{
    let methods = system.methods.items();
    let number = t.0 as usize;
    if number < methods.len() {
        formal_of(&methods[number], index)
    } else {
        None
    }
}

pub fn is_root(system: &System, m: MethodId) -> bool
    ensures { IsTrue result ↔ IsRoot system.now m }
{
    m.0 as usize == system.methods.items().len()
}

/// Whether an argument is the call's receiver.
pub fn is_receiver(call: &CallSite, index: usize) -> bool
    ensures { IsTrue result ↔ IsReceiver call.now.instance index }
{
    call.instance && index == 0
}

/// The field of the elements of arrays.
pub fn elements_field(system: &System) -> FieldId
    ensures { result ≡ elements_field system.now }
{
    FieldId(system.fields - 3)
}

fn state_field(system: &System) -> FieldId
    ensures { result ≡ state_field system.now }
{
    FieldId(system.fields - 1)
}

fn state_by(system: &System, info: SiteInfo) -> FieldId
    ensures { result ≡ (if info.array then elements_field system.now else state_field system.now) }
{
    if info.array {
        elements_field(system)
    } else {
        state_field(system)
    }
}

/// The field that is the state of a site.
pub fn state_of(system: &System, site: u32) -> Option<FieldId>
    ensures { result ≡ state_of system.now site }
{
    let sites = system.sites.items();
    let index = site as usize;
    if index < sites.len() {
        Some(state_by(system, sites[index]))
    } else {
        None
    }
}

fn elements_by(system: &System, info: SiteInfo) -> Option<FieldId>
    ensures { result ≡ (if info.array then Some (elements_field system.now) else None) }
{
    if info.array {
        Some(elements_field(system))
    } else {
        None
    }
}

/// The field of the elements of an array site.
pub fn elements_of(system: &System, site: u32) -> Option<FieldId>
    ensures { result ≡ elements_of system.now site }
{
    let sites = system.sites.items();
    let index = site as usize;
    if index < sites.len() {
        elements_by(system, sites[index])
    } else {
        None
    }
}

fn variable_of(vars: &[Var], index: usize) -> Option<Place>
    ensures { result ≡ option_map Variable (slice_get vars.now index) }
{
    if index < vars.len() {
        Some(Place::Variable(vars[index]))
    } else {
        None
    }
}

/// What an argument of a call that goes outside may be: of a receiver, what goes outside.
pub fn argument_place(c: CallId, call: &CallSite, index: usize) -> Option<Place>
    ensures { (p : Place) → (result ≡ Some p) ↔ IsArgumentPlace c call.now index p }
{
    if is_receiver(call, index) {
        Some(Place::Receivers(c))
    } else {
        variable_of(call.arguments.items(), index)
    }
}
