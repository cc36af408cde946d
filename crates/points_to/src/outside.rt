// What follows in a call that goes outside: its result, and what it writes into the states of its arguments.
ghost use Rattle.std.specs.Prelude.{◌≡◌, ◌↔◌, true, Option, Some, IfOk, OnOk, slice_get, if◌then◌else◌};
ghost use Rattle.slicer_ids.specs.declared.ids.SiteId.{SiteId};
ghost use Rattle.dep_form.specs.declared.system.System.{System};
ghost use Rattle.points_to.specs.declared.place.Place.TheVariants.{Variable, Cell, Written};
ghost use Rattle.points_to.specs.Items.{Adds, Each, Flows, IfSome, OneOf, Or, Those};
ghost use Rattle.points_to.specs.Rules.{Answers, Both, BothArguments, Fills, Freshens, IsArgumentPlace, OutsideCall, OutsideDoes, field_by, site, state_of};
ghost use Rattle.points_to.specs.States.{Moves, IsShape, IsGone};

use crate::found::Found;
use crate::look_ups::{argument_place, elements_of, state_of};
use crate::place::Place;
use crate::steps::{flow, give, has_some, is_first, is_new, knows, list};
use dep_form::call_site::CallSite;
use dep_form::rules::{OutsideRule, Var};
use dep_form::system::System;
use slicer_ids::ids::{CallId, FieldId, NoMemory, SiteId};
use std::alloc::Global;

fn state_to(
    alloc: Global,
    system: &System,
    found: &mut Found,
    object: u32,
    to: Place,
    force: bool,
) -> Result<(), NoMemory>
    requires { IsShape found.old }
    ensures shape { OnOk result (IsShape found.new) }
    ensures moved { OnOk result ((s : System) → Moves s found.old found.new (IfSome (λ f. Flows (Cell (site object) f) to) (state_of system.now object))) }
{
    match state_of(system, object) {
        None => Ok(()),
        Some(field) => flow(alloc, found, Place::Cell(SiteId(object), field), to, force),
    }
}

fn states_each(
    alloc: Global,
    system: &System,
    found: &mut Found,
    sites: &[u32],
    to: Place,
    base: Place,
    force: bool,
) -> Result<(), NoMemory>
    requires { IsShape found.old }
    ensures shape { OnOk result (IsShape found.new) }
    ensures moved { OnOk result ((s : System) → Moves s found.old found.new (OneOf (λ b. IfSome (λ f. Flows (Cell (site b) f) to) (state_of system.now b)) sites.now)) }
{
    for object in sites {
        let fresh = force || is_new(found, base, *object);
        state_to(alloc, system, found, *object, to, fresh)?;
    }
    Ok(())
}

fn states_to(
    alloc: Global,
    system: &System,
    found: &mut Found,
    from: Place,
    to: Place,
    force: bool,
) -> Result<(), NoMemory>
    requires { IsShape found.old }
    ensures shape { OnOk result (IsShape found.new) }
    ensures moved { OnOk result ((s : System) → Moves s found.old found.new (Each from (λ b. IfSome (λ f. Flows (Cell (site b) f) to) (state_of system.now b)))) }
{
    let sites = list(alloc, found, from)?;
    states_each(alloc, system, found, sites.as_slice(), to, from, force)
}

// What a place has, and what the states of its sites hold.
fn both(
    alloc: Global,
    system: &System,
    found: &mut Found,
    from: Place,
    to: Place,
    force: bool,
) -> Result<(), NoMemory>
    requires { IsShape found.old }
    ensures shape { OnOk result (IsShape found.new) }
    ensures moved { OnOk result ((s : System) → Moves s found.old found.new (Both system.now to from)) }
{
    flow(alloc, found, from, to, force)?;
    states_to(alloc, system, found, from, to, force)?;
    Ok(())
}

fn both_argument(
    alloc: Global,
    system: &System,
    found: &mut Found,
    c: CallId,
    call: &CallSite,
    argument: u8,
    to: Place,
    force: bool,
) -> Result<(), NoMemory>
    requires { IsShape found.old }
    ensures shape { OnOk result (IsShape found.new) }
    ensures moved { OnOk result ((s : System) → Moves s found.old found.new (Those (IsArgumentPlace c call.now argument) (Both system.now to))) }
{
    match argument_place(c, call, argument as usize) {
        None => Ok(()),
        Some(from) => both(alloc, system, found, from, to, force),
    }
}

fn both_each(
    alloc: Global,
    system: &System,
    found: &mut Found,
    c: CallId,
    call: &CallSite,
    arguments: &[u8],
    to: Place,
    force: bool,
) -> Result<(), NoMemory>
    requires { IsShape found.old }
    ensures shape { OnOk result (IsShape found.new) }
    ensures moved { OnOk result ((s : System) → Moves s found.old found.new (BothArguments system.now c call.now to arguments.now)) }
{
    for argument in arguments {
        both_argument(alloc, system, found, c, call, *argument, to, force)?;
    }
    Ok(())
}

fn read_into(
    alloc: Global,
    system: &System,
    found: &mut Found,
    c: CallId,
    call: &CallSite,
    rule: &OutsideRule,
    v: Var,
    force: bool,
) -> Result<(), NoMemory>
    requires { IsShape found.old }
    ensures shape { OnOk result (IsShape found.new) }
    ensures moved { OnOk result ((s : System) → Moves s found.old found.new (BothArguments system.now c call.now (Variable v) rule.now.reads)) }
{
    let reads = rule.reads.items();
    both_each(
        alloc,
        system,
        found,
        c,
        call,
        reads,
        Place::Variable(v),
        force,
    )
}

fn answer_to(
    alloc: Global,
    system: &System,
    found: &mut Found,
    c: CallId,
    call: &CallSite,
    rule: &OutsideRule,
    v: Var,
    force: bool,
) -> Result<(), NoMemory>
    requires { IsShape found.old }
    ensures shape { OnOk result (IsShape found.new) }
    ensures moved { OnOk result ((s : System) → Moves s found.old found.new (IfSome (λ h. BothArguments system.now c call.now (Variable v) rule.now.reads) call.now.fresh)) }
{
    match call.fresh {
        None => Ok(()),
        Some(_) => read_into(alloc, system, found, c, call, rule, v, force),
    }
}

fn answer(
    alloc: Global,
    system: &System,
    found: &mut Found,
    c: CallId,
    call: &CallSite,
    rule: &OutsideRule,
    force: bool,
) -> Result<(), NoMemory>
    requires { IsShape found.old }
    ensures shape { OnOk result (IsShape found.new) }
    ensures moved { OnOk result ((s : System) → Moves s found.old found.new (Answers system.now c call.now rule.now)) }
{
    match call.result {
        None => Ok(()),
        Some(v) => answer_to(alloc, system, found, c, call, rule, v, force),
    }
}

fn write(
    alloc: Global,
    system: &System,
    found: &mut Found,
    c: CallId,
    call: &CallSite,
    rule: &OutsideRule,
    force: bool,
) -> Result<(), NoMemory>
    requires { IsShape found.old }
    ensures shape { OnOk result (IsShape found.new) }
    ensures moved { OnOk result ((s : System) → Moves s found.old found.new (BothArguments system.now c call.now (Written c) rule.now.written)) }
{
    let written = rule.written.items();
    both_each(
        alloc,
        system,
        found,
        c,
        call,
        written,
        Place::Written(c),
        force,
    )
}

// The elements of an array site, or the state of any site.
fn field_of(system: &System, elements: bool, object: u32) -> Option<FieldId>
    ensures { result ≡ field_by system.now elements object }
{
    if elements {
        elements_of(system, object)
    } else {
        state_of(system, object)
    }
}

fn fill_site(
    alloc: Global,
    system: &System,
    found: &mut Found,
    c: CallId,
    object: u32,
    elements: bool,
    force: bool,
) -> Result<(), NoMemory>
    requires { IsShape found.old }
    ensures shape { OnOk result (IsShape found.new) }
    ensures moved { OnOk result ((s : System) → Moves s found.old found.new (IfSome (λ f. Flows (Written c) (Cell (site object) f)) (field_by system.now elements object))) }
{
    match field_of(system, elements, object) {
        None => Ok(()),
        Some(field) => {
            let to = Place::Cell(SiteId(object), field);
            flow(alloc, found, Place::Written(c), to, force)
        }
    }
}

fn fill_each(
    alloc: Global,
    system: &System,
    found: &mut Found,
    c: CallId,
    sites: &[u32],
    elements: bool,
    base: Place,
    force: bool,
) -> Result<(), NoMemory>
    requires { IsShape found.old }
    ensures shape { OnOk result (IsShape found.new) }
    ensures moved { OnOk result ((s : System) → Moves s found.old found.new (OneOf (λ b. IfSome (λ f. Flows (Written c) (Cell (site b) f)) (field_by system.now elements b)) sites.now)) }
{
    for object in sites {
        let fresh = force || is_new(found, base, *object);
        fill_site(alloc, system, found, c, *object, elements, fresh)?;
    }
    Ok(())
}

fn fill_place(
    alloc: Global,
    system: &System,
    found: &mut Found,
    c: CallId,
    place: Place,
    elements: bool,
    force: bool,
) -> Result<(), NoMemory>
    requires { IsShape found.old }
    ensures shape { OnOk result (IsShape found.new) }
    ensures moved { OnOk result ((s : System) → Moves s found.old found.new (Each place (λ b. IfSome (λ f. Flows (Written c) (Cell (site b) f)) (field_by system.now elements b)))) }
{
    let sites = list(alloc, found, place)?;
    fill_each(
        alloc,
        system,
        found,
        c,
        sites.as_slice(),
        elements,
        place,
        force,
    )
}

fn fill_argument(
    alloc: Global,
    system: &System,
    found: &mut Found,
    c: CallId,
    call: &CallSite,
    argument: u8,
    elements: bool,
    force: bool,
) -> Result<(), NoMemory>
    requires { IsShape found.old }
    ensures shape { OnOk result (IsShape found.new) }
    ensures moved { OnOk result ((s : System) → Moves s found.old found.new (Those (IsArgumentPlace c call.now argument) (λ p. Each p (λ b. IfSome (λ f. Flows (Written c) (Cell (site b) f)) (field_by system.now elements b))))) }
{
    match argument_place(c, call, argument as usize) {
        None => Ok(()),
        Some(place) => fill_place(alloc, system, found, c, place, elements, force),
    }
}

// What was written flows into the fields of some arguments.
fn fill(
    alloc: Global,
    system: &System,
    found: &mut Found,
    c: CallId,
    call: &CallSite,
    arguments: &[u8],
    elements: bool,
    force: bool,
) -> Result<(), NoMemory>
    requires { IsShape found.old }
    ensures shape { OnOk result (IsShape found.new) }
    ensures moved { OnOk result ((s : System) → Moves s found.old found.new (Fills c call.now (field_by system.now elements) arguments.now)) }
{
    for argument in arguments {
        fill_argument(alloc, system, found, c, call, *argument, elements, force)?;
    }
    Ok(())
}

fn fill_states(
    alloc: Global,
    system: &System,
    found: &mut Found,
    c: CallId,
    call: &CallSite,
    rule: &OutsideRule,
    elements: bool,
    force: bool,
) -> Result<(), NoMemory>
    requires { IsShape found.old }
    ensures shape { OnOk result (IsShape found.new) }
    ensures moved { OnOk result ((s : System) → Moves s found.old found.new (Fills c call.now (field_by system.now elements) (if elements then rule.now.arrays else rule.now.states))) }
{
    if elements {
        fill(
            alloc,
            system,
            found,
            c,
            call,
            rule.arrays.items(),
            elements,
            force,
        )
    } else {
        fill(
            alloc,
            system,
            found,
            c,
            call,
            rule.states.items(),
            elements,
            force,
        )
    }
}

fn outside_does(
    alloc: Global,
    system: &System,
    found: &mut Found,
    c: CallId,
    call: &CallSite,
    rule: &OutsideRule,
    force: bool,
) -> Result<(), NoMemory>
    requires { IsShape found.old }
    ensures shape { OnOk result (IsShape found.new) }
    ensures moved { OnOk result ((s : System) → Moves s found.old found.new (OutsideDoes system.now c call.now rule.now)) }
{
    answer(alloc, system, found, c, call, rule, force)?;
    write(alloc, system, found, c, call, rule, force)?;
    fill_states(alloc, system, found, c, call, rule, false, force)?;
    fill_states(alloc, system, found, c, call, rule, true, force)?;
    Ok(())
}

fn by_rule(
    alloc: Global,
    system: &System,
    found: &mut Found,
    c: CallId,
    call: &CallSite,
    force: bool,
) -> Result<(), NoMemory>
    requires { IsShape found.old }
    ensures shape { OnOk result (IsShape found.new) }
    ensures moved { OnOk result ((s : System) → Moves s found.old found.new (IfSome (OutsideDoes system.now c call.now) (slice_get system.now.outside_rules c.0))) }
{
    match system.outside_rules.items().get(c.0 as usize) {
        None => Ok(()),
        Some(rule) => outside_does(alloc, system, found, c, call, rule, force),
    }
}

fn freshen_to(
    alloc: Global,
    found: &mut Found,
    v: Var,
    fresh: Option<SiteId>,
) -> Result<(), NoMemory>
    requires { IsShape found.old }
    ensures shape { OnOk result (IsShape found.new) }
    ensures moved { OnOk result ((s : System) → Moves s found.old found.new (IfSome (λ (h : SiteId). Adds (Variable v) h.0) fresh)) }
{
    match fresh {
        None => Ok(()),
        Some(h) => give(alloc, found, Place::Variable(v), h.0),
    }
}

fn freshen(alloc: Global, found: &mut Found, call: &CallSite) -> Result<(), NoMemory>
    requires { IsShape found.old }
    ensures shape { OnOk result (IsShape found.new) }
    ensures moved { OnOk result ((s : System) → Moves s found.old found.new (Freshens call.now)) }
{
    match call.result {
        None => Ok(()),
        Some(v) => freshen_to(alloc, found, v, call.fresh),
    }
}

fn go_outside(
    alloc: Global,
    system: &System,
    found: &mut Found,
    c: CallId,
    call: &CallSite,
    force: bool,
) -> Result<(), NoMemory>
    requires { IsShape found.old }
    ensures shape { OnOk result (IsShape found.new) }
    ensures moved { OnOk result ((s : System) → Moves s found.old found.new (Or (Freshens call.now) (IfSome (OutsideDoes system.now c call.now) (slice_get system.now.outside_rules c.0)))) }
{
    freshen(alloc, found, call)?;
    by_rule(alloc, system, found, c, call, force)?;
    Ok(())
}

// Whether a call goes outside, as far as is known.
fn is_gone(alloc: Global, found: &Found, c: CallId) -> Result<bool, NoMemory>
    requires { IsShape found.now }
    ensures { IfOk result (λ b. (b ≡ true) ↔ IsGone found.now c) }
{
    if knows(found, Place::Static(c), 0) {
        Ok(true)
    } else {
        has_some(alloc, found, Place::Receivers(c))
    }
}

fn go_if(
    alloc: Global,
    system: &System,
    found: &mut Found,
    c: CallId,
    call: &CallSite,
    gone: bool,
) -> Result<(), NoMemory>
    requires shape { IsShape found.old }
    requires gone { (gone ≡ true) ↔ IsGone found.old c }
    ensures shape { OnOk result (IsShape found.new) }
    ensures moved { OnOk result ((s : System) → Moves s found.old found.new (OutsideCall system.now c call.now)) }
{
    let force = is_first(found, Place::Static(c)) || is_first(found, Place::Receivers(c));
    if gone {
        go_outside(alloc, system, found, c, call, force)
    } else {
        Ok(())
    }
}

/// What a call says of what is outside.
pub fn outside_call(
    alloc: Global,
    system: &System,
    found: &mut Found,
    c: CallId,
    call: &CallSite,
) -> Result<(), NoMemory>
    requires { IsShape found.old }
    ensures shape { OnOk result (IsShape found.new) }
    ensures moved { OnOk result ((s : System) → Moves s found.old found.new (OutsideCall system.now c call.now)) }
{
    let gone = is_gone(alloc, found, c)?;
    go_if(alloc, system, found, c, call, gone)
}
