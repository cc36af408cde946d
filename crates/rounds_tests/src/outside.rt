// What a call that goes outside answers and writes.

use crate::between::is_receiver;
use crate::facts::{Fact, Known, add_held, add_site};
use crate::numbers::number;
use crate::selection::argument_sites;
use dep_form::call_site::CallSite;
use dep_form::rules::{OutsideRule, SiteInfo};
use dep_form::system::System;
use slicer_ids::ids::{CallId, FieldId, NoMemory, SiteId};

/// The field of an array's elements: the last but two.
pub fn elements_field(system: &System) -> FieldId {
    FieldId(system.fields.saturating_sub(3))
}

// The field of an object's state: the last one.
fn state_field(system: &System) -> FieldId {
    FieldId(system.fields.saturating_sub(1))
}

fn state_of_info(system: &System, info: SiteInfo) -> FieldId {
    if info.array {
        elements_field(system)
    } else {
        state_field(system)
    }
}

// The state of a site: the elements of an array, the state of any other object.
fn state_of(system: &System, site: SiteId) -> Option<FieldId> {
    match system.sites.items().get(site.0 as usize) {
        None => None,
        Some(info) => Some(state_of_info(system, *info)),
    }
}

fn is_array(system: &System, site: SiteId) -> bool {
    match system.sites.items().get(site.0 as usize) {
        None => false,
        Some(info) => info.array,
    }
}

// A call, with its number and its rule.
#[derive(Drop)]
struct Outside<'a> {
    number: CallId,
    call: &'a CallSite,
    rule: &'a OutsideRule,
}

// The receivers with which the call goes outside.
fn outside_receivers(known: &Known, of: CallId) -> Result<Vec<SiteId>, NoMemory> {
    let mut sites = Vec::new(known.alloc);
    for fact in known.facts {
        if let Fact::OutsideAt(call, Some(site)) = *fact {
            if call == of {
                sites.push(site)?;
            }
        }
    }
    Ok(sites)
}

// Whether the call goes outside, with any receiver or with none.
fn goes_outside(known: &Known, of: CallId) -> bool {
    for fact in known.facts {
        if let Fact::OutsideAt(call, _) = *fact {
            if call == of {
                return true;
            }
        }
    }
    false
}

// What an argument may be in a call that goes outside. Of a receiver only what goes outside counts.
fn outside_argument(known: &Known, at: &Outside, k: usize) -> Result<Vec<SiteId>, NoMemory> {
    if is_receiver(at.call, k) {
        outside_receivers(known, at.number)
    } else if goes_outside(known, at.number) {
        argument_sites(known, at.call, k)
    } else {
        Ok(Vec::new(known.alloc))
    }
}

fn add_sites(more: &[SiteId], sites: &mut Vec<SiteId>) -> Result<(), NoMemory> {
    for site in more {
        add_site(sites, *site)?;
    }
    Ok(())
}

// What one of the arguments that the list names may be.
fn one_may_be(known: &Known, at: &Outside, list: &[u8]) -> Result<Vec<SiteId>, NoMemory> {
    let mut sites = Vec::new(known.alloc);
    for k in list {
        let more = outside_argument(known, at, *k as usize)?;
        add_sites(more.as_slice(), &mut sites)?;
    }
    Ok(sites)
}

fn add_state(known: &Known, of: SiteId, sites: &mut Vec<SiteId>) -> Result<(), NoMemory> {
    match state_of(known.system, of) {
        None => Ok(()),
        Some(field) => add_held(known, of, field, sites),
    }
}

// What one of these arguments may be, and what the state of that may hold.
fn given(known: &Known, at: &Outside, list: &[u8]) -> Result<Vec<SiteId>, NoMemory> {
    let arguments = one_may_be(known, at, list)?;
    let mut sites = Vec::new(known.alloc);
    for argument in arguments.as_slice() {
        add_site(&mut sites, *argument)?;
        add_state(known, *argument, &mut sites)?;
    }
    Ok(sites)
}

// A call that answers a reference may answer something fresh,
fn fresh(known: &Known, at: &Outside, found: &mut Vec<Fact>) -> Result<(), NoMemory> {
    let Some(to) = at.call.result else {
        return Ok(());
    };
    let Some(site) = at.call.fresh else {
        return Ok(());
    };
    if goes_outside(known, at.number) {
        found.push(Fact::Has(to, site))?;
    }
    Ok(())
}

// and what the arguments that it reads and their states give.
fn gives(known: &Known, at: &Outside, found: &mut Vec<Fact>) -> Result<(), NoMemory> {
    let Some(to) = at.call.result else {
        return Ok(());
    };
    if at.call.fresh.is_none() {
        return Ok(());
    }
    let sites = given(known, at, at.rule.reads.items())?;
    for site in sites.as_slice() {
        found.push(Fact::Has(to, *site))?;
    }
    Ok(())
}

// What the written arguments and their states give, in this field.
fn write(
    known: &Known,
    at: &Outside,
    object: SiteId,
    field: FieldId,
    found: &mut Vec<Fact>,
) -> Result<(), NoMemory> {
    let sites = given(known, at, at.rule.written.items())?;
    for site in sites.as_slice() {
        found.push(Fact::Cell(object, field, *site))?;
    }
    Ok(())
}

fn write_state(
    known: &Known,
    at: &Outside,
    object: SiteId,
    found: &mut Vec<Fact>,
) -> Result<(), NoMemory> {
    match state_of(known.system, object) {
        None => Ok(()),
        Some(field) => write(known, at, object, field, found),
    }
}

fn writes_states(known: &Known, at: &Outside, found: &mut Vec<Fact>) -> Result<(), NoMemory> {
    let objects = one_may_be(known, at, at.rule.states.items())?;
    for object in objects.as_slice() {
        write_state(known, at, *object, found)?;
    }
    Ok(())
}

fn writes_arrays(known: &Known, at: &Outside, found: &mut Vec<Fact>) -> Result<(), NoMemory> {
    let objects = one_may_be(known, at, at.rule.arrays.items())?;
    for object in objects.as_slice() {
        if is_array(known.system, *object) {
            write(known, at, *object, elements_field(known.system), found)?;
        }
    }
    Ok(())
}

fn by_outside_call(known: &Known, at: &Outside, found: &mut Vec<Fact>) -> Result<(), NoMemory> {
    fresh(known, at, found)?;
    gives(known, at, found)?;
    writes_states(known, at, found)?;
    writes_arrays(known, at, found)
}

fn by_call(known: &Known, k: usize, found: &mut Vec<Fact>) -> Result<(), NoMemory> {
    let Some(call) = known.system.calls.items().get(k) else {
        return Ok(());
    };
    let Some(rule) = known.system.outside_rules.items().get(k) else {
        return Ok(());
    };
    let number = CallId(number(k));
    by_outside_call(known, &Outside { number, call, rule }, found)
}

/// Adds what follows from calls that go outside.
pub fn by_outside_calls(known: &Known, found: &mut Vec<Fact>) -> Result<(), NoMemory> {
    for k in 0..known.system.calls.items().len() {
        by_call(known, k, found)?;
    }
    Ok(())
}
