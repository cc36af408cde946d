// Rounds of all rules, until one changes nothing.
ghost use Rattle.std.specs.Prelude.{◌≡◌, ◌<◌, ◌^◌, IfOk, OnOk, length, slice_get};
ghost use Rattle.dep_form.specs.declared.system.System.{System};
ghost use Rattle.points_to.specs.Indexes.{IsIndexOf};
ghost use Rattle.points_to.specs.Items.{Below, IfSome, OneOf};
ghost use Rattle.points_to.specs.Rules.{CallDoes, Constrains, Follows, call};
ghost use Rattle.points_to.specs.States.{IsExact, IsShape, IsSound, Moves};

use crate::constraints::constrain;
use crate::edges::join_all;
use crate::found::Found;
use crate::index::Index;
use crate::marks::Marks;
use crate::order::order;
use crate::outside::outside_call;
use crate::places::Places;
use dep_form::call_site::CallSite;
use dep_form::rules::Constraint;
use dep_form::system::System;
use slicer_ids::ids::{CallId, NoMemory};
use std::alloc::Global;

fn constrain_list(
    alloc: Global,
    system: &System,
    index: &Index,
    found: &mut Found,
    constraints: &[Constraint],
) -> Result<(), NoMemory>
    requires shape { IsShape found.old }
    requires index { IsIndexOf system.now index.now }
    ensures shape { OnOk result (IsShape found.new) }
    ensures moved { OnOk result (Moves system.now found.old found.new (OneOf (Constrains system.now) constraints.now)) }
{
    for constraint in constraints {
        constrain(alloc, system, index, found, *constraint)?;
    }
    Ok(())
}

fn constrain_each(
    alloc: Global,
    system: &System,
    index: &Index,
    found: &mut Found,
) -> Result<(), NoMemory>
    requires shape { IsShape found.old }
    requires index { IsIndexOf system.now index.now }
    ensures shape { OnOk result (IsShape found.new) }
    ensures moved { OnOk result (Moves system.now found.old found.new (OneOf (Constrains system.now) system.now.constraints)) }
{
    constrain_list(alloc, system, index, found, system.constraints.items())
}

fn call_rules(
    alloc: Global,
    system: &System,
    found: &mut Found,
    c: CallId,
    call: &CallSite,
) -> Result<(), NoMemory>
    requires { IsShape found.old }
    ensures shape { OnOk result (IsShape found.new) }
    ensures moved { OnOk result (Moves system.now found.old found.new (CallDoes system.now c call.now)) }
{
    join_all(alloc, system, found, c, call)?;
    outside_call(alloc, system, found, c, call)?;
    Ok(())
}

fn call_at(alloc: Global, system: &System, found: &mut Found, number: usize) -> Result<(), NoMemory>
    requires shape { IsShape found.old }
    requires number { number < 2 ^ 32 }
    ensures shape { OnOk result (IsShape found.new) }
    ensures moved { OnOk result (Moves system.now found.old found.new (IfSome (CallDoes system.now (call number)) (slice_get system.now.calls number))) }
{
    match system.calls.items().get(number) {
        None => Ok(()),
        Some(call) => call_rules(alloc, system, found, CallId(number as u32), call),
    }
}

fn call_each(alloc: Global, system: &System, found: &mut Found) -> Result<(), NoMemory>
    requires shape { IsShape found.old }
    requires few { length system.now.calls < 2 ^ 32 }
    ensures shape { OnOk result (IsShape found.new) }
    ensures moved { OnOk result (Moves system.now found.old found.new (Below (λ c. IfSome (CallDoes system.now (call c)) (slice_get system.now.calls c)) (length system.now.calls))) }
{
    let count = system.calls.items().len();
    for number in 0..count {
        call_at(alloc, system, found, number)?;
    }
    Ok(())
}

// Tries each rule once.
fn try_all(alloc: Global, system: &System, index: &Index, found: &mut Found) -> Result<(), NoMemory>
    requires shape { IsShape found.old }
    requires index { IsIndexOf system.now index.now }
    ensures shape { OnOk result (IsShape found.new) }
    ensures moved { OnOk result (Moves system.now found.old found.new (Follows system.now)) }
{
    constrain_each(alloc, system, index, found)?;
    call_each(alloc, system, found)?;
    Ok(())
}

fn constrain_at(
    alloc: Global,
    system: &System,
    index: &Index,
    found: &mut Found,
    number: usize,
) -> Result<(), NoMemory>
    requires shape { IsShape found.old }
    requires index { IsIndexOf system.now index.now }
    ensures shape { OnOk result (IsShape found.new) }
    ensures sound { OnOk result (IsSound system.now found.old → IsSound system.now found.new) }
{
    match system.constraints.items().get(number) {
        None => Ok(()),
        Some(constraint) => constrain(alloc, system, index, found, *constraint),
    }
}

// Tries the constraints with these numbers.
fn constrain_in_order(
    alloc: Global,
    system: &System,
    index: &Index,
    found: &mut Found,
    order: &[usize],
) -> Result<(), NoMemory>
    requires shape { IsShape found.old }
    requires index { IsIndexOf system.now index.now }
    ensures shape { OnOk result (IsShape found.new) }
    ensures sound { OnOk result (IsSound system.now found.old → IsSound system.now found.new) }
{
    for number in order {
        constrain_at(alloc, system, index, found, *number)?;
    }
    Ok(())
}

// Tries the constraints with these numbers, and what calls do.
fn try_in_order(
    alloc: Global,
    system: &System,
    index: &Index,
    found: &mut Found,
    order: &[usize],
) -> Result<(), NoMemory>
    requires shape { IsShape found.old }
    requires index { IsIndexOf system.now index.now }
    ensures shape { OnOk result (IsShape found.new) }
    ensures sound { OnOk result (IsSound system.now found.old → IsSound system.now found.new) }
{
    constrain_in_order(alloc, system, index, found, order)?;
    call_each(alloc, system, found)
}

// Begins a round.
fn begin(alloc: Global, found: &mut Found, full: bool) -> Result<(), NoMemory>
    requires { IsShape found.old }
    ensures shape { OnOk result (IsShape found.new) }
    ensures sound { OnOk result ((s : System) → IsSound s found.old → IsSound s found.new) }
{
    found.marks.turn(found.rows.as_slice(), alloc)?;
    found.changed = false;
    found.full = full;
    Ok(())
}

// Tries the rules where something changed lately, until nothing changes.
fn hurry(
    alloc: Global,
    system: &System,
    index: &Index,
    found: &mut Found,
    order: &[usize],
) -> Result<(), NoMemory>
    requires shape { IsShape found.old }
    requires sound { IsSound system.now found.old }
    requires index { IsIndexOf system.now index.now }
    ensures shape { OnOk result (IsShape found.new) }
    ensures sound { OnOk result (IsSound system.now found.new) }
{
    for _ in 0..u64::MAX {
        begin(alloc, found, false)?;
        try_in_order(alloc, system, index, found, order)?;
        if !found.changed {
            break;
        }
    }
    Ok(())
}

fn empty(alloc: Global) -> Found
    ensures shape { IsShape result }
    ensures sound { (s : System) → IsSound s result }
{
    Found {
        places: Places {
            variables: Vec::new(alloc),
            cells: Vec::new(alloc),
            targets: Vec::new(alloc),
            receivers: Vec::new(alloc),
            statics: Vec::new(alloc),
            written: Vec::new(alloc),
            running: None,
        },
        rows: Vec::new(alloc),
        marks: Marks::new(alloc),
        changed: false,
        full: true,
    }
}

/// All facts that have a derivation, and no others.
pub fn find_all(alloc: Global, system: &System, index: &Index) -> Result<Found, NoMemory>
    requires { IsIndexOf system.now index.now }
    ensures shape { IfOk result (λ found. IsShape found) }
    ensures exact { IfOk result (λ found. IsExact system.now found) }
{
    let order = order(alloc, system)?;
    let mut found = empty(alloc);
    for _ in 0..u64::MAX {
        hurry(alloc, system, index, &mut found, order.as_slice())?;
        begin(alloc, &mut found, true)?;
        try_all(alloc, system, index, &mut found)?;
        if found.full && !found.changed {
            return Ok(found);
        }
    }
    Err(NoMemory)
}
