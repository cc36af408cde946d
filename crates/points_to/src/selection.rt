// Calls whose target the class of the receiver selects.
ghost use Rattle.std.specs.Prelude.{◌≡◌, false, Some, OnOk, slice_get};
ghost use Rattle.dep_form.specs.declared.system.System.{System};
ghost use Rattle.points_to.specs.declared.groups.Select.{Select};
ghost use Rattle.points_to.specs.declared.place.Place.TheVariants.{Variable, Receivers};
ghost use Rattle.points_to.specs.Indexes.{IsIndexOf};
ghost use Rattle.points_to.specs.Items.{Adds, Each, IfSome, OneOf};
ghost use Rattle.points_to.specs.Rules.{Chooses, Enters, Selects, VirtualCall, formal_at};
ghost use Rattle.points_to.specs.States.{Moves, IsShape};

use crate::flows::give_some;
use crate::found::Found;
use crate::groups::Select;
use crate::index::{Index, selects};
use crate::look_ups::{formal_at, receiver_at};
use crate::place::Place;
use crate::steps::{give, is_new, list};
use dep_form::rules::{SiteInfo, Var};
use dep_form::system::System;
use slicer_ids::ids::{CallId, ClassId, MethodId, NoMemory};
use std::alloc::Global;

/// A call goes to a method, which is reached.
pub fn enter(alloc: Global, found: &mut Found, c: CallId, t: MethodId) -> Result<(), NoMemory>
    requires { IsShape found.old }
    ensures shape { OnOk result (IsShape found.new) }
    ensures moved { OnOk result ((s : System) → Moves s found.old found.new (Enters c t)) }
{
    give(alloc, found, Place::Targets(c), t.0)?;
    give(alloc, found, Place::Running, t.0)?;
    Ok(())
}

fn receive(
    alloc: Global,
    system: &System,
    found: &mut Found,
    t: MethodId,
    object: u32,
) -> Result<(), NoMemory>
    requires { IsShape found.old }
    ensures shape { OnOk result (IsShape found.new) }
    ensures moved { OnOk result ((s : System) → Moves s found.old found.new (IfSome (λ v. Adds (Variable v) object) (formal_at system.now t 0))) }
{
    let formal = formal_at(system, t, 0);
    give_some(alloc, found, formal, object)
}

fn select(
    alloc: Global,
    system: &System,
    found: &mut Found,
    c: CallId,
    object: u32,
    t: MethodId,
) -> Result<(), NoMemory>
    requires { IsShape found.old }
    ensures shape { OnOk result (IsShape found.new) }
    ensures moved { OnOk result ((s : System) → Moves s found.old found.new (Selects system.now c object t)) }
{
    enter(alloc, found, c, t)?;
    receive(alloc, system, found, t, object)?;
    Ok(())
}

fn select_one(
    alloc: Global,
    system: &System,
    found: &mut Found,
    c: CallId,
    object: u32,
    one: Select,
) -> Result<(), NoMemory>
    requires { IsShape found.old }
    ensures shape { OnOk result (IsShape found.new) }
    ensures moved { OnOk result ((s : System) → Moves s found.old found.new (IfSome (Selects system.now c object) one.target)) }
{
    match one.target {
        None => Ok(()),
        Some(t) => select(alloc, system, found, c, object, t),
    }
}

fn select_each(
    alloc: Global,
    system: &System,
    found: &mut Found,
    c: CallId,
    object: u32,
    chosen: &[Select],
) -> Result<(), NoMemory>
    requires { IsShape found.old }
    ensures shape { OnOk result (IsShape found.new) }
    ensures moved { OnOk result ((s : System) → Moves s found.old found.new (OneOf (λ (x : Select). IfSome (Selects system.now c object) x.target) chosen.now)) }
{
    for one in chosen {
        select_one(alloc, system, found, c, object, *one)?;
    }
    Ok(())
}

fn go_outside(alloc: Global, found: &mut Found, c: CallId, object: u32) -> Result<(), NoMemory>
    requires { IsShape found.old }
    ensures shape { OnOk result (IsShape found.new) }
    ensures moved { OnOk result ((s : System) → Moves s found.old found.new (Adds (Receivers c) object)) }
{
    give(alloc, found, Place::Receivers(c), object)
}

fn choose_class(
    alloc: Global,
    system: &System,
    index: &Index,
    found: &mut Found,
    c: CallId,
    signature: u32,
    object: u32,
    info: SiteInfo,
    class: ClassId,
) -> Result<(), NoMemory>
    requires shape { IsShape found.old }
    requires index { IsIndexOf system.now index.now }
    requires site { slice_get system.now.sites object ≡ Some info }
    requires plain { info.array ≡ false }
    requires class { info.class ≡ Some class }
    ensures shape { OnOk result (IsShape found.new) }
    ensures moved { OnOk result (Moves system.now found.old found.new (Chooses system.now c signature object)) }
{
    let chosen = selects(system, index, class, signature);
    if chosen.len() == 0 {
        go_outside(alloc, found, c, object)
    } else {
        select_each(alloc, system, found, c, object, chosen)
    }
}

fn choose_site(
    alloc: Global,
    system: &System,
    index: &Index,
    found: &mut Found,
    c: CallId,
    signature: u32,
    object: u32,
    info: SiteInfo,
) -> Result<(), NoMemory>
    requires shape { IsShape found.old }
    requires index { IsIndexOf system.now index.now }
    requires site { slice_get system.now.sites object ≡ Some info }
    requires plain { info.array ≡ false }
    ensures shape { OnOk result (IsShape found.new) }
    ensures moved { OnOk result (Moves system.now found.old found.new (Chooses system.now c signature object)) }
{
    match info.class {
        None => go_outside(alloc, found, c, object),
        Some(class) => choose_class(
            alloc, system, index, found, c, signature, object, info, class,
        ),
    }
}

fn choose_info(
    alloc: Global,
    system: &System,
    index: &Index,
    found: &mut Found,
    c: CallId,
    signature: u32,
    object: u32,
    info: SiteInfo,
) -> Result<(), NoMemory>
    requires shape { IsShape found.old }
    requires index { IsIndexOf system.now index.now }
    requires site { slice_get system.now.sites object ≡ Some info }
    ensures shape { OnOk result (IsShape found.new) }
    ensures moved { OnOk result (Moves system.now found.old found.new (Chooses system.now c signature object)) }
{
    if info.array {
        go_outside(alloc, found, c, object)
    } else {
        choose_site(alloc, system, index, found, c, signature, object, info)
    }
}

fn choose(
    alloc: Global,
    system: &System,
    index: &Index,
    found: &mut Found,
    c: CallId,
    signature: u32,
    object: u32,
) -> Result<(), NoMemory>
    requires shape { IsShape found.old }
    requires index { IsIndexOf system.now index.now }
    ensures shape { OnOk result (IsShape found.new) }
    ensures moved { OnOk result (Moves system.now found.old found.new (Chooses system.now c signature object)) }
{
    match system.sites.items().get(object as usize) {
        None => Ok(()),
        Some(info) => choose_info(alloc, system, index, found, c, signature, object, *info),
    }
}

// Where not every rule is tried, sites that the receiver had before are left out.
fn choose_new(
    alloc: Global,
    system: &System,
    index: &Index,
    found: &mut Found,
    c: CallId,
    signature: u32,
    object: u32,
    fresh: bool,
) -> Result<(), NoMemory>
    requires shape { IsShape found.old }
    requires index { IsIndexOf system.now index.now }
    ensures shape { OnOk result (IsShape found.new) }
    ensures moved { OnOk result (Moves system.now found.old found.new (Chooses system.now c signature object)) }
{
    if found.full {
        choose(alloc, system, index, found, c, signature, object)
    } else if fresh {
        choose(alloc, system, index, found, c, signature, object)
    } else {
        Ok(())
    }
}

fn choose_each(
    alloc: Global,
    system: &System,
    index: &Index,
    found: &mut Found,
    c: CallId,
    signature: u32,
    sites: &[u32],
    base: Place,
    force: bool,
) -> Result<(), NoMemory>
    requires shape { IsShape found.old }
    requires index { IsIndexOf system.now index.now }
    ensures shape { OnOk result (IsShape found.new) }
    ensures moved { OnOk result (Moves system.now found.old found.new (OneOf (Chooses system.now c signature) sites.now)) }
{
    for object in sites {
        let fresh = force || is_new(found, base, *object);
        choose_new(alloc, system, index, found, c, signature, *object, fresh)?;
    }
    Ok(())
}

fn choose_all(
    alloc: Global,
    system: &System,
    index: &Index,
    found: &mut Found,
    c: CallId,
    signature: u32,
    v: Var,
    force: bool,
) -> Result<(), NoMemory>
    requires shape { IsShape found.old }
    requires index { IsIndexOf system.now index.now }
    ensures shape { OnOk result (IsShape found.new) }
    ensures moved { OnOk result (Moves system.now found.old found.new (Each (Variable v) (Chooses system.now c signature))) }
{
    let base = Place::Variable(v);
    let sites = list(alloc, found, base)?;
    choose_each(
        alloc,
        system,
        index,
        found,
        c,
        signature,
        sites.as_slice(),
        base,
        force,
    )
}

fn choose_for(
    alloc: Global,
    system: &System,
    index: &Index,
    found: &mut Found,
    c: CallId,
    signature: u32,
    receiver: Option<Var>,
    force: bool,
) -> Result<(), NoMemory>
    requires shape { IsShape found.old }
    requires index { IsIndexOf system.now index.now }
    ensures shape { OnOk result (IsShape found.new) }
    ensures moved { OnOk result (Moves system.now found.old found.new (IfSome (λ v. Each (Variable v) (Chooses system.now c signature)) receiver)) }
{
    match receiver {
        None => Ok(()),
        Some(v) => choose_all(alloc, system, index, found, c, signature, v, force),
    }
}

/// What a call says that goes where the classes of its receiver lead.
pub fn virtual_call(
    alloc: Global,
    system: &System,
    index: &Index,
    found: &mut Found,
    c: CallId,
    signature: u32,
    force: bool,
) -> Result<(), NoMemory>
    requires shape { IsShape found.old }
    requires index { IsIndexOf system.now index.now }
    ensures shape { OnOk result (IsShape found.new) }
    ensures moved { OnOk result (Moves system.now found.old found.new (VirtualCall system.now c signature)) }
{
    let receiver = receiver_at(system, c);
    choose_for(alloc, system, index, found, c, signature, receiver, force)
}
