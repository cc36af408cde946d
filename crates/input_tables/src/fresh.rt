// The arrays that calls answer from outside, made afresh.
ghost use Rattle.std.specs.Prelude.{◌≡◌, ◌<◌, ◌↔◌, true, IsTrue, OnOk, Some, length, slice_get};
ghost use Rattle.worklists.proofs.Growing.{FromBelow};
ghost use Rattle.slicer_ids.specs.declared.ids.SiteId.{SiteId};
ghost use Rattle.slicer_ids.specs.declared.ids.Statement.{Statement};
ghost use Rattle.dep_form.specs.declared.call_site.CallSite.{CallSite};
ghost use Rattle.dep_form.specs.Constraints.{IsCallSite, IsSite};
ghost use Rattle.mod_ref.specs.Gains.{Gains};
ghost use Rattle.input_tables.specs.Effects.{AtArray, AtCallOf, AtFresh, AtInfo, AtPlace, IsAnswered};
ghost use Rattle.input_tables.specs.Scenes.{IsScene};

use crate::effects::{Effect, add_location};
use crate::scene::Scene;
use crate::solved::goes_outside;
use dep_form::effects::Location;
use dep_form::rules::SiteInfo;
use dep_form::system::System;
use method_facts::calls::find_call;
use slicer_ids::ids::{CallId, FieldId, NoMemory, SiteId, Statement};

// The length and the elements of an array.
fn add_array(
    scene: &Scene<'_>,
    site: SiteId,
    at: Statement,
    effects: &mut Vec<Effect>,
) -> Result<(), NoMemory>
    requires { IsScene scene.now }
    ensures { OnOk result (Gains effects.old.items effects.new.items (AtArray scene.now.system.now scene.now.effects.now site at)) }
{
    let length = FieldId(scene.system.fields - 2);
    let elements = FieldId(scene.system.fields - 3);
    add_location(scene, at, Location::Cell(site, length), effects)?;
    add_location(scene, at, Location::Cell(site, elements), effects)
}

fn fresh_of(system: &System, c: CallId) -> Option<SiteId>
    requires { c.0 < length system.now.calls }
    ensures { (k : CallSite) × IsCallSite system.now c k × (k.fresh ≡ result) }
{
    system.calls.items()[c.0 as usize].fresh
}

fn is_fresh(system: &System, c: CallId) -> bool
    requires { c.0 < length system.now.calls }
    ensures { IsTrue result ↔ ((k : CallSite) × (first : SiteId) × IsCallSite system.now c k × (k.fresh ≡ Some first)) }
{
    match fresh_of(system, c) {
        Some(_) => true,
        None => false,
    }
}

// Whether the call goes outside, and answers something fresh.
fn is_answered(scene: &Scene<'_>, c: CallId) -> bool
    requires scene { IsScene scene.now }
    requires call { c.0 < length scene.now.system.now.calls }
    ensures { IsTrue result ↔ IsAnswered scene.now.system.now c }
{
    if is_fresh(scene.system, c) {
        goes_outside(scene.solution, c)
    } else {
        false
    }
}

fn add_call(
    scene: &Scene<'_>,
    c: CallId,
    site: SiteId,
    at: Statement,
    effects: &mut Vec<Effect>,
) -> Result<(), NoMemory>
    requires scene { IsScene scene.now }
    requires call { c.0 < length scene.now.system.now.calls }
    ensures { OnOk result (Gains effects.old.items effects.new.items (AtCallOf scene.now.system.now scene.now.effects.now c site at)) }
{
    if is_answered(scene, c) {
        add_array(scene, site, at, effects)
    } else {
        Ok(())
    }
}

fn add_place(
    scene: &Scene<'_>,
    site: SiteId,
    at: Statement,
    effects: &mut Vec<Effect>,
) -> Result<(), NoMemory>
    requires { IsScene scene.now }
    ensures { OnOk result (Gains effects.old.items effects.new.items (AtPlace scene.now.system.now scene.now.effects.now site at)) }
{
    match find_call(scene.system.calls.items(), at) {
        None => Ok(()),
        Some(c) => add_call(scene, c, site, at, effects),
    }
}

fn array_place(info: SiteInfo) -> Option<Statement>
    ensures { (t : Statement) → (result ≡ Some t) ↔ ((info.array ≡ true) × (info.place ≡ Some t)) }
{
    if info.array { info.place } else { None }
}

fn add_info(
    scene: &Scene<'_>,
    site: SiteId,
    info: SiteInfo,
    effects: &mut Vec<Effect>,
) -> Result<(), NoMemory>
    requires { IsScene scene.now }
    ensures { OnOk result (Gains effects.old.items effects.new.items (AtInfo scene.now.system.now scene.now.effects.now site info)) }
{
    match array_place(info) {
        None => Ok(()),
        Some(at) => add_place(scene, site, at, effects),
    }
}

fn info_of(system: &System, site: SiteId) -> SiteInfo
    requires { site.0 < length system.now.sites }
    ensures { IsSite system.now site result }
{
    system.sites.items()[site.0 as usize]
}

fn add_number(scene: &Scene<'_>, site: SiteId, effects: &mut Vec<Effect>) -> Result<(), NoMemory>
    requires scene { IsScene scene.now }
    requires site { site.0 < length scene.now.system.now.sites }
    ensures { OnOk result (Gains effects.old.items effects.new.items (AtFresh scene.now.system.now scene.now.effects.now site.0)) }
{
    let info = info_of(scene.system, site);
    add_info(scene, site, info, effects)
}

/// Adds the length and the elements of each array that a call answers from outside, made afresh.
pub fn add_fresh(scene: &Scene<'_>, effects: &mut Vec<Effect>) -> Result<(), NoMemory>
    requires { IsScene scene.now }
    ensures { OnOk result (Gains effects.old.items effects.new.items (FromBelow (AtFresh scene.now.system.now scene.now.effects.now) (length scene.now.system.now.sites))) }
{
    for site in 0..scene.system.sites.items().len() {
        add_number(scene, SiteId(site as u32), effects)?;
    }
    Ok(())
}
