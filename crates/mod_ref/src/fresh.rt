// The arrays that calls answer from outside, made afresh.
ghost use Rattle.std.specs.Prelude.{◌≡◌, ◌<◌, ◌^◌, ◌↔◌, Some, IsTrue, IfOk, OnOk, Contains, length, slice_get};
ghost use Rattle.slicer_ids.specs.declared.ids.SiteId.{SiteId};
ghost use Rattle.slicer_ids.specs.declared.ids.Statement.{Statement};
ghost use Rattle.worklists.proofs.Growing.{FromBelow};
ghost use Rattle.dep_form.specs.Constraints.{IsSite};
ghost use Rattle.dep_form.specs.Orders.{RiseBy, statement_cmp};
ghost use Rattle.dep_form.specs.Solutions.{IsSolutionOf};
ghost use Rattle.mod_ref.specs.Gains.{Gains};
ghost use Rattle.mod_ref.specs.Direct.{AtArray, AtFresh, AtIndex, AtInfo, IsFreshAt, IsFreshPlace};

use crate::effects::Effects;
use crate::outside::outside_call;
use dep_form::effects::Location;
use dep_form::rules::SiteInfo;
use dep_form::solution::Solution;
use dep_form::system::System;
use slicer_ids::ids::{CallId, FieldId, MethodId, NoMemory, SiteId, Statement};
use std::alloc::Global;

fn place_if(place: Statement, fresh: Option<SiteId>) -> Option<Statement>
    ensures { (t : Statement) → (result ≡ Some t) ↔ ((place ≡ t) × ((first : SiteId) × (fresh ≡ Some first))) }
{
    match fresh {
        None => None,
        Some(_) => Some(place),
    }
}

// The place of the call of this number, where it is one of a reached method, goes outside and answers something fresh.
fn fresh_place(system: &System, solution: &Solution, number: CallId) -> Option<Statement>
    requires solved { IsSolutionOf system.now solution.now }
    requires number { number.0 < length system.now.calls }
    ensures { (t : Statement) → (result ≡ Some t) ↔ IsFreshAt system.now number t }
{
    match outside_call(system, solution, number) {
        None => None,
        Some(call) => place_if(call.place, call.site.fresh),
    }
}

fn add_place(places: &mut Vec<Statement>, place: Option<Statement>) -> Result<(), NoMemory>
    ensures { OnOk result (Gains places.old.items places.new.items (λ t. place ≡ Some t)) }
{
    match place {
        None => Ok(()),
        Some(t) => match places.push(t) {
            Ok(()) => Ok(()),
            Err(_) => Err(NoMemory),
        },
    }
}

fn in_order(places: Vec<Statement>) -> Vec<Statement>
    ensures order { RiseBy statement_cmp (λ t. t) result.items }
    ensures members { (t : Statement) → Contains result.items t ↔ Contains places.items t }
{
    let mut all = places;
    all.sort_unstable();
    all.dedup();
    all
}

// The places of such calls.
fn fresh_places(
    alloc: Global,
    system: &System,
    solution: &Solution,
) -> Result<Vec<Statement>, NoMemory>
    requires solved { IsSolutionOf system.now solution.now }
    requires few { length system.now.calls < 2 ^ 32 }
    ensures order { IfOk result (λ v. RiseBy statement_cmp (λ t. t) v.items) }
    ensures members { IfOk result (λ v. (t : Statement) → Contains v.items t ↔ IsFreshPlace system.now t) }
{
    let mut places = Vec::new(alloc);
    for number in 0..system.calls.items().len() {
        let place = fresh_place(system, solution, CallId(number as u32));
        add_place(&mut places, place)?;
    }
    Ok(in_order(places))
}

fn is_listed(places: &[Statement], place: Statement) -> bool
    requires { RiseBy statement_cmp (λ t. t) places.now }
    ensures { IsTrue result ↔ Contains places.now place }
{
    match places.binary_search(&place) {
        Ok(_) => true,
        Err(_) => false,
    }
}

// The length and the elements of an array.
fn add_array(
    system: &System,
    site: SiteId,
    method: MethodId,
    effects: &mut Effects,
) -> Result<(), NoMemory>
    ensures { OnOk result (Gains effects.old.items.items effects.new.items.items (AtArray system.now site method)) }
{
    let length = FieldId(system.fields - 2);
    let elements = FieldId(system.fields - 3);
    effects.add(Location::Cell(site, length), method)?;
    effects.add(Location::Cell(site, elements), method)
}

fn add_listed(
    system: &System,
    places: &[Statement],
    site: SiteId,
    info: SiteInfo,
    place: Statement,
    effects: &mut Effects,
) -> Result<(), NoMemory>
    requires order { RiseBy statement_cmp (λ t. t) places.now }
    requires place { info.place ≡ Some place }
    ensures { OnOk result (Gains effects.old.items.items effects.new.items.items (AtInfo system.now places.now site info)) }
{
    if info.array && is_listed(places, place) {
        add_array(system, site, place.method, effects)
    } else {
        Ok(())
    }
}

fn add_info(
    system: &System,
    places: &[Statement],
    site: SiteId,
    info: SiteInfo,
    effects: &mut Effects,
) -> Result<(), NoMemory>
    requires { RiseBy statement_cmp (λ t. t) places.now }
    ensures { OnOk result (Gains effects.old.items.items effects.new.items.items (AtInfo system.now places.now site info)) }
{
    match info.place {
        None => Ok(()),
        Some(place) => add_listed(system, places, site, info, place, effects),
    }
}

fn info_of(system: &System, site: SiteId) -> SiteInfo
    requires { site.0 < length system.now.sites }
    ensures { IsSite system.now site result }
{
    system.sites.items()[site.0 as usize]
}

fn add_index(
    system: &System,
    places: &[Statement],
    site: SiteId,
    effects: &mut Effects,
) -> Result<(), NoMemory>
    requires order { RiseBy statement_cmp (λ t. t) places.now }
    requires site { site.0 < length system.now.sites }
    ensures { OnOk result (Gains effects.old.items.items effects.new.items.items (AtIndex system.now places.now site.0)) }
{
    add_info(system, places, site, info_of(system, site), effects)
}

fn add_sites(system: &System, places: &[Statement], effects: &mut Effects) -> Result<(), NoMemory>
    requires order { RiseBy statement_cmp (λ t. t) places.now }
    requires few { length system.now.sites < 2 ^ 32 }
    ensures { OnOk result (Gains effects.old.items.items effects.new.items.items (FromBelow (AtIndex system.now places.now) (length system.now.sites))) }
{
    for site in 0..system.sites.items().len() {
        add_index(system, places, SiteId(site as u32), effects)?;
    }
    Ok(())
}

/// Adds the length and the elements of each array that a call of a reached method may answer from outside, made afresh.
pub fn add_fresh(
    alloc: Global,
    system: &System,
    solution: &Solution,
    effects: &mut Effects,
) -> Result<(), NoMemory>
    requires solved { IsSolutionOf system.now solution.now }
    requires calls { length system.now.calls < 2 ^ 32 }
    requires sites { length system.now.sites < 2 ^ 32 }
    ensures { OnOk result (Gains effects.old.items.items effects.new.items.items (AtFresh system.now)) }
{
    let places = fresh_places(alloc, system, solution)?;
    add_sites(system, &places, effects)
}
