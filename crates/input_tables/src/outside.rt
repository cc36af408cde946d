// What calls that go outside define and use through their arguments.
ghost use Rattle.std.specs.Prelude.{◌≡◌, ◌<◌, ◌^◌, true, false, Some, All, IfNone, IfSome, OnOk, length, slice_get};
ghost use Rattle.worklists.specs.Growth.{FromOne};
ghost use Rattle.worklists.proofs.Growing.{FromBelow};
ghost use Rattle.dep_form.specs.declared.call_site.CallSite.{CallSite};
ghost use Rattle.dep_form.specs.Constraints.{IsCallSite};
ghost use Rattle.mod_ref.specs.Gains.{Gains};
ghost use Rattle.mod_ref.specs.Direct.{field_in, field_of};
ghost use Rattle.input_tables.specs.Effects.{AtArgument, AtCall, AtNumber, AtReceiver, AtSite, IsNoneOutside, IsOutside};
ghost use Rattle.input_tables.specs.Scenes.{IsScene};
ghost use Rattle.input_tables.specs.declared.outside.Way.TheVariants.{Writes, Copies, Reads};

use crate::effects::{Effect, add_location};
use crate::scene::Scene;
use crate::solved::{goes_outside, receivers_of};
use dep_form::call_site::CallSite;
use dep_form::effects::Location;
use dep_form::rules::{OutsideRule, SiteInfo};
use dep_form::system::System;
use method_facts::solved::sites_of;
use slicer_ids::ids::{CallId, FieldId, NoMemory, SiteId, Statement};

/// What a call does outside: it writes states and elements, what it writes is read from states, or its result is.
#[derive(Clone, Copy)]
pub enum Way {
    Writes,
    Copies,
    Reads,
}

/// A call that goes outside.
#[derive(Clone, Copy)]
pub struct OutsideCall<'a> {
    pub number: CallId,
    pub site: &'a CallSite,
    pub rule: &'a OutsideRule,
    pub place: Statement,
}

fn place_of(system: &System, number: CallId) -> Option<Statement>
    requires { number.0 < length system.now.calls }
    ensures { (k : CallSite) × IsCallSite system.now number k × (k.place ≡ result) }
{
    system.calls.items()[number.0 as usize].place
}

fn with_place<'a>(system: &'a System, number: CallId, place: Statement) -> OutsideCall<'a>
    requires number { number.0 < length system.now.calls }
    ensures number { result.number ≡ number }
    ensures place { result.place ≡ place }
    ensures site { IsCallSite system.now number result.site.now }
    ensures rule { slice_get system.now.outside_rules number.0 ≡ Some result.rule.now }
{
    let index = number.0 as usize;
    OutsideCall {
        number,
        site: &system.calls.items()[index],
        rule: &system.outside_rules.items()[index],
        place,
    }
}

// The call at a place, where it goes outside.
fn placed<'a>(scene: &Scene<'a>, number: CallId, place: Statement) -> Option<OutsideCall<'a>>
    requires scene { IsScene scene.now }
    requires number { number.0 < length scene.now.system.now.calls }
    requires place { (k : CallSite) × IsCallSite scene.now.system.now number k × (k.place ≡ Some place) }
    ensures some { IfSome result (λ call. IsOutside scene.now.system.now number call.site.now call.rule.now call.place × (call.number ≡ number)) }
    ensures none { IfNone result (IsNoneOutside scene.now.system.now number) }
{
    if goes_outside(scene.solution, number) {
        Some(with_place(scene.system, number, place))
    } else {
        None
    }
}

// The call of this number, where it goes outside.
fn outside_call<'a>(scene: &Scene<'a>, number: CallId) -> Option<OutsideCall<'a>>
    requires scene { IsScene scene.now }
    requires number { number.0 < length scene.now.system.now.calls }
    ensures some { IfSome result (λ call. IsOutside scene.now.system.now number call.site.now call.rule.now call.place × (call.number ≡ number)) }
    ensures none { IfNone result (IsNoneOutside scene.now.system.now number) }
{
    match place_of(scene.system, number) {
        None => None,
        Some(place) => placed(scene, number, place),
    }
}

fn field_in(system: &System, info: SiteInfo, elements: bool) -> Option<FieldId>
    ensures { result ≡ field_in system.now elements info }
{
    if info.array {
        Some(FieldId(system.fields - 3))
    } else if elements {
        None
    } else {
        Some(FieldId(system.fields - 1))
    }
}

// The elements of an array site, or the state of any site.
fn field_of(system: &System, site: SiteId, elements: bool) -> Option<FieldId>
    ensures { result ≡ field_of system.now elements site }
{
    let sites = system.sites.items();
    let index = site.0 as usize;
    if index < sites.len() {
        field_in(system, sites[index], elements)
    } else {
        None
    }
}

fn add_site(
    scene: &Scene<'_>,
    site: SiteId,
    elements: bool,
    at: Statement,
    effects: &mut Vec<Effect>,
) -> Result<(), NoMemory>
    requires { IsScene scene.now }
    ensures { OnOk result (Gains effects.old.items effects.new.items (AtSite scene.now.system.now scene.now.effects.now elements at site)) }
{
    match field_of(scene.system, site, elements) {
        None => Ok(()),
        Some(field) => add_location(scene, at, Location::Cell(site, field), effects),
    }
}

fn add_sites(
    scene: &Scene<'_>,
    sites: &[SiteId],
    elements: bool,
    at: Statement,
    effects: &mut Vec<Effect>,
) -> Result<(), NoMemory>
    requires { IsScene scene.now }
    ensures { OnOk result (Gains effects.old.items effects.new.items (FromOne (AtSite scene.now.system.now scene.now.effects.now elements at) sites.now)) }
{
    for site in sites {
        add_site(scene, *site, elements, at, effects)?;
    }
    Ok(())
}

fn add_receiver(
    scene: &Scene<'_>,
    receiver: Option<SiteId>,
    elements: bool,
    at: Statement,
    effects: &mut Vec<Effect>,
) -> Result<(), NoMemory>
    requires { IsScene scene.now }
    ensures { OnOk result (Gains effects.old.items effects.new.items (AtReceiver scene.now.system.now scene.now.effects.now elements at receiver)) }
{
    match receiver {
        None => Ok(()),
        Some(site) => add_site(scene, site, elements, at, effects),
    }
}

fn add_receivers(
    scene: &Scene<'_>,
    receivers: &[Option<SiteId>],
    elements: bool,
    at: Statement,
    effects: &mut Vec<Effect>,
) -> Result<(), NoMemory>
    requires { IsScene scene.now }
    ensures { OnOk result (Gains effects.old.items effects.new.items (FromOne (AtReceiver scene.now.system.now scene.now.effects.now elements at) receivers.now)) }
{
    for receiver in receivers {
        add_receiver(scene, *receiver, elements, at, effects)?;
    }
    Ok(())
}

// Of a receiver only what goes outside counts.
fn add_argument(
    scene: &Scene<'_>,
    call: &OutsideCall<'_>,
    argument: u8,
    elements: bool,
    effects: &mut Vec<Effect>,
) -> Result<(), NoMemory>
    requires scene { IsScene scene.now }
    requires call { IsOutside scene.now.system.now call.now.number call.now.site.now call.now.rule.now call.now.place }
    requires argument { argument < length call.now.site.now.arguments }
    ensures { OnOk result (Gains effects.old.items effects.new.items (AtArgument scene.now.system.now scene.now.effects.now elements call.now.number call.now.site.now call.now.rule.now call.now.place argument)) }
{
    let at = call.place;
    if call.site.instance && argument == 0 {
        let receivers = receivers_of(scene.solution, call.number);
        add_receivers(scene, receivers, elements, at, effects)
    } else {
        let sites = sites_of(
            scene.solution,
            call.site.arguments.items()[argument as usize],
        );
        add_sites(scene, sites, elements, at, effects)
    }
}

fn add_arguments(
    scene: &Scene<'_>,
    call: &OutsideCall<'_>,
    arguments: &[u8],
    elements: bool,
    effects: &mut Vec<Effect>,
) -> Result<(), NoMemory>
    requires scene { IsScene scene.now }
    requires call { IsOutside scene.now.system.now call.now.number call.now.site.now call.now.rule.now call.now.place }
    requires arguments { All (λ i. i < length call.now.site.now.arguments) arguments.now }
    ensures { OnOk result (Gains effects.old.items effects.new.items (FromOne (AtArgument scene.now.system.now scene.now.effects.now elements call.now.number call.now.site.now call.now.rule.now call.now.place) arguments.now)) }
{
    for argument in arguments {
        add_argument(scene, call, *argument, elements, effects)?;
    }
    Ok(())
}

fn add_written(
    scene: &Scene<'_>,
    call: &OutsideCall<'_>,
    effects: &mut Vec<Effect>,
) -> Result<(), NoMemory>
    requires scene { IsScene scene.now }
    requires call { IsOutside scene.now.system.now call.now.number call.now.site.now call.now.rule.now call.now.place }
    ensures { OnOk result (Gains effects.old.items effects.new.items (AtCall scene.now.system.now scene.now.effects.now Writes call.now.number call.now.site.now call.now.rule.now call.now.place)) }
{
    let rule = call.rule;
    add_arguments(scene, call, rule.states.items(), false, effects)?;
    add_arguments(scene, call, rule.arrays.items(), true, effects)
}

fn add_copied(
    scene: &Scene<'_>,
    call: &OutsideCall<'_>,
    effects: &mut Vec<Effect>,
) -> Result<(), NoMemory>
    requires scene { IsScene scene.now }
    requires call { IsOutside scene.now.system.now call.now.number call.now.site.now call.now.rule.now call.now.place }
    ensures { OnOk result (Gains effects.old.items effects.new.items (AtCall scene.now.system.now scene.now.effects.now Copies call.now.number call.now.site.now call.now.rule.now call.now.place)) }
{
    let rule = call.rule;
    add_arguments(scene, call, rule.written.items(), false, effects)
}

fn add_read(
    scene: &Scene<'_>,
    call: &OutsideCall<'_>,
    effects: &mut Vec<Effect>,
) -> Result<(), NoMemory>
    requires scene { IsScene scene.now }
    requires call { IsOutside scene.now.system.now call.now.number call.now.site.now call.now.rule.now call.now.place }
    ensures { OnOk result (Gains effects.old.items effects.new.items (AtCall scene.now.system.now scene.now.effects.now Reads call.now.number call.now.site.now call.now.rule.now call.now.place)) }
{
    let rule = call.rule;
    add_arguments(scene, call, rule.reads.items(), false, effects)
}

fn add_call(
    scene: &Scene<'_>,
    call: &OutsideCall<'_>,
    way: Way,
    effects: &mut Vec<Effect>,
) -> Result<(), NoMemory>
    requires scene { IsScene scene.now }
    requires call { IsOutside scene.now.system.now call.now.number call.now.site.now call.now.rule.now call.now.place }
    ensures { OnOk result (Gains effects.old.items effects.new.items (AtCall scene.now.system.now scene.now.effects.now way call.now.number call.now.site.now call.now.rule.now call.now.place)) }
{
    match way {
        Way::Writes => add_written(scene, call, effects),
        Way::Copies => add_copied(scene, call, effects),
        Way::Reads => add_read(scene, call, effects),
    }
}

fn add_number(
    scene: &Scene<'_>,
    number: CallId,
    way: Way,
    effects: &mut Vec<Effect>,
) -> Result<(), NoMemory>
    requires scene { IsScene scene.now }
    requires number { number.0 < length scene.now.system.now.calls }
    ensures { OnOk result (Gains effects.old.items effects.new.items (AtNumber scene.now.system.now scene.now.effects.now way number.0)) }
{
    match outside_call(scene, number) {
        None => Ok(()),
        Some(call) => add_call(scene, &call, way, effects),
    }
}

/// Adds what calls do outside in one of the ways.
pub fn add_calls(scene: &Scene<'_>, way: Way, effects: &mut Vec<Effect>) -> Result<(), NoMemory>
    requires { IsScene scene.now }
    ensures { OnOk result (Gains effects.old.items effects.new.items (FromBelow (AtNumber scene.now.system.now scene.now.effects.now way) (length scene.now.system.now.calls))) }
{
    for number in 0..scene.system.calls.items().len() {
        add_number(scene, CallId(number as u32), way, effects)?;
    }
    Ok(())
}
