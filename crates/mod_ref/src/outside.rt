// What calls that go outside define and use through their arguments.
ghost use Rattle.std.specs.Prelude.{◌≡◌, ◌<◌, ◌^◌, true, false, Some, All, IfNone, IfSome, OnOk, length, slice_get};
ghost use Rattle.worklists.specs.Growth.{FromOne};
ghost use Rattle.dep_form.specs.declared.call_site.CallSite.{CallSite};
ghost use Rattle.dep_form.specs.Constraints.{IsCallSite};
ghost use Rattle.dep_form.specs.Solutions.{IsSolutionOf};
ghost use Rattle.mod_ref.specs.Gains.{Gains};
ghost use Rattle.mod_ref.specs.Direct.{AtArgument, AtCall, AtCalls, AtNumber, AtReceiver, AtSite, IsNoOutsideCall, IsOutsideCall};

use crate::effects::Effects;
use crate::fields::field_of;
use crate::solved::{goes_outside, is_reached, receivers_of, sites_of};
use dep_form::call_site::CallSite;
use dep_form::effects::Location;
use dep_form::rules::OutsideRule;
use dep_form::solution::Solution;
use dep_form::system::System;
use slicer_ids::ids::{CallId, MethodId, NoMemory, SiteId, Statement};

/// A call of a reached method that goes outside.
#[derive(Clone, Copy)]
pub struct OutsideCall<'a> {
    pub number: CallId,
    pub site: &'a CallSite,
    pub rule: &'a OutsideRule,
    pub place: Statement,
}

/// The place of a call; a call by the root has none.
pub fn place_of(system: &System, number: CallId) -> Option<Statement>
    requires { number.0 < length system.now.calls }
    ensures { (k : CallSite) × IsCallSite system.now number k × (k.place ≡ result) }
{
    system.calls.items()[number.0 as usize].place
}

fn with_place<'a>(system: &'a System, number: CallId, place: Statement) -> OutsideCall<'a>
    requires number { number.0 < length system.now.calls }
    ensures number { result.number ≡ number }
    ensures place { result.place ≡ place }
    ensures site { IsCallSite system.now number result.site.now }
    ensures rule { slice_get system.now.outside_rules number.0 ≡ Some result.rule.now }
{
    let index = number.0 as usize;
    OutsideCall {
        number,
        site: &system.calls.items()[index],
        rule: &system.outside_rules.items()[index],
        place,
    }
}

// The call at a place as one that goes outside, where its method is reached.
fn placed<'a>(
    system: &'a System,
    solution: &Solution,
    number: CallId,
    place: Statement,
) -> Option<OutsideCall<'a>>
    requires solved { IsSolutionOf system.now solution.now }
    requires number { number.0 < length system.now.calls }
    requires place { (k : CallSite) × IsCallSite system.now number k × (k.place ≡ Some place) }
    ensures some { IfSome result (λ call. IsOutsideCall system.now call × (call.number ≡ number)) }
    ensures none { IfNone result (IsNoOutsideCall system.now number) }
{
    if is_reached(solution, place.method) && goes_outside(solution, number) {
        Some(with_place(system, number, place))
    } else {
        None
    }
}

/// The call of this number, where it is one of a reached method and goes outside.
pub fn outside_call<'a>(
    system: &'a System,
    solution: &Solution,
    number: CallId,
) -> Option<OutsideCall<'a>>
    requires solved { IsSolutionOf system.now solution.now }
    requires number { number.0 < length system.now.calls }
    ensures some { IfSome result (λ call. IsOutsideCall system.now call × (call.number ≡ number)) }
    ensures none { IfNone result (IsNoOutsideCall system.now number) }
{
    match place_of(system, number) {
        None => None,
        Some(place) => placed(system, solution, number, place),
    }
}

fn add_site(
    system: &System,
    site: SiteId,
    elements: bool,
    method: MethodId,
    effects: &mut Effects,
) -> Result<(), NoMemory>
    ensures { OnOk result (Gains effects.old.items.items effects.new.items.items (AtSite system.now elements method site)) }
{
    match field_of(system, site, elements) {
        None => Ok(()),
        Some(field) => effects.add(Location::Cell(site, field), method),
    }
}

fn add_sites(
    system: &System,
    sites: &[SiteId],
    elements: bool,
    method: MethodId,
    effects: &mut Effects,
) -> Result<(), NoMemory>
    ensures { OnOk result (Gains effects.old.items.items effects.new.items.items (FromOne (AtSite system.now elements method) sites.now)) }
{
    for site in sites {
        add_site(system, *site, elements, method, effects)?;
    }
    Ok(())
}

fn add_receiver(
    system: &System,
    receiver: Option<SiteId>,
    elements: bool,
    method: MethodId,
    effects: &mut Effects,
) -> Result<(), NoMemory>
    ensures { OnOk result (Gains effects.old.items.items effects.new.items.items (AtReceiver system.now elements method receiver)) }
{
    match receiver {
        None => Ok(()),
        Some(site) => add_site(system, site, elements, method, effects),
    }
}

fn add_receivers(
    system: &System,
    receivers: &[Option<SiteId>],
    elements: bool,
    method: MethodId,
    effects: &mut Effects,
) -> Result<(), NoMemory>
    ensures { OnOk result (Gains effects.old.items.items effects.new.items.items (FromOne (AtReceiver system.now elements method) receivers.now)) }
{
    for receiver in receivers {
        add_receiver(system, *receiver, elements, method, effects)?;
    }
    Ok(())
}

// Of a receiver only what goes outside counts.
fn add_argument(
    system: &System,
    solution: &Solution,
    call: &OutsideCall<'_>,
    argument: u8,
    elements: bool,
    effects: &mut Effects,
) -> Result<(), NoMemory>
    requires solved { IsSolutionOf system.now solution.now }
    requires call { IsOutsideCall system.now call.now }
    requires argument { argument < length call.now.site.now.arguments }
    ensures { OnOk result (Gains effects.old.items.items effects.new.items.items (AtArgument system.now elements call.now argument)) }
{
    let method = call.place.method;
    if call.site.instance && argument == 0 {
        let receivers = receivers_of(solution, call.number);
        add_receivers(system, receivers, elements, method, effects)
    } else {
        let sites = sites_of(solution, call.site.arguments.items()[argument as usize]);
        add_sites(system, sites, elements, method, effects)
    }
}

fn add_arguments(
    system: &System,
    solution: &Solution,
    call: &OutsideCall<'_>,
    arguments: &[u8],
    elements: bool,
    effects: &mut Effects,
) -> Result<(), NoMemory>
    requires solved { IsSolutionOf system.now solution.now }
    requires call { IsOutsideCall system.now call.now }
    requires arguments { All (λ i. i < length call.now.site.now.arguments) arguments.now }
    ensures { OnOk result (Gains effects.old.items.items effects.new.items.items (FromOne (AtArgument system.now elements call.now) arguments.now)) }
{
    for argument in arguments {
        add_argument(system, solution, call, *argument, elements, effects)?;
    }
    Ok(())
}

fn add_written(
    system: &System,
    solution: &Solution,
    call: &OutsideCall<'_>,
    effects: &mut Effects,
) -> Result<(), NoMemory>
    requires solved { IsSolutionOf system.now solution.now }
    requires call { IsOutsideCall system.now call.now }
    ensures { OnOk result (Gains effects.old.items.items effects.new.items.items (AtCall system.now true call.now)) }
{
    let rule = call.rule;
    add_arguments(system, solution, call, rule.states.items(), false, effects)?;
    add_arguments(system, solution, call, rule.arrays.items(), true, effects)
}

fn add_read(
    system: &System,
    solution: &Solution,
    call: &OutsideCall<'_>,
    effects: &mut Effects,
) -> Result<(), NoMemory>
    requires solved { IsSolutionOf system.now solution.now }
    requires call { IsOutsideCall system.now call.now }
    ensures { OnOk result (Gains effects.old.items.items effects.new.items.items (AtCall system.now false call.now)) }
{
    let rule = call.rule;
    add_arguments(system, solution, call, rule.reads.items(), false, effects)?;
    add_arguments(system, solution, call, rule.written.items(), false, effects)
}

fn add_call(
    system: &System,
    solution: &Solution,
    call: &OutsideCall<'_>,
    write: bool,
    effects: &mut Effects,
) -> Result<(), NoMemory>
    requires solved { IsSolutionOf system.now solution.now }
    requires call { IsOutsideCall system.now call.now }
    ensures { OnOk result (Gains effects.old.items.items effects.new.items.items (AtCall system.now write call.now)) }
{
    if write {
        add_written(system, solution, call, effects)
    } else {
        add_read(system, solution, call, effects)
    }
}

fn add_number(
    system: &System,
    solution: &Solution,
    number: CallId,
    write: bool,
    effects: &mut Effects,
) -> Result<(), NoMemory>
    requires solved { IsSolutionOf system.now solution.now }
    requires number { number.0 < length system.now.calls }
    ensures { OnOk result (Gains effects.old.items.items effects.new.items.items (AtNumber system.now write number.0)) }
{
    match outside_call(system, solution, number) {
        None => Ok(()),
        Some(call) => add_call(system, solution, &call, write, effects),
    }
}

/// Adds what calls of reached methods write, or read, outside through their arguments.
pub fn add_calls(
    system: &System,
    solution: &Solution,
    write: bool,
    effects: &mut Effects,
) -> Result<(), NoMemory>
    requires solved { IsSolutionOf system.now solution.now }
    requires few { length system.now.calls < 2 ^ 32 }
    ensures { OnOk result (Gains effects.old.items.items effects.new.items.items (AtCalls system.now write)) }
{
    for number in 0..system.calls.items().len() {
        add_number(system, solution, CallId(number as u32), write, effects)?;
    }
    Ok(())
}
