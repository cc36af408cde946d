// What each method defines and uses, itself or by its calls.
ghost use Rattle.std.specs.Prelude.{◌≡◌, ◌↔◌, ◌<◌, ◌≤◌, ◌^◌, ℕ, List, true, All, Contains, Some, IfErr, IfOk, length, slice_get};
ghost use Rattle.slicer_ids.specs.declared.ids.LocId.{LocId};
ghost use Rattle.dep_form.specs.declared.effects.Location.{Location};
ghost use Rattle.dep_form.specs.Effects.{IsModRefOf, IsTraced, Mod, Ref};
ghost use Rattle.dep_form.specs.Orders.{RiseBy};
ghost use Rattle.dep_form.specs.Solutions.{IsSolutionOf};
ghost use Rattle.mod_ref.specs.Direct.{IsSmall};
ghost use Rattle.mod_ref.specs.Locations.{location_cmp};
ghost use Rattle.mod_ref.specs.Rows.{AreCallers};
ghost use Rattle.mod_ref.specs.Traced.{AreDefinitions, AreSetsOf, AreUses, IsTooMany, IsTracedOf};

use crate::callers::callers;
use crate::collecting::{definitions, uses};
use crate::effects::Effect;
use crate::locations::{in_both, locations_of};
use crate::sets::sets;
use crate::sources::sources;
use dep_form::effects::{Location, ModRef};
use dep_form::rules::TooMany;
use dep_form::solution::Solution;
use dep_form::system::System;
use slicer_ids::ids::{LocId, MethodId, NoMemory};
use slicer_ids::limits::{LOCATIONS, LimitKind};
use slicer_ids::list::List;
use std::alloc::Global;

// What statements define and use, and the locations that some define and some use, in order.
#[derive(Drop)]
struct Traced {
    defined: Vec<Effect>,
    used: Vec<Effect>,
    locations: Vec<Location>,
}

// Whether sites, calls and methods have numbers of 32 bits.
fn is_small(system: &System) -> bool
    ensures { result ≡ true → IsSmall system.now }
{
    let sites = system.sites.items().len();
    let calls = system.calls.items().len();
    let methods = system.methods.items().len();
    sites < 0x1_0000_0000 && calls < 0x1_0000_0000 && methods < 0x1_0000_0000
}

fn trace(alloc: Global, system: &System, solution: &Solution) -> Result<Traced, NoMemory>
    requires solved { IsSolutionOf system.now solution.now }
    requires small { IsSmall system.now }
    ensures { IfOk result (λ t. IsTracedOf system.now t) }
{
    let defined = definitions(alloc, system, solution)?;
    let used = uses(alloc, system, solution)?;
    let defined_locations = locations_of(alloc, defined.as_slice())?;
    let used_locations = locations_of(alloc, used.as_slice())?;
    let locations = in_both(defined_locations, used_locations.as_slice());
    Ok(Traced {
        defined,
        used,
        locations,
    })
}

// By method, the numbers of the locations that it, or a method that its calls lead to, defines. The definitions are let go.
fn changed_sets(
    alloc: Global,
    system: &System,
    callers: &[Vec<MethodId>],
    locations: &[Location],
    defined: Vec<Effect>,
) -> Result<Vec<List<LocId>>, NoMemory>
    requires callers { AreCallers system.now callers.now }
    requires order { RiseBy location_cmp (λ l. l) locations.now }
    requires members { (l : Location) → Contains locations.now l ↔ IsTraced system.now l }
    requires few { length locations.now ≤ 2 ^ 20 }
    requires defined { AreDefinitions system.now defined.items }
    ensures { IfOk result (λ lists. AreSetsOf system.now (Mod system.now) locations.now lists.items) }
{
    let rows = sources(alloc, locations, defined.as_slice())?;
    let _system = system;
    sets(alloc, callers, rows.as_slice())
}

// .. uses.
fn used_sets(
    alloc: Global,
    system: &System,
    callers: &[Vec<MethodId>],
    locations: &[Location],
    used: Vec<Effect>,
) -> Result<Vec<List<LocId>>, NoMemory>
    requires callers { AreCallers system.now callers.now }
    requires order { RiseBy location_cmp (λ l. l) locations.now }
    requires members { (l : Location) → Contains locations.now l ↔ IsTraced system.now l }
    requires few { length locations.now ≤ 2 ^ 20 }
    requires used { AreUses system.now used.items }
    ensures { IfOk result (λ lists. AreSetsOf system.now (Ref system.now) locations.now lists.items) }
{
    let rows = sources(alloc, locations, used.as_slice())?;
    let _system = system;
    sets(alloc, callers, rows.as_slice())
}

fn made(locations: Vec<Location>, changed: Vec<List<LocId>>, used: Vec<List<LocId>>) -> ModRef
    requires changed { (m : ℕ) (ls : List LocId) → slice_get changed.items m ≡ Some ls → All (λ (l : LocId). l.0 < length locations.items) ls }
    requires used { (m : ℕ) (ls : List LocId) → slice_get used.items m ≡ Some ls → All (λ (l : LocId). l.0 < length locations.items) ls }
    ensures locations { result.locations ≡ locations.items }
    ensures changed { result.changed ≡ changed.items }
    ensures used { result.used ≡ used.items }
{
    ModRef {
        locations: List::from_vec(locations),
        changed: List::from_vec(changed),
        used: List::from_vec(used),
    }
}

fn describe(
    alloc: Global,
    system: &System,
    solution: &Solution,
    traced: Traced,
) -> Result<ModRef, NoMemory>
    requires solved { IsSolutionOf system.now solution.now }
    requires small { IsSmall system.now }
    requires traced { IsTracedOf system.now traced }
    requires few { length traced.locations.items ≤ 2 ^ 20 }
    ensures described { IfOk result (λ mr. IsModRefOf system.now mr) }
    ensures locations { IfOk result (λ mr. mr.locations ≡ traced.locations.items) }
{
    let Traced {
        defined,
        used,
        locations,
    } = traced;
    let callers = callers(alloc, system, solution)?;
    let changed = changed_sets(
        alloc,
        system,
        callers.as_slice(),
        locations.as_slice(),
        defined,
    )?;
    let used = used_sets(
        alloc,
        system,
        callers.as_slice(),
        locations.as_slice(),
        used,
    )?;
    Ok(made(locations, changed, used))
}

// The limit is tried before anything is made for the locations.
fn limited(
    alloc: Global,
    system: &System,
    solution: &Solution,
    traced: Traced,
) -> Result<ModRef, TooMany>
    requires solved { IsSolutionOf system.now solution.now }
    requires small { IsSmall system.now }
    requires traced { IsTracedOf system.now traced }
    ensures described { IfOk result (λ mr. IsModRefOf system.now mr × (length mr.locations ≤ 2 ^ 20)) }
    ensures limit { IfErr result (IsTooMany system.now) }
{
    let count = traced.locations.len() as u64;
    if count > LOCATIONS {
        return Err(TooMany::Limit(LimitKind::Locations, count));
    }
    match describe(alloc, system, solution, traced) {
        Ok(answer) => Ok(answer),
        Err(_) => Err(TooMany::NoMemory),
    }
}

/// The locations of the heap that some statement of a reached method defines and some uses, in order, and for each method the
/// numbers of those that it, or a method that a list of calls leads to, defines and uses (Mod and Ref; Banning, POPL 1979). The
/// statements are those of reached methods, and what they touch is read from the solution.
///
/// `Limit(Locations, n)` is answered exactly where the number n of these locations exceeds its limit; any other error is want of
/// memory. A system with 2^32 sites, calls or methods has it too, since their numbers have 32 bits.
///
/// What statements touch is collected and sorted. Then each location is carried back from the methods that touch it along the
/// callers, so that this part takes a step for each number in the answer and for each call to a method with that number.
pub fn mod_ref(alloc: Global, s: &System, sol: &Solution) -> Result<ModRef, TooMany>
    requires { IsSolutionOf s.now sol.now }
    ensures described { IfOk result (λ mr. IsModRefOf s.now mr × (length mr.locations ≤ 2 ^ 20)) }
    ensures limit { IfErr result (IsTooMany s.now) }
{
    if !is_small(s) {
        return Err(TooMany::NoMemory);
    }
    match trace(alloc, s, sol) {
        Ok(traced) => limited(alloc, s, sol, traced),
        Err(_) => Err(TooMany::NoMemory),
    }
}
