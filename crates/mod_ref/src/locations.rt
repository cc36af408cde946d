// The locations that some statement defines and some statement uses, in order.
ghost use Rattle.std.specs.Prelude.{◌≡◌, ◌↔◌, ◌++◌, ◌∷◌, [], ℕ, Some, IfOk, OnOk, Contains, map, slice_get};
ghost use Rattle.std.specs.Set.{is_member};
ghost use Rattle.dep_form.specs.declared.effects.Location.{Location};
ghost use Rattle.dep_form.specs.Orders.{RiseBy};
ghost use Rattle.mod_ref.specs.Locations.{IsLocationOf, location_cmp, location_eq, location_of};

use crate::effects::Effect;
use dep_form::effects::Location;
use slicer_ids::ids::NoMemory;
use std::alloc::Global;

fn push(locations: &mut Vec<Location>, location: Location) -> Result<(), NoMemory>
    ensures { OnOk result (locations.new.items ≡ locations.old.items ++ location ∷ []) }
{
    match locations.push(location) {
        Ok(()) => Ok(()),
        Err(_) => Err(NoMemory),
    }
}

fn listed(alloc: Global, effects: &[Effect]) -> Result<Vec<Location>, NoMemory>
    ensures { IfOk result (λ v. v.items ≡ map location_of effects.now) }
{
    let mut all = Vec::new(alloc);
    for effect in effects {
        push(&mut all, effect.location)?;
    }
    Ok(all)
}

fn in_order(locations: Vec<Location>) -> Vec<Location>
    ensures order { RiseBy location_cmp (λ l. l) result.items }
    ensures members { (l : Location) → Contains result.items l ↔ Contains locations.items l }
{
    let mut all = locations;
    all.sort_unstable();
    all.dedup();
    all
}

/// The locations of some effects, in order and once each.
pub fn locations_of(alloc: Global, effects: &[Effect]) -> Result<Vec<Location>, NoMemory>
    ensures order { IfOk result (λ v. RiseBy location_cmp (λ l. l) v.items) }
    ensures members { IfOk result (λ v. (l : Location) → Contains v.items l ↔ IsLocationOf effects.now l) }
{
    let all = listed(alloc, effects)?;
    Ok(in_order(all))
}

/// The number of a location among some in order; none where it isn't one of them. Found by halving.
pub fn number_of(locations: &[Location], location: Location) -> Option<usize>
    requires { RiseBy location_cmp (λ l. l) locations.now }
    ensures { (k : ℕ) → (result ≡ Some k) ↔ (slice_get locations.now k ≡ Some location) }
{
    match locations.binary_search(&location) {
        Ok(k) => Some(k),
        Err(_) => None,
    }
}

fn is_listed(locations: &[Location], location: Location) -> bool
    requires { RiseBy location_cmp (λ l. l) locations.now }
    ensures { result ≡ is_member location_eq locations.now location }
{
    match locations.binary_search(&location) {
        Ok(_) => true,
        Err(_) => false,
    }
}

/// The locations of one list that are in the other too. It takes no memory.
pub fn in_both(one: Vec<Location>, other: &[Location]) -> Vec<Location>
    requires one { RiseBy location_cmp (λ l. l) one.items }
    requires other { RiseBy location_cmp (λ l. l) other.now }
    ensures order { RiseBy location_cmp (λ l. l) result.items }
    ensures members { (l : Location) → Contains result.items l ↔ (Contains one.items l × Contains other.now l) }
{
    let mut both = one;
    both.retain(|l| is_listed(other, *l));
    both
}
