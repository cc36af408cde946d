// Statements that define, or use, locations.
ghost use Rattle.std.specs.Prelude.{◌≡◌, ◌<◌, ◌^◌, ◌↔◌, AllPairs, Contains, OnOk, Some, length, slice_get};
ghost use Rattle.slicer_ids.specs.declared.ids.LocId.{LocId};
ghost use Rattle.dep_form.specs.Effects.{LocationBefore};
ghost use Rattle.dep_form.specs.Orders.{RiseBy};
ghost use Rattle.mod_ref.specs.Gains.{Gains};
ghost use Rattle.input_tables.specs.Effects.{AtLocation, effect, effect_cmp};
ghost use Rattle.input_tables.specs.Scenes.{IsScene};

use crate::scene::Scene;
use dep_form::effects::Location;
use slicer_ids::ids::{LocId, NoMemory, Statement};

/// A statement, and the number of a location that it defines or uses.
#[derive(Clone, Copy, PartialEq, Eq, PartialOrd, Ord)]
pub struct Effect {
    pub at: Statement,
    pub location: LocId,
}

fn number_of(locations: &[Location], location: Location) -> Option<LocId>
    requires order { AllPairs LocationBefore locations.now }
    requires few { length locations.now < 2 ^ 32 }
    ensures { (n : LocId) → (result ≡ Some n) ↔ (slice_get locations.now n.0 ≡ Some location) }
{
    match locations.binary_search(&location) {
        Ok(n) => Some(LocId(n as u32)),
        Err(_) => None,
    }
}

fn push(effects: &mut Vec<Effect>, at: Statement, location: LocId) -> Result<(), NoMemory>
    ensures { OnOk result (Gains effects.old.items effects.new.items (λ x. x ≡ effect at location)) }
{
    match effects.push(Effect { at, location }) {
        Ok(()) => Ok(()),
        Err(_) => Err(NoMemory),
    }
}

/// Adds a location, where it has a number.
pub fn add_location(
    scene: &Scene<'_>,
    at: Statement,
    location: Location,
    effects: &mut Vec<Effect>,
) -> Result<(), NoMemory>
    requires { IsScene scene.now }
    ensures { OnOk result (Gains effects.old.items effects.new.items (AtLocation scene.now.effects.now at location)) }
{
    match number_of(scene.effects.locations.items(), location) {
        None => Ok(()),
        Some(n) => push(effects, at, n),
    }
}

/// The same effects, in order and once each.
pub fn in_order(effects: Vec<Effect>) -> Vec<Effect>
    ensures order { RiseBy effect_cmp (λ x. x) result.items }
    ensures members { (x : Effect) → Contains result.items x ↔ Contains effects.items x }
{
    let mut all = effects;
    all.sort_unstable();
    all.dedup();
    all
}
