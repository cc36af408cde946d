// Loads and stores of fields.
ghost use Rattle.std.specs.Prelude.{OnOk};
ghost use Rattle.dep_form.specs.declared.system.System.{System};
ghost use Rattle.points_to.specs.declared.place.Place.TheVariants.{Cell};
ghost use Rattle.points_to.specs.Items.{Flows, OneOf};
ghost use Rattle.points_to.specs.Rules.{Loads, Stores, site};
ghost use Rattle.points_to.specs.States.{Moves, IsShape};

use crate::found::Found;
use crate::place::Place;
use crate::steps::{flow, is_new, list};
use slicer_ids::ids::{FieldId, NoMemory, SiteId};
use std::alloc::Global;

fn flow_each_to(
    alloc: Global,
    found: &mut Found,
    sites: &[u32],
    field: FieldId,
    to: Place,
    base: Place,
    force: bool,
) -> Result<(), NoMemory>
    requires { IsShape found.old }
    ensures shape { OnOk result (IsShape found.new) }
    ensures moved { OnOk result ((s : System) → Moves s found.old found.new (OneOf (λ o. Flows (Cell (site o) field) to) sites.now)) }
{
    for object in sites {
        let fresh = force || is_new(found, base, *object);
        flow(alloc, found, Place::Cell(SiteId(*object), field), to, fresh)?;
    }
    Ok(())
}

/// Adds what a field of a base's sites has to a place.
pub fn load(
    alloc: Global,
    found: &mut Found,
    base: Place,
    field: FieldId,
    to: Place,
    force: bool,
) -> Result<(), NoMemory>
    requires { IsShape found.old }
    ensures shape { OnOk result (IsShape found.new) }
    ensures moved { OnOk result ((s : System) → Moves s found.old found.new (Loads base field to)) }
{
    let sites = list(alloc, found, base)?;
    flow_each_to(alloc, found, sites.as_slice(), field, to, base, force)
}

fn flow_to_each(
    alloc: Global,
    found: &mut Found,
    sites: &[u32],
    field: FieldId,
    from: Place,
    base: Place,
    force: bool,
) -> Result<(), NoMemory>
    requires { IsShape found.old }
    ensures shape { OnOk result (IsShape found.new) }
    ensures moved { OnOk result ((s : System) → Moves s found.old found.new (OneOf (λ o. Flows from (Cell (site o) field)) sites.now)) }
{
    for object in sites {
        let fresh = force || is_new(found, base, *object);
        flow(
            alloc,
            found,
            from,
            Place::Cell(SiteId(*object), field),
            fresh,
        )?;
    }
    Ok(())
}

/// Adds what a place has to a field of a base's sites.
pub fn store(
    alloc: Global,
    found: &mut Found,
    base: Place,
    field: FieldId,
    from: Place,
    force: bool,
) -> Result<(), NoMemory>
    requires { IsShape found.old }
    ensures shape { OnOk result (IsShape found.new) }
    ensures moved { OnOk result ((s : System) → Moves s found.old found.new (Stores base field from)) }
{
    let sites = list(alloc, found, base)?;
    flow_to_each(alloc, found, sites.as_slice(), field, from, base, force)
}
