// What statements that are no calls define and use.
ghost use Rattle.std.specs.Prelude.{◌≡◌, ◌<◌, All, OnOk, length};
ghost use Rattle.worklists.specs.Growth.{FromOne};
ghost use Rattle.dep_form.specs.Within.{IsVar, IsWithinSpot};
ghost use Rattle.dep_form.specs.Solutions.{IsSolutionOf};
ghost use Rattle.mod_ref.specs.Gains.{Gains};
ghost use Rattle.mod_ref.specs.Direct.{AtSpot, AtTouch, AtTouches, AtVariable, IsWithinTouch, cell, counts};

use crate::effects::Effects;
use crate::solved::{is_reached, sites_of};
use dep_form::effects::Location;
use dep_form::rules::{Spot, Touch, Var};
use dep_form::solution::Solution;
use dep_form::system::System;
use slicer_ids::ids::{FieldId, MethodId, NoMemory, SiteId};

fn add_cells(
    sites: &[SiteId],
    field: FieldId,
    method: MethodId,
    effects: &mut Effects,
) -> Result<(), NoMemory>
    ensures { OnOk result (Gains effects.old.items.items effects.new.items.items (FromOne (λ h x. x ≡ cell h field method) sites.now)) }
{
    for site in sites {
        effects.add(Location::Cell(*site, field), method)?;
    }
    Ok(())
}

fn add_variable(
    system: &System,
    solution: &Solution,
    v: Var,
    field: FieldId,
    method: MethodId,
    effects: &mut Effects,
) -> Result<(), NoMemory>
    requires solved { IsSolutionOf system.now solution.now }
    requires within { v.0 < system.now.vars }
    ensures { OnOk result (Gains effects.old.items.items effects.new.items.items (AtVariable system.now field method v)) }
{
    let _vars = system.vars;
    add_cells(sites_of(solution, v), field, method, effects)
}

fn add_variables(
    system: &System,
    solution: &Solution,
    variables: &[Var],
    field: FieldId,
    method: MethodId,
    effects: &mut Effects,
) -> Result<(), NoMemory>
    requires solved { IsSolutionOf system.now solution.now }
    requires within { All (IsVar (counts system.now)) variables.now }
    ensures { OnOk result (Gains effects.old.items.items effects.new.items.items (FromOne (AtVariable system.now field method) variables.now)) }
{
    for v in variables {
        add_variable(system, solution, *v, field, method, effects)?;
    }
    Ok(())
}

fn add_spot(
    system: &System,
    solution: &Solution,
    spot: &Spot,
    method: MethodId,
    effects: &mut Effects,
) -> Result<(), NoMemory>
    requires solved { IsSolutionOf system.now solution.now }
    requires within { IsWithinSpot (counts system.now) spot.now }
    ensures { OnOk result (Gains effects.old.items.items effects.new.items.items (AtSpot system.now method spot.now)) }
{
    match spot {
        Spot::Field(variables, field) => {
            add_variables(system, solution, variables.items(), *field, method, effects)
        }
        Spot::Made(site, field) => effects.add(Location::Cell(*site, *field), method),
        Spot::Static(v) => effects.add(Location::Static(*v), method),
    }
}

fn add_touch(
    system: &System,
    solution: &Solution,
    touch: &Touch,
    write: bool,
    effects: &mut Effects,
) -> Result<(), NoMemory>
    requires solved { IsSolutionOf system.now solution.now }
    requires within { IsWithinTouch system.now touch.now }
    ensures { OnOk result (Gains effects.old.items.items effects.new.items.items (AtTouch system.now write touch.now)) }
{
    if touch.write == write && is_reached(solution, touch.place.method) {
        add_spot(system, solution, &touch.spot, touch.place.method, effects)
    } else {
        Ok(())
    }
}

fn add_each(
    system: &System,
    solution: &Solution,
    touches: &[Touch],
    write: bool,
    effects: &mut Effects,
) -> Result<(), NoMemory>
    requires solved { IsSolutionOf system.now solution.now }
    requires within { All (IsWithinTouch system.now) touches.now }
    ensures { OnOk result (Gains effects.old.items.items effects.new.items.items (FromOne (AtTouch system.now write) touches.now)) }
{
    for touch in touches {
        add_touch(system, solution, touch, write, effects)?;
    }
    Ok(())
}

/// Adds what statements of reached methods define, or use, that are no calls.
pub fn add_touches(
    system: &System,
    solution: &Solution,
    write: bool,
    effects: &mut Effects,
) -> Result<(), NoMemory>
    requires { IsSolutionOf system.now solution.now }
    ensures { OnOk result (Gains effects.old.items.items effects.new.items.items (AtTouches system.now write)) }
{
    add_each(system, solution, system.touches.items(), write, effects)
}
