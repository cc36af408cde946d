// What statements that are no calls define and use.
ghost use Rattle.std.specs.Prelude.{◌≡◌, ◌<◌, All, OnOk, length};
ghost use Rattle.worklists.specs.Growth.{FromOne};
ghost use Rattle.dep_form.specs.Within.{IsVar, IsWithinSpot};
ghost use Rattle.mod_ref.specs.Gains.{Gains};
ghost use Rattle.mod_ref.specs.Direct.{IsWithinTouch, counts};
ghost use Rattle.input_tables.specs.Effects.{AtCell, AtSpot, AtTouch, AtVariable};
ghost use Rattle.input_tables.specs.Scenes.{IsScene};

use crate::effects::{Effect, add_location};
use crate::scene::Scene;
use dep_form::effects::Location;
use dep_form::rules::{Spot, Touch, Var};
use method_facts::solved::sites_of;
use slicer_ids::ids::{FieldId, NoMemory, SiteId, Statement};

fn add_cells(
    scene: &Scene<'_>,
    sites: &[SiteId],
    field: FieldId,
    at: Statement,
    effects: &mut Vec<Effect>,
) -> Result<(), NoMemory>
    requires { IsScene scene.now }
    ensures { OnOk result (Gains effects.old.items effects.new.items (FromOne (AtCell scene.now.effects.now field at) sites.now)) }
{
    for site in sites {
        add_location(scene, at, Location::Cell(*site, field), effects)?;
    }
    Ok(())
}

fn add_variable(
    scene: &Scene<'_>,
    v: Var,
    field: FieldId,
    at: Statement,
    effects: &mut Vec<Effect>,
) -> Result<(), NoMemory>
    requires scene { IsScene scene.now }
    requires within { v.0 < scene.now.system.now.vars }
    ensures { OnOk result (Gains effects.old.items effects.new.items (AtVariable scene.now.system.now scene.now.effects.now field at v)) }
{
    add_cells(scene, sites_of(scene.solution, v), field, at, effects)
}

fn add_variables(
    scene: &Scene<'_>,
    variables: &[Var],
    field: FieldId,
    at: Statement,
    effects: &mut Vec<Effect>,
) -> Result<(), NoMemory>
    requires scene { IsScene scene.now }
    requires within { All (IsVar (counts scene.now.system.now)) variables.now }
    ensures { OnOk result (Gains effects.old.items effects.new.items (FromOne (AtVariable scene.now.system.now scene.now.effects.now field at) variables.now)) }
{
    for v in variables {
        add_variable(scene, *v, field, at, effects)?;
    }
    Ok(())
}

fn add_spot(
    scene: &Scene<'_>,
    spot: &Spot,
    at: Statement,
    effects: &mut Vec<Effect>,
) -> Result<(), NoMemory>
    requires scene { IsScene scene.now }
    requires within { IsWithinSpot (counts scene.now.system.now) spot.now }
    ensures { OnOk result (Gains effects.old.items effects.new.items (AtSpot scene.now.system.now scene.now.effects.now at spot.now)) }
{
    match spot {
        Spot::Field(variables, field) => {
            add_variables(scene, variables.items(), *field, at, effects)
        }
        Spot::Made(site, field) => {
            add_location(scene, at, Location::Cell(*site, *field), effects)
        }
        Spot::Static(v) => add_location(scene, at, Location::Static(*v), effects),
    }
}

fn add_touch(
    scene: &Scene<'_>,
    touch: &Touch,
    write: bool,
    effects: &mut Vec<Effect>,
) -> Result<(), NoMemory>
    requires scene { IsScene scene.now }
    requires within { IsWithinTouch scene.now.system.now touch.now }
    ensures { OnOk result (Gains effects.old.items effects.new.items (AtTouch scene.now.system.now scene.now.effects.now write touch.now)) }
{
    if touch.write == write {
        add_spot(scene, &touch.spot, touch.place, effects)
    } else {
        Ok(())
    }
}

fn add_each(
    scene: &Scene<'_>,
    touches: &[Touch],
    write: bool,
    effects: &mut Vec<Effect>,
) -> Result<(), NoMemory>
    requires scene { IsScene scene.now }
    requires within { All (IsWithinTouch scene.now.system.now) touches.now }
    ensures { OnOk result (Gains effects.old.items effects.new.items (FromOne (AtTouch scene.now.system.now scene.now.effects.now write) touches.now)) }
{
    for touch in touches {
        add_touch(scene, touch, write, effects)?;
    }
    Ok(())
}

/// Adds what statements define, or use, that are no calls.
pub fn add_touches(
    scene: &Scene<'_>,
    write: bool,
    effects: &mut Vec<Effect>,
) -> Result<(), NoMemory>
    requires { IsScene scene.now }
    ensures { OnOk result (Gains effects.old.items effects.new.items (FromOne (AtTouch scene.now.system.now scene.now.effects.now write) scene.now.system.now.touches)) }
{
    add_each(scene, scene.system.touches.items(), write, effects)
}
