// All definitions and uses of locations, by statement.
ghost use Rattle.std.specs.Prelude.{IfOk};
ghost use Rattle.input_tables.specs.Effects.{AreEffects, IsFresh, IsGet, IsHeapOf, IsPut, IsRead};
ghost use Rattle.input_tables.specs.Scenes.{IsScene};

use crate::effects::{Effect, in_order};
use crate::fresh::add_fresh;
use crate::outside::{Way, add_calls};
use crate::scene::Scene;
use crate::touches::add_touches;
use slicer_ids::ids::NoMemory;
use std::alloc::Global;

/// What statements define themselves and by what they answer, and what they use themselves and for what they answer.
#[derive(Drop)]
pub struct Heap {
    pub puts: Vec<Effect>,
    pub fresh: Vec<Effect>,
    pub gets: Vec<Effect>,
    pub reads: Vec<Effect>,
}

fn puts(alloc: Global, scene: &Scene<'_>) -> Result<Vec<Effect>, NoMemory>
    requires { IsScene scene.now }
    ensures { IfOk result (λ v. AreEffects (IsPut scene.now.system.now scene.now.effects.now) v.items) }
{
    let mut effects = Vec::new(alloc);
    add_touches(scene, true, &mut effects)?;
    add_calls(scene, Way::Writes, &mut effects)?;
    Ok(in_order(effects))
}

fn fresh(alloc: Global, scene: &Scene<'_>) -> Result<Vec<Effect>, NoMemory>
    requires { IsScene scene.now }
    ensures { IfOk result (λ v. AreEffects (IsFresh scene.now.system.now scene.now.effects.now) v.items) }
{
    let mut effects = Vec::new(alloc);
    add_fresh(scene, &mut effects)?;
    Ok(in_order(effects))
}

fn gets(alloc: Global, scene: &Scene<'_>) -> Result<Vec<Effect>, NoMemory>
    requires { IsScene scene.now }
    ensures { IfOk result (λ v. AreEffects (IsGet scene.now.system.now scene.now.effects.now) v.items) }
{
    let mut effects = Vec::new(alloc);
    add_touches(scene, false, &mut effects)?;
    add_calls(scene, Way::Copies, &mut effects)?;
    Ok(in_order(effects))
}

fn reads(alloc: Global, scene: &Scene<'_>) -> Result<Vec<Effect>, NoMemory>
    requires { IsScene scene.now }
    ensures { IfOk result (λ v. AreEffects (IsRead scene.now.system.now scene.now.effects.now) v.items) }
{
    let mut effects = Vec::new(alloc);
    add_calls(scene, Way::Reads, &mut effects)?;
    Ok(in_order(effects))
}

/// The definitions and uses of locations by statements, but for those of the methods that calls go to. It goes twice over the touches
/// of the system, three times over its calls and once over its sites.
pub fn gather(alloc: Global, scene: &Scene<'_>) -> Result<Heap, NoMemory>
    requires { IsScene scene.now }
    ensures { IfOk result (λ h. IsHeapOf scene.now.system.now scene.now.effects.now h.puts.items h.fresh.items h.gets.items h.reads.items) }
{
    let puts = puts(alloc, scene)?;
    let fresh = fresh(alloc, scene)?;
    let gets = gets(alloc, scene)?;
    let reads = reads(alloc, scene)?;
    Ok(Heap {
        puts,
        fresh,
        gets,
        reads,
    })
}
