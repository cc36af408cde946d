// The time that Mod and Ref take.

use crate::systems::generated;
use anyhow::{Result, bail};
use bench_tools::watch::Watch;
use dep_form::effects::ModRef;
use dep_form::system::System;
use mod_ref::mod_ref;
use points_to::solve;
use slicer_ids::ids::LocId;
use slicer_ids::list::List;

fn sum(lists: &[List<LocId>]) -> usize {
    let mut count: usize = 0;
    for list in lists {
        count = count.saturating_add(list.items().len());
    }
    count
}

fn print_effects(rt: &HostRuntime, effects: &ModRef) -> Result<()> {
    let locations = effects.locations.items().len();
    let changed = sum(effects.changed.items());
    let used = sum(effects.used.items());
    println!(rt; "  {locations} locations, {changed} defined and {used} used by methods")?;
    Ok(())
}

// What methods of a system define and use; prints how long it takes.
fn measured(rt: &HostRuntime, system: &System) -> Result<ModRef> {
    let solution = solve(rt.alloc(), system)?;
    let watch = Watch::start(rt)?;
    let effects = mod_ref(rt.alloc(), system, &solution)?;
    let spent = watch.spent(rt)?;
    println!(rt; "  {spent}")?;
    Ok(effects)
}

/// Prints how long a generated program of so many methods takes.
pub fn measure_effects(rt: &HostRuntime, methods: u32, group: u32) -> Result<()> {
    let Some(system) = generated(rt.alloc(), methods, group)? else {
        bail!("the parts don't fit together");
    };
    let effects = measured(rt, &system)?;
    print_effects(rt, &effects)
}
