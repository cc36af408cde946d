// What the statements of reached methods define and use.
ghost use Rattle.std.specs.Prelude.{◌↔◌, IfOk, Contains};
ghost use Rattle.dep_form.specs.Effects.{DefinedIn, UsedIn};
ghost use Rattle.dep_form.specs.Solutions.{IsSolutionOf};
ghost use Rattle.mod_ref.specs.declared.effects.Effect.{Effect};
ghost use Rattle.mod_ref.specs.Direct.{IsSmall};

use crate::effects::{Effect, Effects};
use crate::fresh::add_fresh;
use crate::outside::add_calls;
use crate::touches::add_touches;
use dep_form::solution::Solution;
use dep_form::system::System;
use slicer_ids::ids::NoMemory;
use std::alloc::Global;

/// What statements of reached methods define, some of it perhaps twice.
pub fn definitions(
    alloc: Global,
    system: &System,
    solution: &Solution,
) -> Result<Vec<Effect>, NoMemory>
    requires solved { IsSolutionOf system.now solution.now }
    requires small { IsSmall system.now }
    ensures { IfOk result (λ v. (x : Effect) → Contains v.items x ↔ DefinedIn system.now x.method x.location) }
{
    let mut effects = Effects::new(alloc);
    add_touches(system, solution, true, &mut effects)?;
    add_calls(system, solution, true, &mut effects)?;
    add_fresh(alloc, system, solution, &mut effects)?;
    Ok(effects.into_items())
}

/// What they use, some of it perhaps twice.
pub fn uses(alloc: Global, system: &System, solution: &Solution) -> Result<Vec<Effect>, NoMemory>
    requires solved { IsSolutionOf system.now solution.now }
    requires small { IsSmall system.now }
    ensures { IfOk result (λ v. (x : Effect) → Contains v.items x ↔ UsedIn system.now x.method x.location) }
{
    let mut effects = Effects::new(alloc);
    add_touches(system, solution, false, &mut effects)?;
    add_calls(system, solution, false, &mut effects)?;
    Ok(effects.into_items())
}
