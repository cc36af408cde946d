// Steps of control between points, by number.
ghost use Rattle.std.specs.Prelude.{◌≡◌, ◌↔◌, ◌++◌, ◌∷◌, [], AllPairs, Contains, IfOk, OnOk, map};
ghost use Rattle.fact_form.specs.FactTables.{StepBefore};
ghost use Rattle.mod_ref.specs.Gains.{Gains};
ghost use Rattle.input_tables.specs.Control.{IsStepToFound, pair_of, step};

use slicer_ids::ids::NoMemory;
use std::alloc::Global;

/// Control goes from the point of the one number to that of the other.
#[derive(Clone, Copy, PartialEq, Eq, PartialOrd, Ord)]
pub struct Step {
    pub from: u32,
    pub to: u32,
}

fn push(steps: &mut Vec<Step>, from: u32, to: u32) -> Result<(), NoMemory>
    ensures { OnOk result (Gains steps.old.items steps.new.items (λ x. x ≡ step from to)) }
{
    match steps.push(Step { from, to }) {
        Ok(()) => Ok(()),
        Err(_) => Err(NoMemory),
    }
}

/// Adds the step to a point, where there is one.
pub fn add_step(steps: &mut Vec<Step>, from: u32, to: Option<u32>) -> Result<(), NoMemory>
    ensures { OnOk result (Gains steps.old.items steps.new.items (IsStepToFound from to)) }
{
    match to {
        None => Ok(()),
        Some(r) => push(steps, from, r),
    }
}

fn in_order(steps: Vec<Step>) -> Vec<Step>
    ensures order { AllPairs (λ a b. StepBefore (pair_of a) (pair_of b)) result.items }
    ensures members { (x : Step) → Contains result.items x ↔ Contains steps.items x }
{
    let mut all = steps;
    all.sort_unstable();
    all.dedup();
    all
}

fn push_pair(pairs: &mut Vec<(u32, u32)>, x: Step) -> Result<(), NoMemory>
    ensures { OnOk result (pairs.new.items ≡ pairs.old.items ++ pair_of x ∷ []) }
{
    match pairs.push((x.from, x.to)) {
        Ok(()) => Ok(()),
        Err(_) => Err(NoMemory),
    }
}

fn pairs(alloc: Global, steps: &[Step]) -> Result<Vec<(u32, u32)>, NoMemory>
    ensures { IfOk result (λ v. v.items ≡ map pair_of steps.now) }
{
    let mut all = Vec::new(alloc);
    for x in steps {
        push_pair(&mut all, *x)?;
    }
    Ok(all)
}

/// Steps as pairs, in order and once each.
pub fn listed(alloc: Global, steps: Vec<Step>) -> Result<Vec<(u32, u32)>, NoMemory>
    ensures order { IfOk result (λ v. AllPairs StepBefore v.items) }
    ensures members { IfOk result (λ v. (q r : _) → Contains v.items (q, r) ↔ Contains steps.items (step q r)) }
{
    let all = in_order(steps);
    pairs(alloc, all.as_slice())
}
