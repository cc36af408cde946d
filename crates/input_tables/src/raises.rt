// Which points lead to which handlers.
ghost use Rattle.std.specs.Prelude.{◌≡◌, ◌<◌, ◌≤◌, ◌↔◌, ◌^◌, ℕ, true, false, AllPairs, Contains, IfOk, OnOk, Some, length, slice_get};
ghost use Rattle.std.specs.List.Sorted.{IsPartitionPoint};
ghost use Rattle.std.proofs.Common.{leb, ltb};
ghost use Rattle.fact_form.specs.FactTables.{StepBefore};
ghost use Rattle.input_tables.specs.declared.steps.Step.{Step};
ghost use Rattle.mod_ref.specs.Gains.{Gains};
ghost use Rattle.worklists.specs.Growth.{FromOne};
ghost use Rattle.worklists.proofs.Growing.{FromBelow};
ghost use Rattle.input_tables.specs.Edges.{AreRaises, IsRaise, IsRaiseAt};

use crate::steps::{Step, add_step, listed};
use class_form::body::Point;
use slicer_ids::ids::NoMemory;
use std::alloc::Global;

fn add_handler(h: u16, q: u32, steps: &mut Vec<Step>) -> Result<(), NoMemory>
    ensures { OnOk result (Gains steps.old.items steps.new.items (IsRaise q h)) }
{
    add_step(steps, h as u32, Some(q))
}

fn add_handlers(handlers: &[u16], q: u32, steps: &mut Vec<Step>) -> Result<(), NoMemory>
    ensures { OnOk result (Gains steps.old.items steps.new.items (FromOne (IsRaise q) handlers.now)) }
{
    for h in handlers {
        add_handler(*h, q, steps)?;
    }
    Ok(())
}

fn point_at(points: &[Point], q: usize) -> &Point
    requires { q < length points.now }
    ensures { slice_get points.now q ≡ Some result.now }
{
    &points[q]
}

fn add_number(points: &[Point], q: usize, steps: &mut Vec<Step>) -> Result<(), NoMemory>
    requires few { length points.now < 2 ^ 32 }
    requires number { q < length points.now }
    ensures { OnOk result (Gains steps.old.items steps.new.items (IsRaiseAt points.now q)) }
{
    let point = point_at(points, q);
    add_handlers(point.handlers.items(), q as u32, steps)
}

fn raises_in(alloc: Global, points: &[Point]) -> Result<Vec<Step>, NoMemory>
    requires { length points.now < 2 ^ 32 }
    ensures { IfOk result (λ v. (x : Step) → Contains v.items x ↔ FromBelow (IsRaiseAt points.now) (length points.now) x) }
{
    let mut steps = Vec::new(alloc);
    for q in 0..points.len() {
        add_number(points, q, &mut steps)?;
    }
    Ok(steps)
}

/// The handlers of points, each with the number of the point, in order.
pub fn raises_of(alloc: Global, points: &[Point]) -> Result<Vec<(u32, u32)>, NoMemory>
    requires { length points.now < 2 ^ 32 }
    ensures { IfOk result (λ v. AreRaises points.now v.items) }
{
    let steps = raises_in(alloc, points)?;
    listed(alloc, steps)
}

fn count_before(raises: &[(u32, u32)], h: u32) -> usize
    requires { AllPairs StepBefore raises.now }
    ensures bound { result ≤ length raises.now }
    ensures point { IsPartitionPoint (λ (x : ℕ × ℕ). ltb x.0 h ≡ true) (λ (x : ℕ × ℕ). ltb x.0 h ≡ false) raises.now result }
{
    raises.partition_point(|x| x.0 < h)
}

fn count_through(raises: &[(u32, u32)], h: u32) -> usize
    requires { AllPairs StepBefore raises.now }
    ensures bound { result ≤ length raises.now }
    ensures point { IsPartitionPoint (λ (x : ℕ × ℕ). leb x.0 h ≡ true) (λ (x : ℕ × ℕ). leb x.0 h ≡ false) raises.now result }
{
    raises.partition_point(|x| x.0 <= h)
}

/// Those of one handler.
pub fn of_handler(raises: &[(u32, u32)], h: u16) -> &[(u32, u32)]
    requires { AllPairs StepBefore raises.now }
    ensures { (x : ℕ × ℕ) → Contains result.now x ↔ (Contains raises.now x × (x.0 ≡ h)) }
{
    let low = count_before(raises, h as u32);
    let high = count_through(raises, h as u32);
    &raises[low..high]
}
