// The flow of control between the points of a body.
ghost use Rattle.std.specs.Prelude.{◌≡◌, ◌⊎◌, ◌↔◌, ◌<◌, ◌^◌, AllPairs, Contains, IfOk, OnOk, Some, length, slice_get};
ghost use Rattle.std.specs.Ordering.{nat_cmp};
ghost use Rattle.class_form.specs.declared.body.Point.{Point};
ghost use Rattle.dep_form.specs.Orders.{RiseBy};
ghost use Rattle.fact_form.specs.FactTables.{StepBefore};
ghost use Rattle.mod_ref.specs.Gains.{Gains};
ghost use Rattle.worklists.specs.Growth.{FromOne};
ghost use Rattle.worklists.proofs.Growing.{FromBelow};
ghost use Rattle.input_tables.specs.Control.{IsStepAt, IsStepFrom, IsStepOf, IsStepTo};

use crate::points::point_of;
use crate::steps::{Step, add_step, listed};
use class_form::body::Point;
use slicer_ids::ids::NoMemory;
use std::alloc::Global;

fn add_pc(points: &[Point], from: u32, pc: u16, steps: &mut Vec<Step>) -> Result<(), NoMemory>
    requires order { RiseBy nat_cmp (λ (t : Point). t.pc) points.now }
    requires few { length points.now < 2 ^ 32 }
    ensures { OnOk result (Gains steps.old.items steps.new.items (IsStepTo points.now from pc)) }
{
    let found = point_of(points, pc);
    add_step(steps, from, found)
}

fn add_pcs(points: &[Point], from: u32, pcs: &[u16], steps: &mut Vec<Step>) -> Result<(), NoMemory>
    requires order { RiseBy nat_cmp (λ (t : Point). t.pc) points.now }
    requires few { length points.now < 2 ^ 32 }
    ensures { OnOk result (Gains steps.old.items steps.new.items (FromOne (IsStepTo points.now from) pcs.now)) }
{
    for pc in pcs {
        add_pc(points, from, *pc, steps)?;
    }
    Ok(())
}

// Adds the steps from a point: to the next instructions, targets and handlers.
fn add_point(
    points: &[Point],
    point: &Point,
    from: u32,
    steps: &mut Vec<Step>,
) -> Result<(), NoMemory>
    requires order { RiseBy nat_cmp (λ (t : Point). t.pc) points.now }
    requires few { length points.now < 2 ^ 32 }
    ensures { OnOk result (Gains steps.old.items steps.new.items (IsStepFrom points.now point.now from)) }
{
    add_pcs(points, from, point.next.items(), steps)?;
    add_pcs(points, from, point.handlers.items(), steps)
}

fn point_at(points: &[Point], q: usize) -> &Point
    requires { q < length points.now }
    ensures { slice_get points.now q ≡ Some result.now }
{
    &points[q]
}

fn add_number(points: &[Point], q: usize, steps: &mut Vec<Step>) -> Result<(), NoMemory>
    requires order { RiseBy nat_cmp (λ (t : Point). t.pc) points.now }
    requires few { length points.now < 2 ^ 32 }
    requires number { q < length points.now }
    ensures { OnOk result (Gains steps.old.items steps.new.items (IsStepAt points.now q)) }
{
    let point = point_at(points, q);
    add_point(points, point, q as u32, steps)
}

fn steps_of(alloc: Global, points: &[Point]) -> Result<Vec<Step>, NoMemory>
    requires order { RiseBy nat_cmp (λ (t : Point). t.pc) points.now }
    requires few { length points.now < 2 ^ 32 }
    ensures { IfOk result (λ v. (x : Step) → Contains v.items x ↔ FromBelow (IsStepAt points.now) (length points.now) x) }
{
    let mut steps = Vec::new(alloc);
    for q in 0..points.len() {
        add_number(points, q, &mut steps)?;
    }
    Ok(steps)
}

/// The flow of control between points, by their numbers, in order.
pub fn flow_of(alloc: Global, points: &[Point]) -> Result<Vec<(u32, u32)>, NoMemory>
    requires order { RiseBy nat_cmp (λ (t : Point). t.pc) points.now }
    requires few { length points.now < 2 ^ 32 }
    ensures order { IfOk result (λ v. AllPairs StepBefore v.items) }
    ensures members { IfOk result (λ v. (q r : _) → Contains v.items (q, r) ↔ IsStepOf points.now q r) }
{
    let steps = steps_of(alloc, points)?;
    listed(alloc, steps)
}
