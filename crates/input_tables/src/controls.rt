// The points of a method, and the flow of control between them.
ghost use Rattle.std.specs.Prelude.{◌≡◌, ◌<◌, ◌↔◌, ◌^◌, [], All, AllPairs, Contains, IfOk, Some, length, slice_get};
ghost use Rattle.std.specs.Ordering.{nat_cmp};
ghost use Rattle.class_form.specs.declared.body.Body.{Body};
ghost use Rattle.class_form.specs.declared.body.Point.{Point};
ghost use Rattle.dep_form.specs.Orders.{RiseBy};
ghost use Rattle.node_tables.specs.Scenes.{IsInOrder};
ghost use Rattle.fact_form.specs.FactTables.{StepBefore};
ghost use Rattle.input_tables.specs.Control.{IsControlOf, IsStepOf};

use crate::flow::flow_of;
use crate::points::{body_at, find_body};
use class_form::body::{Body, Point};
use slicer_ids::ids::{MethodId, NoMemory};
use std::alloc::Global;

// Points stand at program counters of 16 bits.
const MOST: usize = 65536;

/// How many points a method has, and the flow of control between them, by their numbers, in order.
#[derive(Drop)]
pub struct Control {
    pub points: u32,
    pub flow: Vec<(u32, u32)>,
}

fn no_control(alloc: Global) -> Control
    ensures points { result.points ≡ 0 }
    ensures flow { result.flow.items ≡ [] }
{
    Control {
        points: 0,
        flow: Vec::new(alloc),
    }
}

fn of_points(alloc: Global, points: &[Point]) -> Result<Control, NoMemory>
    requires { RiseBy nat_cmp (λ (t : Point). t.pc) points.now }
    ensures points { IfOk result (λ c. c.points ≡ length points.now) }
    ensures order { IfOk result (λ c. AllPairs StepBefore c.flow.items) }
    ensures members { IfOk result (λ c. (q r : _) → Contains c.flow.items (q, r) ↔ IsStepOf points.now q r) }
{
    let count = points.len();
    if count > MOST {
        return Err(NoMemory);
    }
    let flow = flow_of(alloc, points)?;
    Ok(Control {
        points: count as u32,
        flow,
    })
}

fn of_body(alloc: Global, bodies: &[Body], m: MethodId, number: usize) -> Result<Control, NoMemory>
    requires order { RiseBy nat_cmp (λ (b : Body). b.method.0) bodies.now }
    requires ordered { All IsInOrder bodies.now }
    requires number { (b : Body) × (slice_get bodies.now number ≡ Some b) × (b.method ≡ m) }
    ensures { IfOk result (λ c. IsControlOf bodies.now m c.points c.flow.items) }
{
    let body = body_at(bodies, number);
    of_points(alloc, body.shape.points.items())
}

/// The points of a method, and the flow of control between them: to the next instruction, to targets and to handlers. A method
/// without a body has none. The bodies are in order of method, and the points of each in order of their program counters.
pub fn control_of(alloc: Global, bodies: &[Body], m: MethodId) -> Result<Control, NoMemory>
    requires order { RiseBy nat_cmp (λ (b : Body). b.method.0) bodies.now }
    requires ordered { All IsInOrder bodies.now }
    ensures { IfOk result (λ c. IsControlOf bodies.now m c.points c.flow.items) }
{
    match find_body(bodies, m) {
        None => Ok(no_control(alloc)),
        Some(number) => of_body(alloc, bodies, m, number),
    }
}
