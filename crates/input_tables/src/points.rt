// The numbers of points, and the bodies of methods.
ghost use Rattle.std.specs.Prelude.{◌≡◌, ◌<◌, ◌↔◌, ◌^◌, ℕ, All, Contains, MatchOption, Some, length, slice_get};
ghost use Rattle.std.specs.Ordering.{nat_cmp};
ghost use Rattle.class_form.specs.declared.body.Body.{Body};
ghost use Rattle.class_form.specs.declared.body.Point.{Point};
ghost use Rattle.dep_form.specs.Orders.{RiseBy};
ghost use Rattle.node_tables.specs.Scenes.{IsInOrder};
ghost use Rattle.input_tables.specs.Control.{ArePointsOf, StandsAt};

use class_form::body::{Body, Point};
use slicer_ids::ids::MethodId;
use std::cmp::Ordering;

fn compare(point: &Point, pc: u16) -> Ordering
    ensures { result ≡ nat_cmp point.now.pc pc }
{
    point.pc.cmp(&pc)
}

/// The number of the point at a program counter; none where control doesn't reach it.
pub fn point_of(points: &[Point], pc: u16) -> Option<u32>
    requires order { RiseBy nat_cmp (λ (t : Point). t.pc) points.now }
    requires few { length points.now < 2 ^ 32 }
    ensures { (q : ℕ) → (result ≡ Some q) ↔ StandsAt points.now q pc }
{
    match points.binary_search_by(|point| compare(point, pc)) {
        Ok(q) => Some(q as u32),
        Err(_) => None,
    }
}

fn compare_body(body: &Body, m: MethodId) -> Ordering
    ensures { result ≡ nat_cmp body.now.method.0 m.0 }
{
    body.method.0.cmp(&m.0)
}

/// The number of the body of a method.
pub fn find_body(bodies: &[Body], m: MethodId) -> Option<usize>
    requires { RiseBy nat_cmp (λ (b : Body). b.method.0) bodies.now }
    ensures { MatchOption result ((b : Body) → Contains bodies.now b → b.method ≡ m → ⊥) (λ k. (b : Body) × (slice_get bodies.now k ≡ Some b) × (b.method ≡ m)) }
{
    match bodies.binary_search_by(|body| compare_body(body, m)) {
        Ok(k) => Some(k),
        Err(_) => None,
    }
}

/// The body of this number.
pub fn body_at(bodies: &[Body], number: usize) -> &Body
    requires { number < length bodies.now }
    ensures { slice_get bodies.now number ≡ Some result.now }
{
    &bodies[number]
}

fn points_at(bodies: &[Body], m: MethodId, number: usize) -> &[Point]
    requires order { RiseBy nat_cmp (λ (b : Body). b.method.0) bodies.now }
    requires ordered { All IsInOrder bodies.now }
    requires number { (b : Body) × (slice_get bodies.now number ≡ Some b) × (b.method ≡ m) }
    ensures { ArePointsOf bodies.now m result.now }
{
    body_at(bodies, number).shape.points.items()
}

/// The points of a method; none where it has no body.
pub fn points_of(bodies: &[Body], m: MethodId) -> &[Point]
    requires order { RiseBy nat_cmp (λ (b : Body). b.method.0) bodies.now }
    requires ordered { All IsInOrder bodies.now }
    ensures { ArePointsOf bodies.now m result.now }
{
    match find_body(bodies, m) {
        None => &[],
        Some(number) => points_at(bodies, m, number),
    }
}
