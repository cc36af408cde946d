// The points of a method by their pc.
ghost use Rattle.std.specs.Prelude.{◌<◌, ◌≤◌, ◌≡◌, ◌⊎◌, ℕ, Some, All, AllPairs, IfOk, length, slice_get};
ghost use Rattle.reaching_defs.specs.Points.{IsIndex};

use class_form::body::Point;
use slicer_ids::ids::NoMemory;
use std::alloc::Global;

fn larger(a: usize, b: usize) -> usize
    ensures first { a ≤ result }
    ensures second { b ≤ result }
    ensures one { (result ≡ a) ⊎ (result ≡ b) }
{
    if a < b { b } else { a }
}

// A number above all pcs.
fn end_of(points: &[Point]) -> usize
    ensures within { All (λ p. p.pc < result) points.now }
    ensures small { result ≤ 65536 }
{
    let mut end = 0;
    for point in points {
        end = larger(end, point.pc as usize + 1);
    }
    end
}

/// A number of slots that the stack has nowhere more of, and at least 1.
pub fn deepest(points: &[Point]) -> usize
    ensures within { All (λ p. p.depth ≤ result) points.now }
    ensures some { 0 < result }
    ensures small { result ≤ 65535 }
{
    let mut depth = 1;
    for point in points {
        depth = larger(depth, point.depth as usize);
    }
    depth
}

/// The index of the point at each pc.
pub fn index_of(alloc: Global, points: &[Point]) -> Result<Vec<usize>, NoMemory>
    requires { AllPairs (λ p q. p.pc < q.pc) points.now }
    ensures index { IfOk result (λ v. IsIndex points.now v.items) }
    ensures small { IfOk result (λ v. length v.items ≤ 65536) }
{
    let Ok(mut index) = vec![in alloc; 0usize; end_of(points)] else {
        return Err(NoMemory);
    };
    for (k, point) in points.iter().enumerate() {
        index[point.pc as usize] = k;
    }
    Ok(index)
}
