// Definitions that reach the slots of each point.
ghost use Rattle.std.specs.Prelude.{◌≡◌, ◌<◌, ◌≤◌, ◌*◌, ℕ, [], length, All, IfOk, OnOk};
ghost use Rattle.class_form.specs.Reaching.{IsFlow};
ghost use Rattle.class_form.specs.Reaches.{IsReachOf};
ghost use Rattle.worklists.specs.Growth.{Grows, FromOne};
ghost use Rattle.worklist.specs.Worklists.{IsWorklist};
ghost use Rattle.reaching_defs.specs.Points.{IsIndex};
ghost use Rattle.reaching_defs.specs.Starts.{IsStart};
ghost use Rattle.reaching_defs.specs.Facts.{IsFactOf};
ghost use Rattle.reaching_defs.specs.Methods.{IsMethod};

use crate::points::{deepest, index_of};
use crate::spread::{Fact, Method, put_facts};
use crate::starts::{Start, starts_of};
use crate::table::table;
use class_form::body::Shape;
use class_form::reach::Reach;
use slicer_ids::ids::NoMemory;
use std::alloc::Global;
use worklist::Worklist;

// All facts, by definition.
fn facts_of(
    alloc: Global,
    method: &Method<'_>,
    starts: &[Start],
    found: &mut Worklist,
) -> Result<Vec<Fact>, NoMemory>
    requires method { IsMethod method.now }
    requires room { length method.now.shape.now.points * method.now.depth ≤ length found.old.marks.items }
    requires set { IsWorklist found.old.marks.items found.old.items.items }
    requires none { found.old.items.items ≡ [] }
    requires starts { All (λ x. IsStart method.now.shape.now x.slot x.def) starts.now }
    ensures { IfOk result (λ v. Grows [] v.items (FromOne (IsFactOf method.now.shape.now) starts.now)) }
{
    let mut facts = Vec::new(alloc);
    for start in starts {
        put_facts(method, start.slot, start.def, found, &mut facts)?;
    }
    Ok(facts)
}

// The facts of each definition, and of no other.
fn all_facts(
    alloc: Global,
    shape: &Shape,
    starts: &[Start],
    index: &[usize],
) -> Result<Vec<Fact>, NoMemory>
    requires flow { IsFlow shape.now }
    requires index { IsIndex shape.now.points index.now }
    requires starts { All (λ x. IsStart shape.now x.slot x.def) starts.now }
    ensures { IfOk result (λ v. Grows [] v.items (FromOne (IsFactOf shape.now) starts.now)) }
{
    let points = shape.points.items();
    let depth = deepest(points);
    let Some(size) = points.len().checked_mul(depth) else {
        return Err(NoMemory);
    };
    let mut found = Worklist::new(alloc, size)?;
    let method = Method {
        shape,
        index,
        depth,
    };
    let facts = facts_of(alloc, &method, starts, &mut found)?;
    Ok(facts)
}

/// Which definitions hold at each reachable pc and in each slot: classic reaching definitions, where the arguments, the values
/// that instructions make and the exceptions that handlers are given are the definitions, and a store to a slot kills those that
/// it held.
///
/// Each definition is followed on its own from where it first stands, over those places alone where it holds. So the time grows
/// with the number of definitions that hold at the places together, times how many ways control takes from a point, and the
/// logarithm of that number for the order at the end; the memory grows with that number, and with the points times the greatest
/// depth of the stack.
pub fn reaching(alloc: Global, shape: &Shape) -> Result<Reach, NoMemory>
    requires { IsFlow shape.now }
    ensures { IfOk result (IsReachOf shape.now) }
{
    let points = shape.points.items();
    let index = index_of(alloc, points)?;
    let by_pc = index.as_slice();
    let starts = starts_of(alloc, shape, by_pc.len())?;
    let facts = all_facts(alloc, shape, starts.as_slice(), by_pc)?;
    let reach = table(alloc, facts)?;
    Ok(reach)
}
