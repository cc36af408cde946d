// Definitions and uses of locations, by the numbers of points and nodes.
ghost use Rattle.std.specs.Prelude.{◌≡◌, ◌<◌, ◌≤◌, ◌+◌, ◌^◌, ◌↔◌, ◌++◌, ◌∷◌, [], ℕ, AllPairs, Contains, IfOk, OnOk, Some, length, map};
ghost use Rattle.std.specs.Ordering.{nat_cmp};
ghost use Rattle.slicer_ids.specs.declared.ids.LocId.{LocId};
ghost use Rattle.slicer_ids.specs.declared.ids.NodeId.{NodeId};
ghost use Rattle.class_form.specs.declared.body.Point.{Point};
ghost use Rattle.dep_form.specs.Nodes.{ComesBefore};
ghost use Rattle.dep_form.specs.Orders.{RiseBy};
ghost use Rattle.fact_form.specs.FactTables.{UseBefore};
ghost use Rattle.mod_ref.specs.Gains.{Gains};
ghost use Rattle.input_tables.specs.Uses.{IsBefore, IsFoundUse, IsPlacedUse, IsUseAt, triple_of, use_of};

use crate::places::place_in;
use crate::points::point_of;
use class_form::body::Point;
use dep_form::node::Node;
use slicer_ids::ids::{LocId, NoMemory, NodeId};
use std::alloc::Global;

/// A node defines, or uses, a location at a point.
#[derive(Clone, Copy, PartialEq, Eq, PartialOrd, Ord)]
pub struct Use {
    pub point: u32,
    pub node: NodeId,
    pub location: LocId,
}

fn push(uses: &mut Vec<Use>, point: u32, node: u32, location: LocId) -> Result<(), NoMemory>
    ensures { OnOk result (Gains uses.old.items uses.new.items (λ x. x ≡ use_of point node location)) }
{
    match uses.push(Use {
        point,
        node: NodeId(node),
        location,
    }) {
        Ok(()) => Ok(()),
        Err(_) => Err(NoMemory),
    }
}

// Adds a use at a point, where there is a node.
fn add_placed(
    first: u32,
    point: u32,
    place: Option<u32>,
    location: LocId,
    uses: &mut Vec<Use>,
) -> Result<(), NoMemory>
    requires { (i : ℕ) → place ≡ Some i → first + i < 2 ^ 32 }
    ensures { OnOk result (Gains uses.old.items uses.new.items (IsPlacedUse first point place location)) }
{
    match place {
        None => Ok(()),
        Some(i) => push(uses, point, first + i, location),
    }
}

// Adds a use, where there are a point and a node.
fn add_found(
    first: u32,
    point: Option<u32>,
    place: Option<u32>,
    location: LocId,
    uses: &mut Vec<Use>,
) -> Result<(), NoMemory>
    requires { (i : ℕ) → place ≡ Some i → first + i < 2 ^ 32 }
    ensures { OnOk result (Gains uses.old.items uses.new.items (IsFoundUse first point place location)) }
{
    match point {
        None => Ok(()),
        Some(q) => add_placed(first, q, place, location, uses),
    }
}

/// Adds a use of a node at a program counter, where control reaches it and the row has the node.
pub fn add_use(
    points: &[Point],
    first: u32,
    row: &[Node],
    pc: u16,
    node: Node,
    location: LocId,
    uses: &mut Vec<Use>,
) -> Result<(), NoMemory>
    requires order { RiseBy nat_cmp (λ (t : Point). t.pc) points.now }
    requires few { length points.now < 2 ^ 32 }
    requires row { AllPairs ComesBefore row.now }
    requires small { length row.now < 2 ^ 32 }
    requires numbers { first + length row.now ≤ 2 ^ 32 }
    ensures { OnOk result (Gains uses.old.items uses.new.items (IsUseAt points.now first row.now pc node location)) }
{
    let point = point_of(points, pc);
    let place = place_in(row, node);
    add_found(first, point, place, location, uses)
}

fn in_order(uses: Vec<Use>) -> Vec<Use>
    ensures order { AllPairs IsBefore result.items }
    ensures members { (x : Use) → Contains result.items x ↔ Contains uses.items x }
{
    let mut all = uses;
    all.sort_unstable();
    all.dedup();
    all
}

fn push_triple(triples: &mut Vec<(u32, NodeId, LocId)>, x: Use) -> Result<(), NoMemory>
    ensures { OnOk result (triples.new.items ≡ triples.old.items ++ triple_of x ∷ []) }
{
    match triples.push((x.point, x.node, x.location)) {
        Ok(()) => Ok(()),
        Err(_) => Err(NoMemory),
    }
}

fn triples(alloc: Global, uses: &[Use]) -> Result<Vec<(u32, NodeId, LocId)>, NoMemory>
    ensures { IfOk result (λ v. v.items ≡ map triple_of uses.now) }
{
    let mut all = Vec::new(alloc);
    for x in uses {
        push_triple(&mut all, *x)?;
    }
    Ok(all)
}

/// Uses as triples, in order and once each.
pub fn listed(alloc: Global, uses: Vec<Use>) -> Result<Vec<(u32, NodeId, LocId)>, NoMemory>
    ensures order { IfOk result (λ v. AllPairs UseBefore v.items) }
    ensures members { IfOk result (λ v. (q : ℕ) (x : NodeId) (n : LocId) → Contains v.items (q, x, n) ↔ Contains uses.items (use_of q x.0 n)) }
{
    let all = in_order(uses);
    triples(alloc, all.as_slice())
}
