// Accesses of locations, in order.
ghost use Rattle.std.specs.Prelude.{◌≡◌, ◌<◌, ◌≤◌, ◌↔◌, ℕ, length, IfOk, Contains, true, false};
ghost use Rattle.std.specs.List.Sorted.{IsPartitionPoint};
ghost use Rattle.std.proofs.Common.{ltb, leb};
ghost use Rattle.slicer_ids.specs.declared.ids.LocId.{LocId};
ghost use Rattle.slicer_ids.specs.declared.ids.NodeId.{NodeId};
ghost use Rattle.method_graph.specs.declared.locations.Access.{Access};
ghost use Rattle.method_graph.specs.Accesses.{access_of, AreByLocation};

use slicer_ids::ids::{LocId, NoMemory, NodeId};
use std::alloc::Global;
use worklists::add;

/// A definition or a use of a location at a point. On entry and on exit the point is 0, and says nothing.
#[derive(Clone, Copy)]
pub struct Access {
    pub location: LocId,
    pub point: u32,
    pub node: NodeId,
}

// The accesses of a list.
fn listed(alloc: Global, accesses: &[(u32, NodeId, LocId)]) -> Result<Vec<Access>, NoMemory>
    ensures { IfOk result (λ v. (x : Access) → Contains v.items x ↔ ((y : ℕ × NodeId × LocId) × Contains accesses.now y × (x ≡ access_of y))) }
{
    let mut all = Vec::new(alloc);
    for access in accesses {
        let next = Access {
            location: access.2,
            point: access.0,
            node: access.1,
        };
        add(&mut all, next)?;
    }
    Ok(all)
}

/// The same accesses in the order of their locations.
pub fn sorted(accesses: Vec<Access>) -> Vec<Access>
    ensures order { AreByLocation result.items }
    ensures same { (x : Access) → Contains result.items x ↔ Contains accesses.items x }
{
    let mut all = accesses;
    all.sort_unstable_by_key(|a| a.location.0);
    all
}

/// The accesses of a list, in the order of locations.
pub fn by_location(
    alloc: Global,
    accesses: &[(u32, NodeId, LocId)],
) -> Result<Vec<Access>, NoMemory>
    ensures order { IfOk result (λ v. AreByLocation v.items) }
    ensures members { IfOk result (λ v. (x : Access) → Contains v.items x ↔ ((y : ℕ × NodeId × LocId) × Contains accesses.now y × (x ≡ access_of y))) }
{
    Ok(sorted(listed(alloc, accesses)?))
}

// How many accesses are of an earlier location.
fn count_before(accesses: &[Access], location: LocId) -> usize
    requires { AreByLocation accesses.now }
    ensures bound { result ≤ length accesses.now }
    ensures point { IsPartitionPoint (λ (x : Access). ltb x.location.0 location.0 ≡ true) (λ (x : Access). ltb x.location.0 location.0 ≡ false) accesses.now result }
{
    accesses.partition_point(|x| x.location.0 < location.0)
}

// How many are of it or an earlier one.
fn count_through(accesses: &[Access], location: LocId) -> usize
    requires { AreByLocation accesses.now }
    ensures bound { result ≤ length accesses.now }
    ensures point { IsPartitionPoint (λ (x : Access). leb x.location.0 location.0 ≡ true) (λ (x : Access). leb x.location.0 location.0 ≡ false) accesses.now result }
{
    accesses.partition_point(|x| x.location.0 <= location.0)
}

/// The accesses of one location, from a list in the order of locations. Found by halving.
pub fn at_location(accesses: &[Access], location: LocId) -> &[Access]
    requires { AreByLocation accesses.now }
    ensures { (x : Access) → Contains result.now x ↔ (Contains accesses.now x × (x.location ≡ location)) }
{
    let low = count_before(accesses, location);
    let high = count_through(accesses, location);
    &accesses[low..high]
}
