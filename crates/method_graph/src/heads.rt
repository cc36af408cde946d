// What locations are on entry and on exit.
ghost use Rattle.std.specs.Prelude.{◌≡◌, ◌<◌, ◌≤◌, ◌+◌, ◌^◌, ◌↔◌, ℕ, length, slice_get, Some, IfOk, OnOk, Contains};
ghost use Rattle.worklists.specs.Growth.{Grows};
ghost use Rattle.dep_form.specs.declared.node.Node.{Node};
ghost use Rattle.dep_form.specs.declared.node.Node.TheVariants.{HeapIn, HeapOut};
ghost use Rattle.method_graph.specs.declared.locations.Access.{Access};
ghost use Rattle.method_graph.specs.Accesses.{AreByLocation, IsHead};

use crate::locations::{Access, sorted};
use dep_form::node::Node;
use slicer_ids::ids::{LocId, NoMemory, NodeId};
use std::alloc::Global;
use worklists::add;

fn head(location: LocId, number: u32) -> Access
    ensures { (result.location ≡ location) × (result.node.0 ≡ number) × (result.point ≡ 0) }
{
    Access {
        location,
        point: 0,
        node: NodeId(number),
    }
}

// Adds a node that is a location on entry.
fn add_entry(entries: &mut Vec<Access>, node: Node, number: u32) -> Result<(), NoMemory>
    ensures { OnOk result (Grows entries.old.items entries.new.items (λ x. (node ≡ HeapIn x.location) × (x.node.0 ≡ number) × (x.point ≡ 0))) }
{
    match node {
        Node::HeapIn(location) => add(entries, head(location, number)),
        _ => Ok(()),
    }
}

// Adds a node that is a location on exit.
fn add_exit(exits: &mut Vec<Access>, node: Node, number: u32) -> Result<(), NoMemory>
    ensures { OnOk result (Grows exits.old.items exits.new.items (λ x. (node ≡ HeapOut x.location) × (x.node.0 ≡ number) × (x.point ≡ 0))) }
{
    match node {
        Node::HeapOut(location) => add(exits, head(location, number)),
        _ => Ok(()),
    }
}

fn list_entries(alloc: Global, first: u32, nodes: &[Node]) -> Result<Vec<Access>, NoMemory>
    requires { first + length nodes.now ≤ 2 ^ 32 }
    ensures { IfOk result (λ v. (x : Access) → Contains v.items x ↔ IsHead (λ l. HeapIn l) first nodes.now x) }
{
    let mut entries = Vec::new(alloc);
    for k in 0..nodes.len() {
        add_entry(&mut entries, nodes[k], first + k as u32)?;
    }
    Ok(entries)
}

fn list_exits(alloc: Global, first: u32, nodes: &[Node]) -> Result<Vec<Access>, NoMemory>
    requires { first + length nodes.now ≤ 2 ^ 32 }
    ensures { IfOk result (λ v. (x : Access) → Contains v.items x ↔ IsHead (λ l. HeapOut l) first nodes.now x) }
{
    let mut exits = Vec::new(alloc);
    for k in 0..nodes.len() {
        add_exit(&mut exits, nodes[k], first + k as u32)?;
    }
    Ok(exits)
}

/// The locations on entry, in their order.
pub fn entries_of(alloc: Global, first: u32, nodes: &[Node]) -> Result<Vec<Access>, NoMemory>
    requires { first + length nodes.now ≤ 2 ^ 32 }
    ensures order { IfOk result (λ v. AreByLocation v.items) }
    ensures members { IfOk result (λ v. (x : Access) → Contains v.items x ↔ IsHead (λ l. HeapIn l) first nodes.now x) }
{
    Ok(sorted(list_entries(alloc, first, nodes)?))
}

/// The locations on exit, in their order.
pub fn exits_of(alloc: Global, first: u32, nodes: &[Node]) -> Result<Vec<Access>, NoMemory>
    requires { first + length nodes.now ≤ 2 ^ 32 }
    ensures order { IfOk result (λ v. AreByLocation v.items) }
    ensures members { IfOk result (λ v. (x : Access) → Contains v.items x ↔ IsHead (λ l. HeapOut l) first nodes.now x) }
{
    Ok(sorted(list_exits(alloc, first, nodes)?))
}
