// Inputs compared and copied.
ghost use Rattle.std.specs.Prelude.{◌≡◌, ◌↔◌, IfOk, IsTrue};

use dep_form::input::MethodInput;
use dep_form::node::{Edge, Node};
use slicer_ids::ids::{LocId, NoMemory, NodeId};
use slicer_ids::list::List;
use std::alloc::Global;

/// Whether two inputs are equal. It reads both.
pub fn is_same_input(a: &MethodInput, b: &MethodInput) -> bool
    ensures { IsTrue result ↔ (a.now ≡ b.now) }
{
    a.method == b.method
        && a.first == b.first
        && a.points == b.points
        && are_same_nodes(a.nodes.items(), b.nodes.items())
        && are_same_edges(a.direct.items(), b.direct.items())
        && are_same_pairs(a.flow.items(), b.flow.items())
        && are_same_uses(a.puts.items(), b.puts.items())
        && are_same_uses(a.gets.items(), b.gets.items())
}

fn are_same_nodes(a: &[Node], b: &[Node]) -> bool
    ensures { IsTrue result ↔ (a.now ≡ b.now) }
{
    a == b
}

fn are_same_edges(a: &[Edge], b: &[Edge]) -> bool
    ensures { IsTrue result ↔ (a.now ≡ b.now) }
{
    a == b
}

fn are_same_pairs(a: &[(u32, u32)], b: &[(u32, u32)]) -> bool
    ensures { IsTrue result ↔ (a.now ≡ b.now) }
{
    a == b
}

fn are_same_uses(a: &[(u32, NodeId, LocId)], b: &[(u32, NodeId, LocId)]) -> bool
    ensures { IsTrue result ↔ (a.now ≡ b.now) }
{
    a == b
}

/// A copy of an input.
pub fn copy_input(alloc: Global, input: &MethodInput) -> Result<MethodInput, NoMemory>
    ensures { IfOk result (λ copy. copy ≡ input.now) }
{
    Ok(MethodInput {
        method: input.method,
        first: input.first,
        nodes: copy_list(alloc, input.nodes.items())?,
        points: input.points,
        flow: copy_list(alloc, input.flow.items())?,
        direct: copy_list(alloc, input.direct.items())?,
        puts: copy_list(alloc, input.puts.items())?,
        gets: copy_list(alloc, input.gets.items())?,
    })
}

fn copy_list<T: Copy>(alloc: Global, items: &[T]) -> Result<List<T>, NoMemory>
    ensures { IfOk result (λ copy. copy ≡ items.now) }
{
    let copy: Vec<T> = items.iter().copied().collect(alloc)?;
    Ok(List::from_vec(copy))
}
