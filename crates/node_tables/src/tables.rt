// The rows of all methods, and of the root.
ghost use Rattle.std.specs.Prelude.{◌≡◌, ◌<◌, ◌++◌, ◌∷◌, [], IfOk, OnOk, Some, length, map, slice_get};
ghost use Rattle.slicer_ids.specs.Sets.{IsOrderedListOf};
ghost use Rattle.dep_form.specs.Nodes.{ComesBefore};
ghost use Rattle.node_tables.specs.Rows.{AreRows, AtEntryNumber, AtReached, AtRoot};
ghost use Rattle.node_tables.specs.Scenes.{IsScene};
ghost use Rattle.node_tables.specs.Segments.{AddsNodes};

use crate::rows::{add_entry_call, method_nodes};
use crate::scene::Scene;
use dep_form::node::Node;
use method_facts::solved::is_reached;
use slicer_ids::ids::{MethodId, NoMemory};
use std::alloc::Global;

/// Whether a method answers something.
pub fn answers(scene: &Scene<'_>, m: MethodId) -> bool
    requires { m.0 < length scene.now.answering.now }
    ensures { slice_get scene.now.answering.now m.0 ≡ Some result }
{
    scene.answering[m.0 as usize]
}

fn entry_at(scene: &Scene<'_>, k: usize) -> MethodId
    requires { k < length scene.now.entries.now }
    ensures { slice_get scene.now.entries.now k ≡ Some result }
{
    scene.entries[k]
}

fn given_at(scene: &Scene<'_>, k: usize) -> bool
    requires { k < length scene.now.given.now }
    ensures { slice_get scene.now.given.now k ≡ Some result }
{
    scene.given[k]
}

/// The nodes of a method, in order; none where it can't run.
pub fn method_row(alloc: Global, scene: &Scene<'_>, m: MethodId) -> Result<Vec<Node>, NoMemory>
    requires scene { IsScene scene.now }
    requires m { m.0 < length scene.now.system.now.methods }
    ensures { IfOk result (λ ns. IsOrderedListOf ComesBefore ns.items (AtReached scene.now m)) }
{
    if is_reached(scene.solution, m) {
        method_nodes(alloc, scene, m, answers(scene, m))
    } else {
        Ok(Vec::new(alloc))
    }
}

/// Adds the nodes of the root's call of this number.
pub fn add_entry_number(scene: &Scene<'_>, nodes: &mut Vec<Node>, k: usize) -> Result<(), NoMemory>
    requires scene { IsScene scene.now }
    requires k { k < length scene.now.entries.now }
    ensures { OnOk result (AddsNodes nodes.old.items nodes.new.items (AtEntryNumber scene.now k)) }
{
    add_entry_call(
        scene,
        nodes,
        k as u16,
        entry_at(scene, k),
        given_at(scene, k),
    )
}

/// The nodes of the root, in order.
pub fn root_row(alloc: Global, scene: &Scene<'_>) -> Result<Vec<Node>, NoMemory>
    requires { IsScene scene.now }
    ensures { IfOk result (λ ns. IsOrderedListOf ComesBefore ns.items (AtRoot scene.now)) }
{
    let mut nodes = Vec::new(alloc);
    for k in 0..scene.entries.len() {
        add_entry_number(scene, &mut nodes, k)?;
    }
    Ok(nodes)
}

/// The rows of all methods, and last that of the root.
pub fn node_rows(alloc: Global, scene: &Scene<'_>) -> Result<Vec<Vec<Node>>, NoMemory>
    requires { IsScene scene.now }
    ensures { IfOk result (λ rows. AreRows scene.now (map (λ row. row.items) rows.items)) }
{
    let mut rows = Vec::new(alloc);
    for m in 0..scene.system.methods.items().len() {
        let row = method_row(alloc, scene, MethodId(m as u32))?;
        push_row(&mut rows, row)?;
    }
    let last = root_row(alloc, scene)?;
    push_row(&mut rows, last)?;
    Ok(rows)
}

fn push_row(rows: &mut Vec<Vec<Node>>, row: Vec<Node>) -> Result<(), NoMemory>
    ensures { OnOk result (rows.new.items ≡ rows.old.items ++ row ∷ []) }
{
    match rows.push(row) {
        Ok(()) => Ok(()),
        Err(_) => Err(NoMemory),
    }
}
