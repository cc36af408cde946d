// The nodes that produce the object or array of an access.
ghost use Rattle.std.specs.Prelude.{◌≡◌, ◌↔◌, ◌++◌, ◌∷◌, [], AllPairs, Contains, IfOk, IsTrue, OnOk, map};
ghost use Rattle.slicer_ids.specs.Sets.{IsOrderedListOf};
ghost use Rattle.slicer_ids.specs.declared.ids.NodeId.{NodeId};
ghost use Rattle.class_form.specs.declared.body.SlotUse.{SlotUse};
ghost use Rattle.dep_form.specs.declared.node.Edge.{Edge};
ghost use Rattle.dep_form.specs.WithinFacts.{NodeBefore};
ghost use Rattle.mod_ref.specs.Gains.{Gains};
ghost use Rattle.worklists.specs.Growth.{FromOne};
ghost use Rattle.access_tables.specs.Objects.{IsObjectEdge, IsObjectStart, start_of};
ghost use Rattle.access_tables.specs.Scenes.{IsScene};

use crate::scene::Scene;
use class_form::body::{Point, SlotUse};
use dep_form::node::Edge;
use input_tables::add_use;
use slicer_ids::ids::{NoMemory, NodeId};
use std::alloc::Global;

fn is_object(slot_use: SlotUse) -> bool
    ensures { IsTrue result ↔ (slot_use.operand ≡ 0) }
{
    slot_use.operand == 0
}

// Adds the edges to a slot of the first operand.
fn add_object(
    scene: &Scene<'_>,
    point: &Point,
    slot_use: SlotUse,
    edges: &mut Vec<Edge>,
) -> Result<(), NoMemory>
    requires { IsScene scene.now }
    ensures { OnOk result (Gains edges.old.items edges.new.items (IsObjectEdge scene.now point.now slot_use)) }
{
    if is_object(slot_use) {
        add_use(&scene.ground, scene.method.body, point, slot_use, edges)
    } else {
        Ok(())
    }
}

fn add_objects(scene: &Scene<'_>, point: &Point, edges: &mut Vec<Edge>) -> Result<(), NoMemory>
    requires { IsScene scene.now }
    ensures { OnOk result (Gains edges.old.items edges.new.items (FromOne (IsObjectEdge scene.now point.now) point.now.uses)) }
{
    for slot_use in point.uses.items() {
        add_object(scene, point, *slot_use, edges)?;
    }
    Ok(())
}

fn push(nodes: &mut Vec<NodeId>, n: NodeId) -> Result<(), NoMemory>
    ensures { OnOk result (nodes.new.items ≡ nodes.old.items ++ n ∷ []) }
{
    match nodes.push(n) {
        Ok(()) => Ok(()),
        Err(_) => Err(NoMemory),
    }
}

fn push_start(nodes: &mut Vec<NodeId>, edge: &Edge) -> Result<(), NoMemory>
    ensures { OnOk result (nodes.new.items ≡ nodes.old.items ++ start_of edge.now ∷ []) }
{
    push(nodes, edge.from)
}

// Where edges start.
fn starts_of(alloc: Global, edges: &[Edge]) -> Result<Vec<NodeId>, NoMemory>
    ensures { IfOk result (λ v. v.items ≡ map start_of edges.now) }
{
    let mut starts = Vec::new(alloc);
    for edge in edges {
        push_start(&mut starts, edge)?;
    }
    Ok(starts)
}

fn in_order(nodes: Vec<NodeId>) -> Vec<NodeId>
    ensures order { AllPairs NodeBefore result.items }
    ensures members { (n : NodeId) → Contains result.items n ↔ Contains nodes.items n }
{
    let mut all = nodes;
    all.sort_unstable();
    all.dedup();
    all
}

/// The nodes of the definitions that hold in the first operand of the statement at a point, in order.
pub fn objects_at(alloc: Global, scene: &Scene<'_>, point: &Point) -> Result<Vec<NodeId>, NoMemory>
    requires { IsScene scene.now }
    ensures { IfOk result (λ v. IsOrderedListOf NodeBefore v.items (IsObjectStart scene.now point.now)) }
{
    let mut edges = Vec::new(alloc);
    add_objects(scene, point, &mut edges)?;
    let starts = starts_of(alloc, edges.as_slice())?;
    Ok(in_order(starts))
}
