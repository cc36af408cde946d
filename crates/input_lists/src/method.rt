// The input of one method.
ghost use Rattle.std.specs.Prelude.{◌≡◌, ◌⊎◌, ◌<◌, ◌↔◌, AllPairs, IfOk, IsTrue, length};
ghost use Rattle.dep_form.specs.Constraints.{IsRoot, SystemHolds};
ghost use Rattle.dep_form.specs.Graphs.{EdgeBefore};
ghost use Rattle.dep_form.specs.PointsTo.{Reached};
ghost use Rattle.fact_form.specs.FactTables.{UseBefore};
ghost use Rattle.edge_tables.specs.Rows.{IsGoodRow};
ghost use Rattle.input_tables.specs.Control.{IsControlOf};
ghost use Rattle.input_tables.specs.Uses.{AreGetsOf, ArePutsOf};
ghost use Rattle.input_lists.specs.Inputs.{AreDirectOf, HasRow, IsInputBy};
ghost use Rattle.input_lists.specs.Scenes.{IsScene};

use crate::scene::Scene;
use dep_form::input::MethodInput;
use dep_form::node::{Edge, Node};
use edge_tables::{Row, add_edges};
use input_tables::{Control, control_of, edges_in_order, gets, operand_edges, puts};
use method_facts::entries::{is_same, root_of};
use method_facts::solved::is_reached;
use slicer_ids::ids::{LocId, MethodId, NoMemory, NodeId};
use slicer_ids::list::List;
use std::alloc::Global;

// The edges that end in the nodes of a method, but those that a location flows along within it.
fn direct_edges(
    alloc: Global,
    scene: &Scene<'_>,
    row: &Row<'_>,
    m: MethodId,
) -> Result<Vec<Edge>, NoMemory>
    requires scene { IsScene scene.now }
    requires row { HasRow scene.now m row.now.first row.now.nodes.now }
    ensures order { IfOk result (λ v. AllPairs EdgeBefore v.items) }
    ensures members { IfOk result (λ v. AreDirectOf scene.now m v.items) }
{
    let mut edges = operand_edges(alloc, scene.edges.bodies, m, row.first, row.nodes)?;
    add_edges(&mut edges, &scene.edges, scene.links, m)?;
    Ok(edges_in_order(edges))
}

// A row that is kept.
fn copied(alloc: Global, nodes: &[Node]) -> Result<Vec<Node>, NoMemory>
    ensures { IfOk result (λ v. v.items ≡ nodes.now) }
{
    let copy = Vec::from_slice(alloc, nodes)?;
    Ok(copy)
}

// The input of these parts.
fn made(
    scene: &Scene<'_>,
    m: MethodId,
    first: u32,
    nodes: Vec<Node>,
    control: Control,
    direct: Vec<Edge>,
    puts: Vec<(u32, NodeId, LocId)>,
    gets: Vec<(u32, NodeId, LocId)>,
) -> MethodInput
    requires scene { IsScene scene.now }
    requires row { HasRow scene.now m first nodes.items }
    requires control { IsControlOf scene.now.edges.bodies.now m control.points control.flow.items }
    requires direct { AreDirectOf scene.now m direct.items }
    requires direct_order { AllPairs EdgeBefore direct.items }
    requires puts { ArePutsOf scene.now.edges.bodies.now scene.now.effects.system.now scene.now.effects.effects.now m first nodes.items puts.items }
    requires puts_order { AllPairs UseBefore puts.items }
    requires gets { AreGetsOf scene.now.edges.bodies.now scene.now.effects.system.now scene.now.effects.effects.now m first nodes.items gets.items }
    requires gets_order { AllPairs UseBefore gets.items }
    ensures { IsInputBy scene.now m result }
{
    let Control { points, flow } = control;
    MethodInput {
        method: m,
        first: NodeId(first),
        nodes: List::from_vec(nodes),
        points,
        flow: List::from_vec(flow),
        direct: List::from_vec(direct),
        puts: List::from_vec(puts),
        gets: List::from_vec(gets),
    }
}

fn puts_of(
    alloc: Global,
    scene: &Scene<'_>,
    m: MethodId,
    first: u32,
    row: &[Node],
) -> Result<Vec<(u32, NodeId, LocId)>, NoMemory>
    requires scene { IsScene scene.now }
    requires row { IsGoodRow first row.now }
    ensures order { IfOk result (λ v. AllPairs UseBefore v.items) }
    ensures members { IfOk result (λ v. ArePutsOf scene.now.edges.bodies.now scene.now.effects.system.now scene.now.effects.effects.now m first row.now v.items) }
{
    puts(
        alloc,
        &scene.effects,
        scene.heap,
        scene.edges.bodies,
        m,
        first,
        row,
    )
}

fn gets_of(
    alloc: Global,
    scene: &Scene<'_>,
    m: MethodId,
    first: u32,
    row: &[Node],
) -> Result<Vec<(u32, NodeId, LocId)>, NoMemory>
    requires scene { IsScene scene.now }
    requires row { IsGoodRow first row.now }
    ensures order { IfOk result (λ v. AllPairs UseBefore v.items) }
    ensures members { IfOk result (λ v. AreGetsOf scene.now.edges.bodies.now scene.now.effects.system.now scene.now.effects.effects.now m first row.now v.items) }
{
    gets(
        alloc,
        &scene.effects,
        scene.heap,
        scene.edges.bodies,
        m,
        first,
        row,
    )
}

/// The input of a method, by its row.
pub fn input_of(
    alloc: Global,
    scene: &Scene<'_>,
    row: &Row<'_>,
    m: MethodId,
) -> Result<MethodInput, NoMemory>
    requires scene { IsScene scene.now }
    requires row { HasRow scene.now m row.now.first row.now.nodes.now }
    ensures { IfOk result (IsInputBy scene.now m) }
{
    let nodes = copied(alloc, row.nodes)?;
    let control = control_of(alloc, scene.edges.bodies, m)?;
    let direct = direct_edges(alloc, scene, row, m)?;
    let puts = puts_of(alloc, scene, m, row.first, row.nodes)?;
    let gets = gets_of(alloc, scene, m, row.first, row.nodes)?;
    Ok(made(scene, m, row.first, nodes, control, direct, puts, gets))
}

/// Whether a method may run, or is the root.
pub fn has_input(scene: &Scene<'_>, m: MethodId) -> bool
    requires scene { IsScene scene.now }
    requires number { m.0 < length scene.now.edges.rows.now }
    ensures { IsTrue result ↔ (SystemHolds scene.now.edges.system.now (Reached m) ⊎ IsRoot scene.now.edges.system.now m) }
{
    if is_same(m, root_of(scene.edges.system)) {
        return true;
    }
    is_reached(scene.edges.solution, m)
}
