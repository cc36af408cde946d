// Edges of calls that go outside.
ghost use Rattle.std.specs.Prelude.{◌≡◌, ◌↔◌, ◌<◌, ◌^◌, ℕ, IsTrue, Contains, OnOk, Some, length, slice_get};
ghost use Rattle.dep_form.specs.declared.node.Node.{Node};
ghost use Rattle.dep_form.specs.declared.node.Node.TheVariants.{Argument, Own, Result as ResultNode};
ghost use Rattle.dep_form.specs.declared.node.Label.TheVariants.{Thin};
ghost use Rattle.mod_ref.specs.Gains.{Gains};
ghost use Rattle.worklists.specs.Growth.{FromOne};
ghost use Rattle.edge_tables.specs.Outside.{IsArgumentEdge, IsCallEdge, IsOutsideEdge, IsPassedEdge, IsStatementEdge, OutsideFlow};
ghost use Rattle.edge_tables.specs.Rows.{IsGoodRow, IsLocalEdge};
ghost use Rattle.edge_tables.specs.Scenes.{IsScene};

use crate::between::add_within;
use crate::scene::{Row, Scene};
use dep_form::node::{Edge, Label, Node};
use dep_form::rules::OutsideRule;
use dep_form::system::System;
use input_tables::goes_outside;
use method_facts::calls::find_call;
use slicer_ids::ids::{CallId, MethodId, NoMemory, Statement};

fn rule_of(system: &System, c: CallId) -> &OutsideRule
    requires { c.0 < length system.now.calls }
    ensures { slice_get system.now.outside_rules c.0 ≡ Some result.now }
{
    &system.outside_rules.items()[c.0 as usize]
}

fn is_listed(numbers: &[u8], i: u8) -> bool
    ensures { IsTrue result ↔ Contains numbers.now i }
{
    for n in numbers {
        if *n == i {
            return true;
        }
    }
    false
}

// Adds the edge from an argument to the call, where it is written.
fn add_written(
    edges: &mut Vec<Edge>,
    row: &Row<'_>,
    written: &[u8],
    pc: u16,
    i: u8,
) -> Result<(), NoMemory>
    requires { IsGoodRow row.now.first row.now.nodes.now }
    ensures { OnOk result (Gains edges.old.items edges.new.items (IsPassedEdge row.now.first row.now.nodes.now written.now pc i)) }
{
    if is_listed(written, i) {
        add_within(
            edges,
            row,
            Node::Argument(pc, i),
            Node::Own(pc),
            Label::Thin,
        )
    } else {
        Ok(())
    }
}

// Adds the edges from an argument: to what the call answers, and to the call.
fn add_argument(
    edges: &mut Vec<Edge>,
    row: &Row<'_>,
    written: &[u8],
    pc: u16,
    i: u8,
) -> Result<(), NoMemory>
    requires { IsGoodRow row.now.first row.now.nodes.now }
    ensures { OnOk result (Gains edges.old.items edges.new.items (IsArgumentEdge row.now.first row.now.nodes.now written.now pc i)) }
{
    add_within(
        edges,
        row,
        Node::Argument(pc, i),
        Node::Result(pc),
        Label::Thin,
    )?;
    add_written(edges, row, written, pc, i)
}

// .. where the call goes outside.
fn add_call(
    edges: &mut Vec<Edge>,
    scene: &Scene<'_>,
    row: &Row<'_>,
    c: CallId,
    pc: u16,
    i: u8,
) -> Result<(), NoMemory>
    requires scene { IsScene scene.now }
    requires row { IsGoodRow row.now.first row.now.nodes.now }
    requires call { c.0 < length scene.now.system.now.calls }
    ensures { OnOk result (Gains edges.old.items edges.new.items (IsCallEdge row.now.first row.now.nodes.now scene.now.system.now c pc i)) }
{
    if goes_outside(scene.solution, c) {
        let rule = rule_of(scene.system, c);
        add_argument(edges, row, rule.written.items(), pc, i)
    } else {
        Ok(())
    }
}

// .. where there is a call.
fn add_statement(
    edges: &mut Vec<Edge>,
    scene: &Scene<'_>,
    row: &Row<'_>,
    t: Statement,
    i: u8,
) -> Result<(), NoMemory>
    requires scene { IsScene scene.now }
    requires row { IsGoodRow row.now.first row.now.nodes.now }
    ensures { OnOk result (Gains edges.old.items edges.new.items (IsStatementEdge row.now.first row.now.nodes.now scene.now.system.now t i)) }
{
    match find_call(scene.system.calls.items(), t) {
        None => Ok(()),
        Some(c) => add_call(edges, scene, row, c, t.pc, i),
    }
}

fn argument_of(node: Node) -> Option<(u16, u8)>
    ensures { (pc i : ℕ) → (result ≡ Some (pc, i)) ↔ (node ≡ Argument pc i) }
{
    match node {
        Node::Argument(pc, i) => Some((pc, i)),
        _ => None,
    }
}

fn add_node(
    edges: &mut Vec<Edge>,
    scene: &Scene<'_>,
    row: &Row<'_>,
    m: MethodId,
    node: Node,
) -> Result<(), NoMemory>
    requires scene { IsScene scene.now }
    requires row { IsGoodRow row.now.first row.now.nodes.now }
    ensures { OnOk result (Gains edges.old.items edges.new.items (IsOutsideEdge row.now.first row.now.nodes.now scene.now.system.now m node)) }
{
    match argument_of(node) {
        None => Ok(()),
        Some((pc, i)) => add_statement(edges, scene, row, Statement { method: m, pc }, i),
    }
}

fn add_nodes(
    edges: &mut Vec<Edge>,
    scene: &Scene<'_>,
    row: &Row<'_>,
    m: MethodId,
    nodes: &[Node],
) -> Result<(), NoMemory>
    requires scene { IsScene scene.now }
    requires row { IsGoodRow row.now.first row.now.nodes.now }
    ensures { OnOk result (Gains edges.old.items edges.new.items (FromOne (IsOutsideEdge row.now.first row.now.nodes.now scene.now.system.now m) nodes.now)) }
{
    for node in nodes {
        add_node(edges, scene, row, m, *node)?;
    }
    Ok(())
}

/// Adds the edges of the calls of a method that go outside: from each argument to what the call answers, and from each written one to
/// the call.
pub fn add_outside(
    edges: &mut Vec<Edge>,
    scene: &Scene<'_>,
    row: &Row<'_>,
    m: MethodId,
) -> Result<(), NoMemory>
    requires scene { IsScene scene.now }
    requires row { IsGoodRow row.now.first row.now.nodes.now }
    ensures { OnOk result (Gains edges.old.items edges.new.items (IsLocalEdge row.now.first row.now.nodes.now (OutsideFlow scene.now.system.now m))) }
{
    add_nodes(edges, scene, row, m, row.nodes)
}
