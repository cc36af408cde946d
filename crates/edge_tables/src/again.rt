// Edges of the root: it calls in any order, again and again.
ghost use Rattle.std.specs.Prelude.{◌≡◌, ◌<◌, ◌≤◌, ◌↔◌, ◌^◌, ℕ, IsTrue, OnOk, Some, length};
ghost use Rattle.slicer_ids.specs.declared.ids.LocId.{LocId};
ghost use Rattle.dep_form.specs.declared.node.Node.{Node};
ghost use Rattle.dep_form.specs.declared.node.Node.TheVariants.{HeapArg, HeapResult};
ghost use Rattle.dep_form.specs.declared.node.Label.TheVariants.{Thin};
ghost use Rattle.mod_ref.specs.Gains.{Gains};
ghost use Rattle.worklists.specs.Growth.{FromOne};
ghost use Rattle.worklists.proofs.Growing.{FromBelow};
ghost use Rattle.edge_tables.specs.Again.{AgainFits, AgainFlow, IsAgainEdge, IsPairEdge};
ghost use Rattle.edge_tables.specs.Rows.{IsGoodRow, IsLocalEdge};
ghost use Rattle.edge_tables.specs.Scenes.{IsScene};

use crate::between::add_within;
use crate::scene::{Row, Scene};
use dep_form::node::{Edge, Label, Node};
use method_facts::entries::{is_same, root_of};
use slicer_ids::ids::{LocId, MethodId, NoMemory};

fn changed_of(node: Node) -> Option<(u16, LocId)>
    ensures { (k : ℕ) (n : LocId) → (result ≡ Some (k, n)) ↔ (node ≡ HeapResult k n) }
{
    match node {
        Node::HeapResult(k, n) => Some((k, n)),
        _ => None,
    }
}

// Adds the edge from a location after a call to the same before the call of a number.
fn add_pair(edges: &mut Vec<Edge>, row: &Row<'_>, k: u16, n: LocId, j: u16) -> Result<(), NoMemory>
    requires { IsGoodRow row.now.first row.now.nodes.now }
    ensures { OnOk result (Gains edges.old.items edges.new.items (IsPairEdge row.now.first row.now.nodes.now k n j)) }
{
    add_within(
        edges,
        row,
        Node::HeapResult(k, n),
        Node::HeapArg(j, n),
        Label::Thin,
    )
}

// .. before each of so many calls.
fn add_pairs(
    edges: &mut Vec<Edge>,
    row: &Row<'_>,
    k: u16,
    n: LocId,
    calls: usize,
) -> Result<(), NoMemory>
    requires row { IsGoodRow row.now.first row.now.nodes.now }
    requires calls { calls ≤ 65536 }
    ensures { OnOk result (Gains edges.old.items edges.new.items (FromBelow (IsPairEdge row.now.first row.now.nodes.now k n) calls)) }
{
    for j in 0..calls {
        add_pair(edges, row, k, n, j as u16)?;
    }
    Ok(())
}

fn add_node(edges: &mut Vec<Edge>, row: &Row<'_>, calls: usize, node: Node) -> Result<(), NoMemory>
    requires row { IsGoodRow row.now.first row.now.nodes.now }
    requires calls { calls ≤ 65536 }
    ensures { OnOk result (Gains edges.old.items edges.new.items (IsAgainEdge row.now.first row.now.nodes.now calls node)) }
{
    match changed_of(node) {
        None => Ok(()),
        Some((k, n)) => add_pairs(edges, row, k, n, calls),
    }
}

fn add_nodes(
    edges: &mut Vec<Edge>,
    row: &Row<'_>,
    calls: usize,
    nodes: &[Node],
) -> Result<(), NoMemory>
    requires row { IsGoodRow row.now.first row.now.nodes.now }
    requires calls { calls ≤ 65536 }
    ensures { OnOk result (Gains edges.old.items edges.new.items (FromOne (IsAgainEdge row.now.first row.now.nodes.now calls) nodes.now)) }
{
    for node in nodes {
        add_node(edges, row, calls, *node)?;
    }
    Ok(())
}

/// Adds the edges of the root from what one of its calls changes to what a call uses, where the method is the root.
pub fn add_again(
    edges: &mut Vec<Edge>,
    scene: &Scene<'_>,
    row: &Row<'_>,
    m: MethodId,
) -> Result<(), NoMemory>
    requires scene { IsScene scene.now }
    requires row { IsGoodRow row.now.first row.now.nodes.now }
    requires calls { AgainFits scene.now m row.now.nodes.now }
    ensures { OnOk result (Gains edges.old.items edges.new.items (IsLocalEdge row.now.first row.now.nodes.now (AgainFlow scene.now.system.now m))) }
{
    if is_same(m, root_of(scene.system)) {
        add_nodes(edges, row, scene.entries.len(), row.nodes)
    } else {
        Ok(())
    }
}
