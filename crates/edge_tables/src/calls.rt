// Edges into the methods that are called, and back.
ghost use Rattle.std.specs.Prelude.{◌≡◌, ◌<◌, ◌↔◌, ◌^◌, true, false, IfNone, IfSome, OnOk, Some, length, slice_get};
ghost use Rattle.std.specs.Global.{Vec};
ghost use Rattle.dep_form.specs.declared.node.Node.{Node};
ghost use Rattle.dep_form.specs.Nodes.{is_exit, is_formal};
ghost use Rattle.mod_ref.specs.Gains.{Gains};
ghost use Rattle.worklists.specs.Growth.{FromOne};
ghost use Rattle.edge_tables.specs.Calls.{ComesBack, GoesIn, IntoFlow, BackFlow, IsBackEdge, IsBackLinkEdge, IsExitEdge, IsFormalEdge, IsIntoEdge, IsIntoLinkEdge};
ghost use Rattle.edge_tables.specs.Links.{AreLinks};
ghost use Rattle.edge_tables.specs.Rows.{IsFlowEdge, IsGoodRow, IsRow};
ghost use Rattle.edge_tables.specs.Scenes.{IsScene};

use crate::between::add_between;
use crate::links::{Link, of_method};
use crate::rows::{exits_of, formals_of, row_of};
use crate::scene::{Row, Scene};
use dep_form::node::{Edge, Label, Node};
use slicer_ids::ids::{MethodId, NoMemory};

// The row of a method; none where it has no number.
fn find_row<'a>(scene: &Scene<'a>, m: MethodId) -> Option<Row<'a>>
    requires { IsScene scene.now }
    ensures found { IfSome result (λ row. IsRow scene.now.rows.now scene.now.firsts.now m row.first row.nodes.now × IsGoodRow row.first row.nodes.now) }
    ensures missed { IfNone result ((row : Vec Node) → slice_get scene.now.rows.now m.0 ≡ Some row → ⊥) }
{
    if (m.0 as usize) < scene.rows.len() {
        Some(row_of(scene.rows, scene.firsts, m))
    } else {
        None
    }
}

// The caller's node of what goes into a formal.
fn node_before(pc: u16, formal: Node) -> Option<Node>
    ensures { (k : Node) → (result ≡ Some k) ↔ GoesIn pc k formal }
{
    match formal {
        Node::Formal(i) => Some(Node::Argument(pc, i)),
        Node::HeapIn(n) => Some(Node::HeapArg(pc, n)),
        _ => None,
    }
}

// The caller's node of what comes back from an exit.
fn node_after(pc: u16, exit: Node) -> Option<Node>
    ensures { (j : Node) → (result ≡ Some j) ↔ ComesBack pc exit j }
{
    match exit {
        Node::Return => Some(Node::Result(pc)),
        Node::Thrown => Some(Node::Exception(pc)),
        Node::HeapOut(n) => Some(Node::HeapResult(pc, n)),
        _ => None,
    }
}

fn add_formal(
    edges: &mut Vec<Edge>,
    from: &Row<'_>,
    to: &Row<'_>,
    link: Link,
    formal: Node,
) -> Result<(), NoMemory>
    requires from { IsGoodRow from.now.first from.now.nodes.now }
    requires to { IsGoodRow to.now.first to.now.nodes.now }
    ensures { OnOk result (Gains edges.old.items edges.new.items (IsFormalEdge from.now.first from.now.nodes.now to.now.first to.now.nodes.now link formal)) }
{
    match node_before(link.pc, formal) {
        None => Ok(()),
        Some(k) => add_between(edges, from, k, to, formal, Label::Call(link.number)),
    }
}

fn add_formals(
    edges: &mut Vec<Edge>,
    from: &Row<'_>,
    to: &Row<'_>,
    link: Link,
    formals: &[Node],
) -> Result<(), NoMemory>
    requires from { IsGoodRow from.now.first from.now.nodes.now }
    requires to { IsGoodRow to.now.first to.now.nodes.now }
    ensures { OnOk result (Gains edges.old.items edges.new.items (FromOne (IsFormalEdge from.now.first from.now.nodes.now to.now.first to.now.nodes.now link) formals.now)) }
{
    for formal in formals {
        add_formal(edges, from, to, link, *formal)?;
    }
    Ok(())
}

// Adds the edges of one call into the method.
fn add_link_into(
    edges: &mut Vec<Edge>,
    scene: &Scene<'_>,
    to: &Row<'_>,
    link: Link,
) -> Result<(), NoMemory>
    requires scene { IsScene scene.now }
    requires to { IsGoodRow to.now.first to.now.nodes.now }
    ensures { OnOk result (Gains edges.old.items edges.new.items (IsIntoLinkEdge scene.now.rows.now scene.now.firsts.now to.now.first to.now.nodes.now link)) }
{
    match find_row(scene, link.caller) {
        None => Ok(()),
        Some(from) => add_formals(edges, &from, to, link, formals_of(to.nodes)),
    }
}

fn add_links_into(
    edges: &mut Vec<Edge>,
    scene: &Scene<'_>,
    to: &Row<'_>,
    links: &[Link],
) -> Result<(), NoMemory>
    requires scene { IsScene scene.now }
    requires to { IsGoodRow to.now.first to.now.nodes.now }
    ensures { OnOk result (Gains edges.old.items edges.new.items (FromOne (IsIntoLinkEdge scene.now.rows.now scene.now.firsts.now to.now.first to.now.nodes.now) links.now)) }
{
    for link in links {
        add_link_into(edges, scene, to, *link)?;
    }
    Ok(())
}

/// Adds the edges from calls into the formals of a method.
pub fn add_into(
    edges: &mut Vec<Edge>,
    scene: &Scene<'_>,
    links: &[Link],
    row: &Row<'_>,
    m: MethodId,
) -> Result<(), NoMemory>
    requires scene { IsScene scene.now }
    requires links { AreLinks true scene.now.system.now scene.now.entries.now links.now }
    requires row { IsRow scene.now.rows.now scene.now.firsts.now m row.now.first row.now.nodes.now }
    requires good { IsGoodRow row.now.first row.now.nodes.now }
    ensures { OnOk result (Gains edges.old.items edges.new.items (IsFlowEdge scene.now.rows.now scene.now.firsts.now (IntoFlow scene.now.system.now scene.now.entries.now) m)) }
{
    let links = of_method(links, m);
    add_links_into(edges, scene, row, links)
}

fn add_exit(
    edges: &mut Vec<Edge>,
    from: &Row<'_>,
    to: &Row<'_>,
    link: Link,
    exit: Node,
) -> Result<(), NoMemory>
    requires from { IsGoodRow from.now.first from.now.nodes.now }
    requires to { IsGoodRow to.now.first to.now.nodes.now }
    ensures { OnOk result (Gains edges.old.items edges.new.items (IsExitEdge from.now.first from.now.nodes.now to.now.first to.now.nodes.now link exit)) }
{
    match node_after(link.pc, exit) {
        None => Ok(()),
        Some(j) => add_between(edges, from, exit, to, j, Label::Return(link.number)),
    }
}

fn add_exits(
    edges: &mut Vec<Edge>,
    from: &Row<'_>,
    to: &Row<'_>,
    link: Link,
    exits: &[Node],
) -> Result<(), NoMemory>
    requires from { IsGoodRow from.now.first from.now.nodes.now }
    requires to { IsGoodRow to.now.first to.now.nodes.now }
    ensures { OnOk result (Gains edges.old.items edges.new.items (FromOne (IsExitEdge from.now.first from.now.nodes.now to.now.first to.now.nodes.now link) exits.now)) }
{
    for exit in exits {
        add_exit(edges, from, to, link, *exit)?;
    }
    Ok(())
}

// Adds the edges back from what one call may go to.
fn add_link_back(
    edges: &mut Vec<Edge>,
    scene: &Scene<'_>,
    to: &Row<'_>,
    link: Link,
) -> Result<(), NoMemory>
    requires scene { IsScene scene.now }
    requires to { IsGoodRow to.now.first to.now.nodes.now }
    ensures { OnOk result (Gains edges.old.items edges.new.items (IsBackLinkEdge scene.now.rows.now scene.now.firsts.now to.now.first to.now.nodes.now link)) }
{
    match find_row(scene, link.target) {
        None => Ok(()),
        Some(from) => add_exits(edges, &from, to, link, exits_of(from.nodes)),
    }
}

fn add_links_back(
    edges: &mut Vec<Edge>,
    scene: &Scene<'_>,
    to: &Row<'_>,
    links: &[Link],
) -> Result<(), NoMemory>
    requires scene { IsScene scene.now }
    requires to { IsGoodRow to.now.first to.now.nodes.now }
    ensures { OnOk result (Gains edges.old.items edges.new.items (FromOne (IsBackLinkEdge scene.now.rows.now scene.now.firsts.now to.now.first to.now.nodes.now) links.now)) }
{
    for link in links {
        add_link_back(edges, scene, to, *link)?;
    }
    Ok(())
}

/// Adds the edges from the exits of the methods that a method calls back to its calls.
pub fn add_back(
    edges: &mut Vec<Edge>,
    scene: &Scene<'_>,
    links: &[Link],
    row: &Row<'_>,
    m: MethodId,
) -> Result<(), NoMemory>
    requires scene { IsScene scene.now }
    requires links { AreLinks false scene.now.system.now scene.now.entries.now links.now }
    requires row { IsRow scene.now.rows.now scene.now.firsts.now m row.now.first row.now.nodes.now }
    requires good { IsGoodRow row.now.first row.now.nodes.now }
    ensures { OnOk result (Gains edges.old.items edges.new.items (IsFlowEdge scene.now.rows.now scene.now.firsts.now (BackFlow scene.now.system.now scene.now.entries.now) m)) }
{
    let links = of_method(links, m);
    add_links_back(edges, scene, row, links)
}
