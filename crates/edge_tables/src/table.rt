// The edges of one method.
ghost use Rattle.std.specs.Prelude.{◌≡◌, ◌<◌, true, false, OnOk, length};
ghost use Rattle.mod_ref.specs.Gains.{Gains};
ghost use Rattle.program_form.specs.Programs.{Program};
ghost use Rattle.edge_tables.specs.Again.{AgainFits};
ghost use Rattle.edge_tables.specs.Links.{AreLinks};
ghost use Rattle.edge_tables.specs.Rows.{IsFlowEdge, IsGoodRow, IsRow};
ghost use Rattle.edge_tables.specs.Scenes.{IsOfProgram, IsScene};
ghost use Rattle.edge_tables.specs.Table.{LocalFlow, OtherFlow};

use crate::again::add_again;
use crate::calls::{add_back, add_into};
use crate::ends::add_ends;
use crate::links::Links;
use crate::outside::add_outside;
use crate::rows::row_of;
use crate::scene::{Row, Scene};
use dep_form::node::Edge;
use slicer_ids::ids::{MethodId, NoMemory};

// Adds the edges that stay in the method.
fn add_local(
    edges: &mut Vec<Edge>,
    scene: &Scene<'_>,
    row: &Row<'_>,
    m: MethodId,
) -> Result<(), NoMemory>
    requires scene { IsScene scene.now }
    requires row { IsRow scene.now.rows.now scene.now.firsts.now m row.now.first row.now.nodes.now }
    requires good { IsGoodRow row.now.first row.now.nodes.now }
    requires calls { AgainFits scene.now m row.now.nodes.now }
    ensures { (p : Program) → IsOfProgram scene.now p → OnOk result (Gains edges.old.items edges.new.items (IsFlowEdge scene.now.rows.now scene.now.firsts.now (LocalFlow p scene.now.system.now) m)) }
{
    add_ends(edges, scene, row, m)?;
    add_outside(edges, scene, row, m)?;
    add_again(edges, scene, row, m)
}

/// Adds the edges that end in the nodes of a method, but those of operands and those that a location flows along within it: from returns
/// to what it answers, from what is thrown to what it throws; of calls that go outside, from each argument to what the call answers, and
/// from each written one to the call; from arguments and locations at calls to its formals; from the exits of the methods that it calls
/// to its calls; and in the root from each location after a call to the same before each call.
///
/// For each edge it takes a logarithmic number of steps. An edge takes 16 bytes, and may be added more than once.
pub fn add_edges(
    edges: &mut Vec<Edge>,
    scene: &Scene<'_>,
    links: &Links,
    m: MethodId,
) -> Result<(), NoMemory>
    requires scene { IsScene scene.now }
    requires by_target { AreLinks true scene.now.system.now scene.now.entries.now links.now.by_target.items }
    requires by_caller { AreLinks false scene.now.system.now scene.now.entries.now links.now.by_caller.items }
    requires number { m.0 < length scene.now.rows.now }
    ensures { (p : Program) → IsOfProgram scene.now p → OnOk result (Gains edges.old.items edges.new.items (IsFlowEdge scene.now.rows.now scene.now.firsts.now (OtherFlow p scene.now.system.now scene.now.entries.now) m)) }
{
    let row = row_of(scene.rows, scene.firsts, m);
    add_local(edges, scene, &row, m)?;
    add_into(edges, scene, links.by_target.as_slice(), &row, m)?;
    add_back(edges, scene, links.by_caller.as_slice(), &row, m)
}
