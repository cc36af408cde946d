// Edges to what a method answers and throws.
ghost use Rattle.std.specs.Prelude.{◌≡◌, ◌↔◌, ◌<◌, ◌≤◌, ◌+◌, ◌++◌, ◌^◌, AllPairs, All, Contains, IfOk, OnOk, Some, length};
ghost use Rattle.std.specs.Ordering.{nat_cmp};
ghost use Rattle.class_form.specs.ClassRules.{IsClassFile};
ghost use Rattle.class_form.specs.declared.body.Body.{Body};
ghost use Rattle.class_form.specs.declared.class_file.CodeBody.{CodeBody};
ghost use Rattle.dep_form.specs.declared.node.Edge.{Edge};
ghost use Rattle.dep_form.specs.Graphs.{EdgeBefore};
ghost use Rattle.dep_form.specs.Nodes.{ComesBefore};
ghost use Rattle.dep_form.specs.Orders.{RiseBy};
ghost use Rattle.mod_ref.specs.Gains.{Gains};
ghost use Rattle.program_form.specs.Programs.{CodeOf, Program};
ghost use Rattle.input_tables.specs.Exits.{AreExitEdgesOf, AreHandlersOf};
ghost use Rattle.edge_tables.specs.Ends.{EndFlow};
ghost use Rattle.edge_tables.specs.Rows.{IsGoodRow, IsLocalEdge};
ghost use Rattle.edge_tables.specs.Scenes.{IsOfProgram, IsScene};

use crate::scene::{Row, Scene};
use class_form::class_file::Handler;
use dep_form::node::Edge;
use input_tables::exit_edges;
use slicer_ids::ids::{MethodId, NoMemory};
use text_tables::code_of;

// Puts edges behind others.
fn append(edges: &mut Vec<Edge>, more: &[Edge]) -> Result<(), NoMemory>
    ensures { OnOk result (edges.new.items ≡ edges.old.items ++ more.now) }
{
    match edges.extend_from_slice(more) {
        Ok(()) => Ok(()),
        Err(_) => Err(NoMemory),
    }
}

// Adds the edges to the exits of a method with these handlers.
fn add_exits(
    edges: &mut Vec<Edge>,
    scene: &Scene<'_>,
    row: &Row<'_>,
    m: MethodId,
    handlers: &[Handler],
) -> Result<(), NoMemory>
    requires scene { IsScene scene.now }
    requires row { IsGoodRow row.now.first row.now.nodes.now }
    ensures { (p : Program) → IsOfProgram scene.now p → AreHandlersOf p m handlers.now → OnOk result (Gains edges.old.items edges.new.items (IsLocalEdge row.now.first row.now.nodes.now (EndFlow p m))) }
{
    let alloc = *edges.allocator();
    let exits = exit_edges(alloc, scene.bodies, m, handlers, row.first, row.nodes)?;
    append(edges, exits.as_slice())
}

/// Adds the edges from returns to what a method answers, and to what it throws from what its statements, or the methods that they call,
/// throw where no handler catches all.
pub fn add_ends(
    edges: &mut Vec<Edge>,
    scene: &Scene<'_>,
    row: &Row<'_>,
    m: MethodId,
) -> Result<(), NoMemory>
    requires scene { IsScene scene.now }
    requires row { IsGoodRow row.now.first row.now.nodes.now }
    ensures { (p : Program) → IsOfProgram scene.now p → OnOk result (Gains edges.old.items edges.new.items (IsLocalEdge row.now.first row.now.nodes.now (EndFlow p m))) }
{
    match code_of(scene.h, m) {
        None => Ok(()),
        Some(code) => add_exits(edges, scene, row, m, code.handlers.items()),
    }
}
