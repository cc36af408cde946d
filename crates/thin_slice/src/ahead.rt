// The exits that return to nodes and whose rows aren't known.
ghost use Rattle.std.specs.Prelude.{◌≡◌, ◌<◌, OnOk, Contains, length};
ghost use Rattle.slicer_ids.specs.declared.ids.ExitId.{ExitId};
ghost use Rattle.dep_form.specs.Firsts.{node_count};

use crate::asked::{KnownRows, SeenGraphs};
use crate::needs::{graph_at, row_need};
use crate::over::edges_into;
use dep_form::facts::Facts;
use dep_form::node::{Edge, Label};
use slicer_ids::ids::{ExitId, Mode, NoMemory, NodeId};

// Adds the exit of an edge, if it is a return's and its row isn't known.
fn add_exit<R: KnownRows>(
    f: &Facts,
    rows: &mut R,
    mode: Mode,
    edge: Edge,
    into: &mut Vec<ExitId>,
) -> Result<(), NoMemory>
    requires sound { R.sound rows.old }
    requires facts { R.facts rows.old ≡ f.now }
    requires exits { (d : ExitId) → Contains into.old.items d → d.0 < length f.now.exits }
    ensures sound { R.sound rows.new }
    ensures later { R.later rows.old rows.new }
    ensures exits { OnOk result ((d : ExitId) → Contains into.new.items d → d.0 < length f.now.exits) }
{
    match edge.label {
        Label::Return(_) => {
            let Some(exit) = row_need(f, rows, mode, edge.from) else {
                return Ok(());
            };
            into.push(exit)?;
            Ok(())
        }
        Label::Thin => Ok(()),
        Label::Base => Ok(()),
        Label::Call(_) => Ok(()),
    }
}

// .. of each of some edges.
fn add_exits<R: KnownRows>(
    f: &Facts,
    rows: &mut R,
    mode: Mode,
    edges: &[Edge],
    into: &mut Vec<ExitId>,
) -> Result<(), NoMemory>
    requires sound { R.sound rows.old }
    requires facts { R.facts rows.old ≡ f.now }
    requires exits { (d : ExitId) → Contains into.old.items d → d.0 < length f.now.exits }
    ensures sound { R.sound rows.new }
    ensures later { R.later rows.old rows.new }
    ensures exits { OnOk result ((d : ExitId) → Contains into.new.items d → d.0 < length f.now.exits) }
{
    for edge in edges {
        add_exit(f, rows, mode, *edge, into)?;
    }
    Ok(())
}

/// Adds the exits that return to a node and whose rows aren't known, if the graph of its method was seen.
pub fn add_exits_at<G: SeenGraphs, R: KnownRows>(
    f: &Facts,
    graphs: &G,
    rows: &mut R,
    mode: Mode,
    n: NodeId,
    into: &mut Vec<ExitId>,
) -> Result<(), NoMemory>
    requires graphs { G.sound graphs.now }
    requires graph_facts { G.facts graphs.now ≡ f.now }
    requires sound { R.sound rows.old }
    requires facts { R.facts rows.old ≡ f.now }
    requires node { n.0 < node_count f.now.inputs }
    requires exits { (d : ExitId) → Contains into.old.items d → d.0 < length f.now.exits }
    ensures sound { R.sound rows.new }
    ensures later { R.later rows.old rows.new }
    ensures exits { OnOk result ((d : ExitId) → Contains into.new.items d → d.0 < length f.now.exits) }
{
    match graph_at(f, graphs, n) {
        Ok(graph) => add_exits(f, rows, mode, edges_into(f, graph, n), into),
        Err(_) => Ok(()),
    }
}
