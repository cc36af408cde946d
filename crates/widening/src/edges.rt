// The edges that end in a node, as a widened slice follows them.
ghost use Rattle.std.specs.Prelude.{◌≡◌, ◌<◌, ◌↔◌, OnOk, Contains, IsTrue};
ghost use Rattle.slicer_ids.specs.declared.ids.ExitId.{ExitId};
ghost use Rattle.dep_form.specs.declared.node.Edge.{Edge};
ghost use Rattle.dep_form.specs.declared.node.Label.TheVariants.{Base};
ghost use Rattle.dep_form.specs.Slices.{NodesOf};
ghost use Rattle.tabulate.specs.Frames.{IsOf, count};
ghost use Rattle.widening.specs.Edges.{AreExpansions, AreInto, IsExitNear, IsOpened, Widened, no_base};

use crate::expansions::Expansions;
use dep_form::facts::Facts;
use dep_form::graphs::Graphs;
use dep_form::node::{Edge, Label};
use slicer_ids::ids::{ExitId, MethodId, NoMemory, NodeId};
use tabulate::meeting::exits_of_returns;
use tabulate::tabulation::copy_edges;

// Takes the base edges out.
fn drop_bases(edges: &mut Vec<Edge>)
    ensures { (e : Edge) → Contains edges.new.items e ↔ (Contains edges.old.items e × (e.label ≡ Base → ⊥)) }
{
    edges.retain(|edge| is_no_base(edge.label));
}

// Whether the label isn't that of a base edge.
fn is_no_base(label: Label) -> bool
    ensures { result ≡ no_base label }
{
    match label {
        Label::Base => false,
        Label::Thin => true,
        Label::Call(_) => true,
        Label::Return(_) => true,
    }
}

// Whether the node is one of an access that is expanded.
fn is_end(f: &Facts, expansions: &Expansions, n: NodeId) -> bool
    requires expansions { AreExpansions f.now expansions.now }
    requires node { n.0 < count f.now }
    ensures { IsTrue result ↔ NodesOf f.now.inputs (IsOpened expansions.now) n }
{
    expansions.marks[n.0 as usize]
}

/// The edges that end in a node, but for the base edges of an access that isn't expanded, in a buffer that is used again.
pub fn edges_into<G: Graphs>(
    f: &Facts,
    graphs: &mut G,
    expansions: &Expansions,
    m: MethodId,
    n: NodeId,
    into: &mut Vec<Edge>,
) -> Result<(), NoMemory>
    requires graphs { G.sound graphs.old × (G.facts graphs.old ≡ f.now) }
    requires node { IsOf f.now n.0 m.0 }
    requires expansions { AreExpansions f.now expansions.now }
    ensures graphs { G.sound graphs.new × G.later graphs.old graphs.new }
    ensures edges { OnOk result (AreInto (Widened f.now expansions.now) n into.new.items) }
{
    copy_edges(f, graphs, m, n, into)?;
    if is_end(f, expansions, n) {
        return Ok(());
    }
    drop_bases(into);
    Ok(())
}

/// The exits that return to a node by these edges, and the one whose node it is, in a buffer that is used again.
pub fn exits_near(
    f: &Facts,
    n: NodeId,
    edges: &[Edge],
    into: &mut Vec<ExitId>,
) -> Result<(), NoMemory>
    ensures { OnOk result ((d : ExitId) → Contains into.new.items d ↔ IsExitNear f.now n edges.now d) }
{
    exits_of_returns(f, edges, into)?;
    let Some(exit) = f.exit_of(n) else {
        return Ok(());
    };
    into.push(exit)?;
    Ok(())
}
