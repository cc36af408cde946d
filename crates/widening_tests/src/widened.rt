// Slices that are widened step by step.
ghost use Rattle.std.specs.Prelude.{◌≡◌, ◌<◌, All};
ghost use Rattle.slicer_ids.specs.declared.ids.NodeId.{NodeId};
ghost use Rattle.dep_form.specs.Firsts.{node_count};
ghost use Rattle.widening.specs.Widened.{IsWide};

use dep_form::facts::Facts;
use dep_form::graphs::Graphs;
use method_graph::own::OwnGraphs;
use slice_tests::counted::node_count;
use slicer_ids::ids::{NoMemory, NodeId, Statement};
use slicer_ids::steps::Steps;
use std::alloc::Global;
use std::sync::ledger::Ledger;
use widening::wide::Wide;

/// The nodes of the slice of some seeds, in order, with accesses that are expanded one after the other.
pub fn widened<L: Ledger>(
    alloc: Global,
    f: &Facts,
    seeds: &[NodeId],
    accesses: &[Statement],
    steps: &mut Steps<L>,
) -> Result<Vec<u32>, NoMemory>
    requires { All (λ (n : NodeId). n.0 < node_count f.now.inputs) seeds.now }
{
    let mut graphs = OwnGraphs::new(alloc, f)?;
    let mut wide = Wide::new(alloc, f, &mut graphs, seeds, steps)?;
    expand_each(f, &mut graphs, accesses, &mut wide, steps)?;
    found(alloc, f, &wide)
}

/// The same, with accesses that are expanded all at once.
pub fn widened_at_once<L: Ledger>(
    alloc: Global,
    f: &Facts,
    seeds: &[NodeId],
    accesses: &[Statement],
    steps: &mut Steps<L>,
) -> Result<Vec<u32>, NoMemory>
    requires { All (λ (n : NodeId). n.0 < node_count f.now.inputs) seeds.now }
{
    let mut graphs = OwnGraphs::new(alloc, f)?;
    let mut wide = Wide::new(alloc, f, &mut graphs, seeds, steps)?;
    wide.expand_all(f, &mut graphs, accesses, steps)?;
    found(alloc, f, &wide)
}

// Expands the accesses one after the other.
fn expand_each<G: Graphs, L: Ledger>(
    f: &Facts,
    graphs: &mut G,
    accesses: &[Statement],
    wide: &mut Wide,
    steps: &mut Steps<L>,
) -> Result<(), NoMemory>
    requires graphs { G.sound graphs.old × (G.facts graphs.old ≡ f.now) }
    requires wide { IsWide f.now wide.old }
    ensures wide { IsWide f.now wide.new }
{
    for access in accesses {
        wide.expand(f, graphs, *access, steps)?;
    }
    Ok(())
}

/// The nodes of a slice, in order.
pub fn found(alloc: Global, f: &Facts, wide: &Wide) -> Result<Vec<u32>, NoMemory>
    requires { IsWide f.now wide.now }
{
    let mut nodes = Vec::new(alloc);
    for n in 0..node_count(f) {
        if has(f, wide, n) {
            nodes.push(n as u32)?;
        }
    }
    Ok(nodes)
}

fn has(f: &Facts, wide: &Wide, n: usize) -> bool
    requires wide { IsWide f.now wide.now }
    requires node { n < node_count f.now.inputs }
{
    wide.has(NodeId(n as u32))
}
