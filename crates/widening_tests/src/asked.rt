// Which graphs a slice asks for, and which ones when it is widened.
ghost use Rattle.std.specs.Prelude.{◌<◌, All, IfOk};
ghost use Rattle.slicer_ids.specs.declared.ids.NodeId.{NodeId};
ghost use Rattle.dep_form.specs.Firsts.{node_count};
ghost use Rattle.widening.specs.Widened.{IsWide};

use crate::widened::found;
use dep_form::facts::Facts;
use dep_form::graph::Graph;
use method_graph::own::OwnGraphs;
use slicer_ids::ids::{NoMemory, NodeId, Statement};
use slicer_ids::steps::Steps;
use std::alloc::Global;
use std::sync::ledger::Ledger;
use widening::wide::Wide;

/// What was asked for, and what was found.
#[derive(Drop)]
pub struct AskedFor {
    /// The methods whose graphs the slice asked for with no access expanded, in order.
    pub first: Vec<usize>,
    /// Those whose graphs the expansion of an access asked for.
    pub then: Vec<usize>,
    /// The nodes that the expansion added, in order.
    pub added: Vec<u32>,
}

// The methods whose graphs were built, since somebody asked for them.
fn built(alloc: Global, graphs: &[Option<Graph>]) -> Result<Vec<usize>, NoMemory> {
    let mut methods = Vec::new(alloc);
    for m in 0..graphs.len() {
        if graphs[m].is_some() {
            methods.push(m)?;
        }
    }
    Ok(methods)
}

// Those after that weren't there before.
fn added(alloc: Global, before: &[u32], after: &[u32]) -> Result<Vec<u32>, NoMemory> {
    let mut added = Vec::new(alloc);
    for n in after {
        if !before.contains(n) {
            added.push(*n)?;
        }
    }
    Ok(added)
}

// The slice of some seeds, with no access expanded, and the methods whose graphs it asked for.
fn begun<L: Ledger>(
    alloc: Global,
    f: &Facts,
    seeds: &[NodeId],
    steps: &mut Steps<L>,
) -> Result<(Wide, Vec<usize>), NoMemory>
    requires { All (λ (n : NodeId). n.0 < node_count f.now.inputs) seeds.now }
    ensures { IfOk result (λ r. IsWide f.now r.0) }
{
    let mut graphs = OwnGraphs::new(alloc, f)?;
    let wide = Wide::new(alloc, f, &mut graphs, seeds, steps)?;
    let asked = built(alloc, graphs.graphs.as_slice())?;
    Ok((wide, asked))
}

// Expands an access, and gives the methods whose graphs this asked for.
fn expanded<L: Ledger>(
    alloc: Global,
    f: &Facts,
    wide: &mut Wide,
    access: Statement,
    steps: &mut Steps<L>,
) -> Result<Vec<usize>, NoMemory>
    requires { IsWide f.now wide.old }
    ensures { IsWide f.now wide.new }
{
    let mut graphs = OwnGraphs::new(alloc, f)?;
    wide.expand(f, &mut graphs, access, steps)?;
    built(alloc, graphs.graphs.as_slice())
}

/// The slice of some seeds, in which then an access is expanded, over graphs of which none was built yet.
pub fn widen_by_one<L: Ledger>(
    alloc: Global,
    f: &Facts,
    seeds: &[NodeId],
    access: Statement,
    steps: &mut Steps<L>,
) -> Result<AskedFor, NoMemory>
    requires { All (λ (n : NodeId). n.0 < node_count f.now.inputs) seeds.now }
{
    let (mut wide, first) = begun(alloc, f, seeds, steps)?;
    let before = found(alloc, f, &wide)?;
    let then = expanded(alloc, f, &mut wide, access, steps)?;
    let after = found(alloc, f, &wide)?;
    let added = added(alloc, &before, &after)?;
    Ok(AskedFor { first, then, added })
}
