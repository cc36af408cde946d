// Slices as a session finds them.
ghost use Rattle.std.specs.Prelude.{◌<◌, All};
ghost use Rattle.slicer_ids.specs.declared.ids.NodeId.{NodeId};
ghost use Rattle.dep_form.specs.Firsts.{node_count};
ghost use Rattle.thin_slice.specs.Walks.{IsWalkOf};

use crate::counted::node_count;
use dep_form::facts::Facts;
use graph_store::store::GraphStore;
use session_walk::walking::walk_on;
use slicer_ids::ids::{Mode, NoMemory, NodeId};
use slicer_ids::steps::Steps;
use std::alloc::Global;
use std::sync::ledger::Ledger;
use summary_memo::memo::Memo;
use thin_slice::walk::Walk;

/// The nodes of the slice of some seeds, in order, over a new store and new rows.
pub fn sliced<L: Ledger>(
    alloc: Global,
    f: &Facts,
    seeds: &[NodeId],
    mode: Mode,
    steps: &mut Steps<L>,
) -> Result<Vec<u32>, NoMemory>
    requires { All (λ (n : NodeId). n.0 < node_count f.now.inputs) seeds.now }
{
    let store = GraphStore::new(alloc, f)?;
    let mut pass = store.open_pass()?;
    let (memo, mut seat) = Memo::new(alloc, f)?;
    let mut walk = Walk::new(alloc, f)?;
    walk.start(seeds);
    walk_on(
        alloc, f, &store, &mut pass, &memo, &mut seat, &mut walk, mode, steps,
    )?;
    found(alloc, f, &walk)
}

// The nodes that a walk found, in order.
fn found(alloc: Global, f: &Facts, walk: &Walk) -> Result<Vec<u32>, NoMemory>
    requires { IsWalkOf f.now walk.now }
{
    let mut nodes = Vec::new(alloc);
    for n in 0..node_count(f) {
        if has(f, walk, n) {
            nodes.push(n as u32)?;
        }
    }
    Ok(nodes)
}

fn has(f: &Facts, walk: &Walk, n: usize) -> bool
    requires walk { IsWalkOf f.now walk.now }
    requires node { n < node_count f.now.inputs }
{
    walk.has(NodeId(n as u32))
}
