// Which graphs a slice made a session see.
ghost use Rattle.std.specs.Prelude.{◌≡◌, ◌<◌, All, length, true};
ghost use Rattle.slicer_ids.specs.declared.ids.NodeId.{NodeId};
ghost use Rattle.dep_form.specs.Firsts.{node_count};
ghost use Rattle.dep_form.specs.Graphs.{HasInput};
ghost use Rattle.graph_store.specs.Store.{IsPassOf, HasInputsOf};

use checked_facts::nodes::input_at;
use dep_form::facts::Facts;
use graph_store::pass::GraphPass;
use graph_store::store::GraphStore;
use session_walk::walking::walk_on;
use slicer_ids::ids::{MethodId, Mode, NoMemory, NodeId};
use slicer_ids::steps::Steps;
use std::alloc::Global;
use std::sync::ledger::Ledger;
use summary_memo::memo::Memo;
use thin_slice::walk::Walk;

fn has_input(f: &Facts, m: MethodId) -> bool
    ensures { result ≡ true → HasInput f.now.inputs m }
{
    match input_at(f.inputs.items(), m.0 as usize) {
        Some(_) => true,
        None => false,
    }
}

// Whether the graph of the method is in the store; false where the method isn't reached.
fn is_shared<'s>(f: &Facts, store: &'s GraphStore, pass: &mut GraphPass<'s>, m: MethodId) -> bool
    requires pass { IsPassOf store.now.cells.items pass.old }
    requires inputs { HasInputsOf f.now pass.old }
    ensures pass { IsPassOf store.now.cells.items pass.new }
    ensures inputs { HasInputsOf f.now pass.new }
{
    if !has_input(f, m) {
        return false;
    }
    store.shared(f, m, pass)
}

// By method and for the root, whether the graph is in the store.
fn shared(alloc: Global, f: &Facts, store: &GraphStore) -> Result<Vec<bool>, NoMemory>
    requires { length store.now.cells.items ≡ length f.now.inputs }
{
    let mut pass = store.open_pass()?;
    let mut shared = Vec::new(alloc);
    for m in 0..f.inputs.items().len() {
        let is_there = is_shared(f, store, &mut pass, MethodId(m as u32));
        shared.push(is_there)?;
    }
    Ok(shared)
}

/// By method and for the root, whether the slice of some seeds put the graph into a new store.
pub fn needed<L: Ledger>(
    alloc: Global,
    f: &Facts,
    seeds: &[NodeId],
    mode: Mode,
    steps: &mut Steps<L>,
) -> Result<Vec<bool>, NoMemory>
    requires { All (λ (n : NodeId). n.0 < node_count f.now.inputs) seeds.now }
{
    let store = GraphStore::new(alloc, f)?;
    let mut pass = store.open_pass()?;
    let (memo, mut seat) = Memo::new(alloc, f)?;
    let mut walk = Walk::new(alloc, f)?;
    walk.start(seeds);
    walk_on(
        alloc, f, &store, &mut pass, &memo, &mut seat, &mut walk, mode, steps,
    )?;
    shared(alloc, f, &store)
}
