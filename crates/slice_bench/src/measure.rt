// All that is measured of one program.
ghost use Rattle.std.specs.Prelude.{◌≡◌, ◌<◌, All};
ghost use Rattle.slicer_ids.specs.declared.ids.NodeId.{NodeId};
ghost use Rattle.dep_form.specs.Firsts.{node_count};
ghost use Rattle.graph_store.specs.Store.{IsPassOf, HasInputsOf};

use crate::counts::are_nodes;
use crate::program::program;
use crate::sizes::Sizes;
use crate::walks::{fetch_all, measure_go, measure_new, measure_start};
use crate::widened::{Accesses, measure_widened};
use anyhow::{Result, bail};
use dep_form::facts::Facts;
use graph_store::graphs::PassGraphs;
use graph_store::pass::GraphPass;
use graph_store::store::GraphStore;
use slicer_ids::ids::{Mode, NodeId};
use slicer_ids::steps::Steps;
use std::marker::Brand;
use std::sync::ledger::{Blank, Ledger};
use summary_memo::memo::Memo;
use thin_slice::walk::{Walk, count_nodes};

// Slices that are widened, over the graphs that a pass has seen.
fn measure_wide<'s, L: Ledger>(
    rt: &HostRuntime,
    f: &Facts,
    store: &'s GraphStore,
    pass: &mut GraphPass<'s>,
    seeds: &[NodeId],
    accesses: Accesses,
    rounds: u32,
    steps: &mut Steps<L>,
) -> Result<()>
    requires pass { IsPassOf store.now.cells.items pass.old }
    requires inputs { HasInputsOf f.now pass.old }
    requires seeds { All (λ (n : NodeId). n.0 < node_count f.now.inputs) seeds.now }
{
    let mut graphs = PassGraphs {
        facts: f,
        store,
        pass,
    };
    measure_widened(rt, f, &mut graphs, seeds, accesses, rounds, steps)
}

fn measure_all<L: Ledger>(
    rt: &HostRuntime,
    f: &Facts,
    seeds: &[NodeId],
    ends: &[NodeId],
    accesses: Accesses,
    rounds: u32,
    blank: Blank,
) -> Result<()>
    requires blank { (blank.name ≡ L.name) × (blank.parts ≡ L.parts) × (0 < L.parts) }
    requires seeds { All (λ (n : NodeId). n.0 < node_count f.now.inputs) seeds.now }
    requires ends { All (λ (n : NodeId). n.0 < node_count f.now.inputs) ends.now }
{
    let mut steps = Steps::<L>::new(blank);
    let store = GraphStore::new(rt.alloc(), f)?;
    let mut pass = store.open_pass()?;
    let (memo, mut seat) = Memo::new(rt.alloc(), f)?;
    let mut walk = Walk::new(rt.alloc(), f)?;
    fetch_all(
        rt, f, &store, &mut pass, &memo, &mut seat, &mut walk, ends, &mut steps,
    )?;
    measure_new(rt, f, rounds)?;
    measure_start(
        rt, f, &store, &pass, &memo, &mut seat, &mut walk, ends, seeds, rounds,
    )?;
    measure_go(
        rt,
        f,
        &store,
        &pass,
        &memo,
        &mut seat,
        &mut walk,
        seeds,
        Mode::Thin,
        rounds,
    )?;
    measure_go(
        rt,
        f,
        &store,
        &pass,
        &memo,
        &mut seat,
        &mut walk,
        seeds,
        Mode::Full,
        rounds,
    )?;
    measure_wide(
        rt, f, &store, &mut pass, seeds, accesses, rounds, &mut steps,
    )
}

fn measure_from(
    rt: &HostRuntime,
    f: &Facts,
    seeds: &[NodeId],
    ends: &[NodeId],
    accesses: Accesses,
    rounds: u32,
) -> Result<()> {
    if !are_nodes(f, seeds) {
        bail!("the seed is no node");
    }
    if !are_nodes(f, ends) {
        bail!("an end is no node");
    }
    measure_all::<Brand>(rt, f, seeds, ends, accesses, rounds, Blank::new(1))
}

/// Prints how long slices take over a generated program of so many nodes and methods, each call made so often.
pub fn measure(rt: &HostRuntime, nodes: u32, methods: u32, rounds: u32) -> Result<()> {
    let sizes = Sizes::of(nodes, methods);
    let Some(facts) = program(rt.alloc(), sizes)? else {
        bail!("the parts don't fit together");
    };
    println!(rt; "{} nodes, {} methods", count_nodes(&facts), sizes.methods)?;
    let ends = sizes.ends(rt.alloc())?;
    let accesses = Accesses {
        inner: sizes.inner_access(),
        outer: sizes.outer_access(),
    };
    measure_from(
        rt,
        &facts,
        &[sizes.seed()],
        ends.as_slice(),
        accesses,
        rounds,
    )
}
