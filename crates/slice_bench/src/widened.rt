// The time that slices take that are widened.
ghost use Rattle.std.specs.Prelude.{◌≡◌, ◌<◌, All, IfOk};
ghost use Rattle.slicer_ids.specs.declared.ids.NodeId.{NodeId};
ghost use Rattle.dep_form.specs.Firsts.{node_count};
ghost use Rattle.widening.specs.Widened.{IsWide};

use crate::counts::sliced_by;
use crate::laps::{Lap, Laps};
use anyhow::Result;
use dep_form::facts::Facts;
use dep_form::graphs::Graphs;
use slicer_ids::ids::{NoMemory, NodeId, Statement};
use slicer_ids::steps::Steps;
use std::alloc::Global;
use std::sync::ledger::Ledger;
use widening::wide::Wide;

/// An access that a slice has, and one of which it has nothing.
#[derive(Clone, Copy)]
pub struct Accesses {
    pub inner: Statement,
    pub outer: Statement,
}

// What each step takes.
#[derive(Clone, Copy, Drop)]
struct Times {
    new: Laps,
    inner: Laps,
    outer: Laps,
}

// The slice with no access expanded.
fn sliced<G: Graphs, L: Ledger>(
    alloc: Global,
    f: &Facts,
    graphs: &mut G,
    seeds: &[NodeId],
    steps: &mut Steps<L>,
) -> Result<Wide, NoMemory>
    requires graphs { G.sound graphs.old × (G.facts graphs.old ≡ f.now) }
    requires seeds { All (λ (n : NodeId). n.0 < node_count f.now.inputs) seeds.now }
    ensures graphs { G.sound graphs.new × (G.facts graphs.new ≡ f.now) }
    ensures wide { IfOk result (IsWide f.now) }
{
    Wide::new(alloc, f, graphs, seeds, steps)
}

fn expand<G: Graphs, L: Ledger>(
    f: &Facts,
    graphs: &mut G,
    access: Statement,
    wide: &mut Wide,
    steps: &mut Steps<L>,
) -> Result<(), NoMemory>
    requires graphs { G.sound graphs.old × (G.facts graphs.old ≡ f.now) }
    requires wide { IsWide f.now wide.old }
    ensures graphs { G.sound graphs.new × (G.facts graphs.new ≡ f.now) }
    ensures wide { IsWide f.now wide.new }
{
    wide.expand(f, graphs, access, steps)
}

// The slice, with what it takes.
fn timed_slice<G: Graphs, L: Ledger>(
    rt: &HostRuntime,
    f: &Facts,
    graphs: &mut G,
    seeds: &[NodeId],
    laps: &mut Laps,
    steps: &mut Steps<L>,
) -> Result<Wide>
    requires graphs { G.sound graphs.old × (G.facts graphs.old ≡ f.now) }
    requires seeds { All (λ (n : NodeId). n.0 < node_count f.now.inputs) seeds.now }
    ensures graphs { G.sound graphs.new × (G.facts graphs.new ≡ f.now) }
    ensures wide { IfOk result (IsWide f.now) }
{
    let lap = Lap::start(rt)?;
    let wide = sliced(rt.alloc(), f, graphs, seeds, steps)?;
    laps.add(rt, lap)?;
    Ok(wide)
}

// Expands an access, with what that takes.
fn timed_expansion<G: Graphs, L: Ledger>(
    rt: &HostRuntime,
    f: &Facts,
    graphs: &mut G,
    access: Statement,
    wide: &mut Wide,
    laps: &mut Laps,
    steps: &mut Steps<L>,
) -> Result<()>
    requires graphs { G.sound graphs.old × (G.facts graphs.old ≡ f.now) }
    requires wide { IsWide f.now wide.old }
    ensures graphs { G.sound graphs.new × (G.facts graphs.new ≡ f.now) }
    ensures wide { IsWide f.now wide.new }
{
    let lap = Lap::start(rt)?;
    expand(f, graphs, access, wide, steps)?;
    laps.add(rt, lap)?;
    Ok(())
}

// Slices once, and expands both accesses, one after the other.
fn widen<G: Graphs, L: Ledger>(
    rt: &HostRuntime,
    f: &Facts,
    graphs: &mut G,
    seeds: &[NodeId],
    accesses: Accesses,
    times: &mut Times,
    steps: &mut Steps<L>,
) -> Result<()>
    requires graphs { G.sound graphs.old × (G.facts graphs.old ≡ f.now) }
    requires seeds { All (λ (n : NodeId). n.0 < node_count f.now.inputs) seeds.now }
    ensures graphs { G.sound graphs.new × (G.facts graphs.new ≡ f.now) }
{
    let mut wide = timed_slice(rt, f, graphs, seeds, &mut times.new, steps)?;
    timed_expansion(
        rt,
        f,
        graphs,
        accesses.inner,
        &mut wide,
        &mut times.inner,
        steps,
    )?;
    timed_expansion(
        rt,
        f,
        graphs,
        accesses.outer,
        &mut wide,
        &mut times.outer,
        steps,
    )?;
    Ok(())
}

// .. so many times.
fn widen_again<G: Graphs, L: Ledger>(
    rt: &HostRuntime,
    f: &Facts,
    graphs: &mut G,
    seeds: &[NodeId],
    accesses: Accesses,
    rounds: u32,
    steps: &mut Steps<L>,
) -> Result<Times>
    requires graphs { G.sound graphs.old × (G.facts graphs.old ≡ f.now) }
    requires seeds { All (λ (n : NodeId). n.0 < node_count f.now.inputs) seeds.now }
    ensures graphs { G.sound graphs.new × (G.facts graphs.new ≡ f.now) }
{
    let mut times = Times {
        new: Laps::none(),
        inner: Laps::none(),
        outer: Laps::none(),
    };
    for _ in 0..rounds {
        widen(rt, f, graphs, seeds, accesses, &mut times, steps)?;
    }
    Ok(times)
}

// How many nodes the slice has: with no access expanded, with the inner one, and with both.
fn sizes<G: Graphs, L: Ledger>(
    rt: &HostRuntime,
    f: &Facts,
    graphs: &mut G,
    seeds: &[NodeId],
    accesses: Accesses,
    steps: &mut Steps<L>,
) -> Result<[u64; 3]>
    requires graphs { G.sound graphs.old × (G.facts graphs.old ≡ f.now) }
    requires seeds { All (λ (n : NodeId). n.0 < node_count f.now.inputs) seeds.now }
    ensures graphs { G.sound graphs.new × (G.facts graphs.new ≡ f.now) }
{
    let mut wide = sliced(rt.alloc(), f, graphs, seeds, steps)?;
    let none = sliced_by(f, &wide);
    expand(f, graphs, accesses.inner, &mut wide, steps)?;
    let one = sliced_by(f, &wide);
    expand(f, graphs, accesses.outer, &mut wide, steps)?;
    let both = sliced_by(f, &wide);
    Ok([none, one, both])
}

/// Prints how long it takes to make a slice and to expand two accesses, and how many nodes that adds.
pub fn measure_widened<G: Graphs, L: Ledger>(
    rt: &HostRuntime,
    f: &Facts,
    graphs: &mut G,
    seeds: &[NodeId],
    accesses: Accesses,
    rounds: u32,
    steps: &mut Steps<L>,
) -> Result<()>
    requires graphs { G.sound graphs.old × (G.facts graphs.old ≡ f.now) }
    requires seeds { All (λ (n : NodeId). n.0 < node_count f.now.inputs) seeds.now }
{
    let [none, one, both] = sizes(rt, f, graphs, seeds, accesses, steps)?;
    let times = widen_again(rt, f, graphs, seeds, accesses, rounds, steps)?;
    println!(rt; "  Wide::new: {}", times.new)?;
    println!(rt; "  expand, an access in the slice: {}", times.inner)?;
    println!(rt; "  expand, an access outside of it: {}", times.outer)?;
    println!(rt;
        "  in the slice: {none} nodes, {} added by the first access, {} by the second",
        one.saturating_sub(none),
        both.saturating_sub(one)
    )?;
    Ok(())
}
