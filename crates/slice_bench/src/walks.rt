// The time that walks take.
ghost use Rattle.std.specs.Prelude.{◌≡◌, ◌<◌, All};
ghost use Rattle.slicer_ids.specs.declared.ids.NodeId.{NodeId};
ghost use Rattle.dep_form.specs.Firsts.{node_count};
ghost use Rattle.graph_store.specs.Store.{IsPassOf, HasInputsOf};
ghost use Rattle.summary_memo.specs.Memo.{facts_of, IsSeatOf};
ghost use Rattle.thin_slice.specs.Walks.{IsWalkOf, IsWalking, IsFresh};

use crate::counts::marked_by;
use crate::laps::{Lap, Laps};
use anyhow::{Result, bail};
use dep_form::facts::Facts;
use graph_store::pass::GraphPass;
use graph_store::store::GraphStore;
use session_walk::known::SeatView;
use session_walk::seen::PassView;
use session_walk::walking::walk_on;
use slicer_ids::ids::{Mode, NodeId};
use slicer_ids::steps::Steps;
use std::sync::ledger::Ledger;
use summary_memo::memo::{Memo, MemoSeat};
use thin_slice::Go;
use thin_slice::walk::Walk;

// Makes the graphs and rows that a slice needs and that aren't there.
fn fetch<'s, L: Ledger>(
    rt: &HostRuntime,
    f: &Facts,
    store: &'s GraphStore,
    pass: &mut GraphPass<'s>,
    memo: &Memo,
    seat: &mut MemoSeat,
    walk: &mut Walk,
    seeds: &[NodeId],
    mode: Mode,
    steps: &mut Steps<L>,
) -> Result<()>
    requires pass { IsPassOf store.now.cells.items pass.old }
    requires inputs { HasInputsOf f.now pass.old }
    requires seat { IsSeatOf memo.now seat.old }
    requires facts { facts_of memo.now ≡ f.now }
    requires walk { IsWalkOf f.now walk.old }
    requires seeds { All (λ (n : NodeId). n.0 < node_count f.now.inputs) seeds.now }
    ensures pass { IsPassOf store.now.cells.items pass.new }
    ensures inputs { HasInputsOf f.now pass.new }
    ensures seat { IsSeatOf memo.now seat.new }
    ensures walk { IsWalkOf f.now walk.new }
{
    walk.start(seeds);
    walk_on(rt.alloc(), f, store, pass, memo, seat, walk, mode, steps)?;
    Ok(())
}

/// Makes the graphs and rows that the thin and the full slice of some nodes need, and prints how long that takes, with these two
/// walks, and what the full one found.
pub fn fetch_all<'s, L: Ledger>(
    rt: &HostRuntime,
    f: &Facts,
    store: &'s GraphStore,
    pass: &mut GraphPass<'s>,
    memo: &Memo,
    seat: &mut MemoSeat,
    walk: &mut Walk,
    seeds: &[NodeId],
    steps: &mut Steps<L>,
) -> Result<()>
    requires pass { IsPassOf store.now.cells.items pass.old }
    requires inputs { HasInputsOf f.now pass.old }
    requires seat { IsSeatOf memo.now seat.old }
    requires facts { facts_of memo.now ≡ f.now }
    requires walk { IsWalkOf f.now walk.old }
    requires seeds { All (λ (n : NodeId). n.0 < node_count f.now.inputs) seeds.now }
    ensures pass { IsPassOf store.now.cells.items pass.new }
    ensures inputs { HasInputsOf f.now pass.new }
    ensures seat { IsSeatOf memo.now seat.new }
    ensures walk { IsWalkOf f.now walk.new }
{
    let mut laps = Laps::none();
    let lap = Lap::start(rt)?;
    fetch(
        rt,
        f,
        store,
        pass,
        memo,
        seat,
        walk,
        seeds,
        Mode::Thin,
        steps,
    )?;
    fetch(
        rt,
        f,
        store,
        pass,
        memo,
        seat,
        walk,
        seeds,
        Mode::Full,
        steps,
    )?;
    laps.add(rt, lap)?;
    println!(rt; "  graphs and rows: {laps}")?;
    println!(rt; "  all: {}", marked_by(rt.alloc(), f, walk)?)?;
    Ok(())
}

// Goes on from a start as far as what was seen and is known allows.
fn go<'s>(
    f: &Facts,
    store: &'s GraphStore,
    pass: &GraphPass<'s>,
    memo: &Memo,
    seat: &mut MemoSeat,
    walk: &mut Walk,
    mode: Mode,
) -> Go
    requires pass { IsPassOf store.now.cells.items pass.now }
    requires inputs { HasInputsOf f.now pass.now }
    requires seat { IsSeatOf memo.now seat.old }
    requires facts { facts_of memo.now ≡ f.now }
    requires walking { IsWalking f.now mode walk.old }
    requires fresh { IsFresh walk.old }
    ensures seat { IsSeatOf memo.now seat.new }
    ensures walk { IsWalkOf f.now walk.new }
{
    let graphs = PassView {
        facts: f,
        store,
        pass,
    };
    let mut rows = SeatView { memo, seat };
    walk.go(f, &graphs, &mut rows, mode)
}

// Starts anew, and finds the slice; only that is added to the laps.
fn find<'s>(
    rt: &HostRuntime,
    f: &Facts,
    store: &'s GraphStore,
    pass: &GraphPass<'s>,
    memo: &Memo,
    seat: &mut MemoSeat,
    walk: &mut Walk,
    seeds: &[NodeId],
    mode: Mode,
    laps: &mut Laps,
) -> Result<()>
    requires pass { IsPassOf store.now.cells.items pass.now }
    requires inputs { HasInputsOf f.now pass.now }
    requires seat { IsSeatOf memo.now seat.old }
    requires facts { facts_of memo.now ≡ f.now }
    requires walk { IsWalkOf f.now walk.old }
    requires seeds { All (λ (n : NodeId). n.0 < node_count f.now.inputs) seeds.now }
    ensures seat { IsSeatOf memo.now seat.new }
    ensures walk { IsWalkOf f.now walk.new }
{
    walk.start(seeds);
    let lap = Lap::start(rt)?;
    let go = go(f, store, pass, memo, seat, walk, mode);
    laps.add(rt, lap)?;
    match go {
        Go::Finished => Ok(()),
        _ => bail!("a graph or a row is missing"),
    }
}

// Finds the slice so many times.
fn find_again<'s>(
    rt: &HostRuntime,
    f: &Facts,
    store: &'s GraphStore,
    pass: &GraphPass<'s>,
    memo: &Memo,
    seat: &mut MemoSeat,
    walk: &mut Walk,
    seeds: &[NodeId],
    mode: Mode,
    rounds: u32,
) -> Result<Laps>
    requires pass { IsPassOf store.now.cells.items pass.now }
    requires inputs { HasInputsOf f.now pass.now }
    requires seat { IsSeatOf memo.now seat.old }
    requires facts { facts_of memo.now ≡ f.now }
    requires walk { IsWalkOf f.now walk.old }
    requires seeds { All (λ (n : NodeId). n.0 < node_count f.now.inputs) seeds.now }
    ensures seat { IsSeatOf memo.now seat.new }
    ensures walk { IsWalkOf f.now walk.new }
{
    let mut laps = Laps::none();
    for _ in 0..rounds {
        find(rt, f, store, pass, memo, seat, walk, seeds, mode, &mut laps)?;
    }
    Ok(laps)
}

/// Prints how long a walk takes to find the slice in a mode, and what it found.
pub fn measure_go<'s>(
    rt: &HostRuntime,
    f: &Facts,
    store: &'s GraphStore,
    pass: &GraphPass<'s>,
    memo: &Memo,
    seat: &mut MemoSeat,
    walk: &mut Walk,
    seeds: &[NodeId],
    mode: Mode,
    rounds: u32,
) -> Result<()>
    requires pass { IsPassOf store.now.cells.items pass.now }
    requires inputs { HasInputsOf f.now pass.now }
    requires seat { IsSeatOf memo.now seat.old }
    requires facts { facts_of memo.now ≡ f.now }
    requires walk { IsWalkOf f.now walk.old }
    requires seeds { All (λ (n : NodeId). n.0 < node_count f.now.inputs) seeds.now }
    ensures seat { IsSeatOf memo.now seat.new }
    ensures walk { IsWalkOf f.now walk.new }
{
    let laps = find_again(rt, f, store, pass, memo, seat, walk, seeds, mode, rounds)?;
    let name = name_of(mode);
    println!(rt; "  go, {name}: {laps}")?;
    println!(rt; "  marked, {name}: {}", marked_by(rt.alloc(), f, walk)?)?;
    Ok(())
}

fn name_of(mode: Mode) -> &'static str {
    match mode {
        Mode::Thin => "thin",
        Mode::Full => "full",
    }
}

fn start(f: &Facts, walk: &mut Walk, seeds: &[NodeId])
    requires walk { IsWalkOf f.now walk.old }
    requires seeds { All (λ (n : NodeId). n.0 < node_count f.now.inputs) seeds.now }
    ensures { IsWalkOf f.now walk.new }
{
    walk.start(seeds);
}

// Starts anew; only that is added to the laps.
fn restart(
    rt: &HostRuntime,
    f: &Facts,
    walk: &mut Walk,
    seeds: &[NodeId],
    laps: &mut Laps,
) -> Result<()>
    requires walk { IsWalkOf f.now walk.old }
    requires seeds { All (λ (n : NodeId). n.0 < node_count f.now.inputs) seeds.now }
    ensures walk { IsWalkOf f.now walk.new }
{
    let lap = Lap::start(rt)?;
    start(f, walk, seeds);
    laps.add(rt, lap)?;
    Ok(())
}

/// Prints how long a start takes after a walk from some nodes that finds all there are.
pub fn measure_start<'s>(
    rt: &HostRuntime,
    f: &Facts,
    store: &'s GraphStore,
    pass: &GraphPass<'s>,
    memo: &Memo,
    seat: &mut MemoSeat,
    walk: &mut Walk,
    ends: &[NodeId],
    seeds: &[NodeId],
    rounds: u32,
) -> Result<()>
    requires pass { IsPassOf store.now.cells.items pass.now }
    requires inputs { HasInputsOf f.now pass.now }
    requires seat { IsSeatOf memo.now seat.old }
    requires facts { facts_of memo.now ≡ f.now }
    requires walk { IsWalkOf f.now walk.old }
    requires ends { All (λ (n : NodeId). n.0 < node_count f.now.inputs) ends.now }
    requires seeds { All (λ (n : NodeId). n.0 < node_count f.now.inputs) seeds.now }
    ensures seat { IsSeatOf memo.now seat.new }
    ensures walk { IsWalkOf f.now walk.new }
{
    let mut others = Laps::none();
    let mut laps = Laps::none();
    for _ in 0..rounds {
        find(
            rt,
            f,
            store,
            pass,
            memo,
            seat,
            walk,
            ends,
            Mode::Full,
            &mut others,
        )?;
        restart(rt, f, walk, seeds, &mut laps)?;
    }
    println!(rt; "  start after a walk that marked all: {laps}")?;
    Ok(())
}

/// Prints how long it takes to make a walk.
pub fn measure_new(rt: &HostRuntime, f: &Facts, rounds: u32) -> Result<()> {
    let mut laps = Laps::none();
    for _ in 0..rounds {
        let lap = Lap::start(rt)?;
        let _walk = Walk::new(rt.alloc(), f)?;
        laps.add(rt, lap)?;
    }
    println!(rt; "  Walk::new: {laps}")?;
    Ok(())
}
