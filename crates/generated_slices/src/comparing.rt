// Fast slices beside those of the reading.
ghost use Rattle.std.specs.Prelude.{◌≡◌, ◌<◌};

use crate::choices::{ends_of, statements_of, turned_statements_of};
use crate::flows::Expansion;
use crate::reading::{Reading, read};
use dep_form::facts::Facts;
use plain_slice::edges::{are_below, are_seeds, expanded_edges, full_edges};
use plain_slice::slices::slice;
use slice_tests::counted::node_count;
use slice_tests::edges::edges_of;
use slice_tests::sliced::sliced;
use slicer_ids::ids::{Mode, NoMemory, NodeId, Statement};
use slicer_ids::steps::Steps;
use std::alloc::Global;
use std::marker::Brand;
use std::process::Abort;
use std::sync::ledger::{Blank, Ledger};
use widening_tests::widened::{widened, widened_at_once};

fn walked_in<L: Ledger>(
    rt: &impl Abort,
    alloc: Global,
    f: &Facts,
    seed: u32,
    mode: Mode,
    blank: Blank,
) -> Result<Vec<u32>, NoMemory>
    requires { (blank.name ≡ L.name) × (blank.parts ≡ L.parts) × (0 < L.parts) }
{
    let seeds = [NodeId(seed)];
    assert!(rt; are_seeds(node_count(f), &seeds));
    let mut steps = Steps::<L>::new(blank);
    sliced(alloc, f, &seeds, mode, &mut steps)
}

/// The slice of a seed as a session finds it.
pub fn walked(
    rt: &impl Abort,
    alloc: Global,
    f: &Facts,
    seed: u32,
    mode: Mode,
) -> Result<Vec<u32>, NoMemory> {
    walked_in::<Brand>(rt, alloc, f, seed, mode, Blank::new(1))
}

fn widened_in<L: Ledger>(
    rt: &impl Abort,
    alloc: Global,
    f: &Facts,
    seed: u32,
    accesses: &[Statement],
    blank: Blank,
) -> Result<Vec<u32>, NoMemory>
    requires { (blank.name ≡ L.name) × (blank.parts ≡ L.parts) × (0 < L.parts) }
{
    let seeds = [NodeId(seed)];
    assert!(rt; are_seeds(node_count(f), &seeds));
    let mut steps = Steps::<L>::new(blank);
    widened(alloc, f, &seeds, accesses, &mut steps)
}

/// The slice of a seed, widened by one access after the other.
pub fn widened_by(
    rt: &impl Abort,
    alloc: Global,
    f: &Facts,
    seed: u32,
    accesses: &[Statement],
) -> Result<Vec<u32>, NoMemory> {
    widened_in::<Brand>(rt, alloc, f, seed, accesses, Blank::new(1))
}

fn at_once_in<L: Ledger>(
    rt: &impl Abort,
    alloc: Global,
    f: &Facts,
    seed: u32,
    accesses: &[Statement],
    blank: Blank,
) -> Result<Vec<u32>, NoMemory>
    requires { (blank.name ≡ L.name) × (blank.parts ≡ L.parts) × (0 < L.parts) }
{
    let seeds = [NodeId(seed)];
    assert!(rt; are_seeds(node_count(f), &seeds));
    let mut steps = Steps::<L>::new(blank);
    widened_at_once(alloc, f, &seeds, accesses, &mut steps)
}

/// The slice of a seed, widened by all accesses at once.
pub fn widened_by_all(
    rt: &impl Abort,
    alloc: Global,
    f: &Facts,
    seed: u32,
    accesses: &[Statement],
) -> Result<Vec<u32>, NoMemory> {
    at_once_in::<Brand>(rt, alloc, f, seed, accesses, Blank::new(1))
}

/// The reading of the edges that thin slices follow.
pub fn thin_reading(rt: &impl Abort, alloc: Global, f: &Facts) -> Result<Reading, NoMemory> {
    wide_reading(rt, alloc, f, &[])
}

/// The reading of the edges that full slices follow.
pub fn full_reading(rt: &impl Abort, alloc: Global, f: &Facts) -> Result<Reading, NoMemory> {
    let edges = edges_of(alloc, f)?;
    let full = full_edges(alloc, &edges)?;
    let reading = read(alloc, node_count(f), full)?;
    Ok(reading.expect(rt, "edges between nodes"))
}

/// The reading of the edges of thin slices with some accesses expanded.
pub fn wide_reading(
    rt: &impl Abort,
    alloc: Global,
    f: &Facts,
    expanded: &[Expansion],
) -> Result<Reading, NoMemory> {
    let edges = edges_of(alloc, f)?;
    let ends = ends_of(alloc, expanded)?;
    let wide = expanded_edges(alloc, &edges, &ends)?;
    let reading = read(alloc, node_count(f), wide)?;
    Ok(reading.expect(rt, "edges between nodes"))
}

/// Whether the walk finds what the reading says, for every seed.
pub fn walks_everywhere(
    rt: &impl Abort,
    alloc: Global,
    f: &Facts,
    mode: Mode,
    reading: &Reading,
) -> Result<(), NoMemory> {
    for seed in 0..node_count(f) {
        let expected = reading.slice(alloc, seed as u32)?;
        let found = walked(rt, alloc, f, seed as u32, mode)?;
        assert!(rt; found.as_slice() == expected.as_slice());
    }
    Ok(())
}

// Whether widening finds what the reading says, for every seed: one access after the other, in this order, and all at once.
fn widens_everywhere(
    rt: &impl Abort,
    alloc: Global,
    f: &Facts,
    accesses: &[Statement],
    reading: &Reading,
) -> Result<(), NoMemory> {
    for seed in 0..node_count(f) {
        let expected = reading.slice(alloc, seed as u32)?;
        let found = widened_by(rt, alloc, f, seed as u32, accesses)?;
        assert!(rt; found.as_slice() == expected.as_slice());
        let found = widened_by_all(rt, alloc, f, seed as u32, accesses)?;
        assert!(rt; found.as_slice() == expected.as_slice());
    }
    Ok(())
}

/// Whether widening by these accesses finds what the reading says, for every seed and in both orders.
pub fn widens_by(
    rt: &impl Abort,
    alloc: Global,
    f: &Facts,
    expanded: &[Expansion],
) -> Result<(), NoMemory> {
    let reading = wide_reading(rt, alloc, f, expanded)?;
    let accesses = statements_of(alloc, expanded)?;
    widens_everywhere(rt, alloc, f, &accesses, &reading)?;
    if expanded.len() < 2 {
        return Ok(());
    }
    let accesses = turned_statements_of(alloc, expanded)?;
    widens_everywhere(rt, alloc, f, &accesses, &reading)
}

// Whether both have the same nodes, each once.
fn is_same(read: &[u32], found: &[NodeId]) -> bool {
    for n in read {
        if !found.contains(&NodeId(*n)) {
            return false;
        }
    }
    read.len() == found.len()
}

/// Whether the reading of edges says the same as saturation over them, for one seed.
pub fn reads_right(
    rt: &impl Abort,
    alloc: Global,
    f: &Facts,
    reading: &Reading,
    seed: u32,
) -> Result<(), NoMemory> {
    let size = node_count(f);
    let edges = reading.edges();
    let seeds = [NodeId(seed)];
    assert!(rt; are_seeds(size, &seeds));
    assert!(rt; size > 1);
    assert!(rt; are_below(size, edges));
    let found = slice(alloc, size, edges, &seeds)?;
    let read = reading.slice(alloc, seed)?;
    assert!(rt; is_same(&read, &found));
    Ok(())
}
