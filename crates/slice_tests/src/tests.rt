// Slices worked out by hand, and slices by saturation over all edges.

ghost use Rattle.std.specs.Prelude.{◌≡◌, ◌<◌};

use crate::counted::node_count;
use crate::edges::edges_of;
use crate::examples::{field_written_by_a_call, recursion, two_calls};
use crate::sliced::sliced;
use dep_form::facts::Facts;
use dep_form::node::Edge;
use plain_slice::edges::{are_below, are_seeds, expanded_edges, full_edges};
use plain_slice::slices::slice;
use slicer_ids::ids::{Mode, NoMemory, NodeId};
use slicer_ids::steps::Steps;
use std::alloc::Global;
use std::marker::Brand;
use std::process::Abort;
use std::sync::ledger::{Blank, Ledger};
use std::test::Fail;

// Whether a seed's slice has these nodes.
fn slices_to<L: Ledger>(
    rt: &impl Abort,
    alloc: Global,
    f: &Facts,
    seed: u32,
    mode: Mode,
    expected: &[u32],
    blank: Blank,
) -> Result<(), NoMemory>
    requires { (blank.name ≡ L.name) × (blank.parts ≡ L.parts) × (0 < L.parts) }
{
    let seeds = [NodeId(seed)];
    assert!(rt; are_seeds(node_count(f), &seeds));
    let mut steps = Steps::<L>::new(blank);
    let nodes = sliced(alloc, f, &seeds, mode, &mut steps)?;
    assert!(rt; nodes.as_slice() == expected);
    Ok(())
}

/// Whether a seed's slice has these nodes, with a count for nobody.
pub fn walks_to(
    rt: &impl Abort,
    alloc: Global,
    f: &Facts,
    seed: u32,
    mode: Mode,
    expected: &[u32],
) -> Result<(), NoMemory> {
    slices_to::<Brand>(rt, alloc, f, seed, mode, expected, Blank::new(1))
}

#[test]
fn a_return_goes_back_to_its_own_call(rt: HostRuntime) -> Result<(), Fail> {
    let facts = two_calls(rt.alloc())?.expect(&rt, "facts");
    let expected = [0, 1, 2, 3, 4, 6, 7, 8];
    walks_to(&rt, rt.alloc(), &facts, 8, Mode::Thin, &expected)?;
    let expected = [0, 1, 2, 3, 9, 11, 12, 13];
    walks_to(&rt, rt.alloc(), &facts, 13, Mode::Thin, &expected)?;
    Ok(())
}

#[test]
fn a_return_without_its_call_passes(rt: HostRuntime) -> Result<(), Fail> {
    let facts = recursion(rt.alloc())?.expect(&rt, "facts");
    let expected = [3, 4, 10, 11, 12];
    walks_to(&rt, rt.alloc(), &facts, 11, Mode::Thin, &expected)?;
    Ok(())
}

#[test]
fn a_field_written_by_a_call(rt: HostRuntime) -> Result<(), Fail> {
    let facts = field_written_by_a_call(rt.alloc())?.expect(&rt, "facts");
    let expected = [1, 3, 4, 5, 9, 12, 13, 15, 16];
    walks_to(&rt, rt.alloc(), &facts, 16, Mode::Thin, &expected)?;
    let expected = [0, 1, 2, 3, 4, 5, 6, 7, 8, 9, 11, 12, 13, 14, 15, 16];
    walks_to(&rt, rt.alloc(), &facts, 16, Mode::Full, &expected)?;
    Ok(())
}

// Whether the walk and the saturation over all edges find the same slice of a seed.
fn agrees<L: Ledger>(
    rt: &impl Abort,
    alloc: Global,
    f: &Facts,
    edges: &[Edge],
    seed: u32,
    mode: Mode,
    blank: Blank,
) -> Result<(), NoMemory>
    requires { (blank.name ≡ L.name) × (blank.parts ≡ L.parts) × (0 < L.parts) }
{
    let size = node_count(f);
    let seeds = [NodeId(seed)];
    assert!(rt; are_seeds(size, &seeds));
    assert!(rt; size > 1);
    assert!(rt; are_below(size, edges));
    let mut steps = Steps::<L>::new(blank);
    let walked = sliced(alloc, f, &seeds, mode, &mut steps)?;
    let found = slice(alloc, size, edges, &seeds)?;
    assert!(rt; is_same(&walked, &found));
    Ok(())
}

// The same, with a count for nobody.
fn agrees_at(
    rt: &impl Abort,
    alloc: Global,
    f: &Facts,
    edges: &[Edge],
    seed: u32,
    mode: Mode,
) -> Result<(), NoMemory> {
    agrees::<Brand>(rt, alloc, f, edges, seed, mode, Blank::new(1))
}

// Whether both have the same nodes, each once.
fn is_same(walked: &[u32], found: &[NodeId]) -> bool {
    for n in walked {
        if !found.contains(&NodeId(*n)) {
            return false;
        }
    }
    walked.len() == found.len()
}

/// Whether the walk and the saturation find the same slices of all seeds.
pub fn agrees_everywhere(
    rt: &impl Abort,
    alloc: Global,
    facts: Option<Facts>,
) -> Result<(), NoMemory> {
    let facts = facts.expect(rt, "facts");
    let edges = edges_of(alloc, &facts)?;
    let thin = expanded_edges(alloc, &edges, &[])?;
    let full = full_edges(alloc, &edges)?;
    for seed in 0..node_count(&facts) {
        let seed = seed as u32;
        agrees_at(rt, alloc, &facts, &thin, seed, Mode::Thin)?;
        agrees_at(rt, alloc, &facts, &full, seed, Mode::Full)?;
    }
    Ok(())
}

/// The same of the seeds of a range, where all of them take the time of more than one test.
pub fn agrees_between(
    rt: &impl Abort,
    alloc: Global,
    facts: Option<Facts>,
    first: u32,
    end: u32,
) -> Result<(), NoMemory> {
    let facts = facts.expect(rt, "facts");
    let edges = edges_of(alloc, &facts)?;
    let thin = expanded_edges(alloc, &edges, &[])?;
    let full = full_edges(alloc, &edges)?;
    for seed in first..end {
        agrees_at(rt, alloc, &facts, &thin, seed, Mode::Thin)?;
        agrees_at(rt, alloc, &facts, &full, seed, Mode::Full)?;
    }
    Ok(())
}

#[test]
fn every_slice_with_two_calls(rt: HostRuntime) -> Result<(), Fail> {
    let facts = two_calls(rt.alloc())?;
    agrees_everywhere(&rt, rt.alloc(), facts)?;
    Ok(())
}

#[test]
fn every_slice_with_recursion(rt: HostRuntime) -> Result<(), Fail> {
    let facts = recursion(rt.alloc())?;
    agrees_everywhere(&rt, rt.alloc(), facts)?;
    Ok(())
}

#[test]
fn every_slice_with_a_field(rt: HostRuntime) -> Result<(), Fail> {
    let facts = field_written_by_a_call(rt.alloc())?;
    agrees_everywhere(&rt, rt.alloc(), facts)?;
    Ok(())
}
