// Widened slices worked out by hand, and by saturation over all edges.
ghost use Rattle.std.specs.Prelude.{◌≡◌, ◌<◌};

use crate::boxes::boxed;
use crate::widened::{widened, widened_at_once};
use dep_form::facts::Facts;
use dep_form::node::Edge;
use plain_slice::edges::{are_below, are_seeds, expanded_edges};
use plain_slice::slices::slice;
use slice_tests::counted::node_count;
use slice_tests::dependences::{array_copies, outside_arrays};
use slice_tests::edges::edges_of;
use slice_tests::examples::{at, field_written_by_a_call, recursion, two_calls};
use slicer_ids::ids::{NoMemory, NodeId, Statement};
use slicer_ids::steps::Steps;
use std::alloc::Global;
use std::marker::Brand;
use std::process::Abort;
use std::sync::ledger::{Blank, Ledger};
use std::test::Fail;

fn widens_in<L: Ledger>(
    rt: &impl Abort,
    alloc: Global,
    f: &Facts,
    seed: u32,
    accesses: &[Statement],
    expected: &[u32],
    blank: Blank,
) -> Result<(), NoMemory>
    requires { (blank.name ≡ L.name) × (blank.parts ≡ L.parts) × (0 < L.parts) }
{
    let seeds = [NodeId(seed)];
    assert!(rt; are_seeds(node_count(f), &seeds));
    let mut steps = Steps::<L>::new(blank);
    let nodes = widened(alloc, f, &seeds, accesses, &mut steps)?;
    assert!(rt; nodes.as_slice() == expected);
    Ok(())
}

fn widens_to(
    rt: &impl Abort,
    alloc: Global,
    f: &Facts,
    seed: u32,
    accesses: &[Statement],
    expected: &[u32],
) -> Result<(), NoMemory> {
    widens_in::<Brand>(rt, alloc, f, seed, accesses, expected, Blank::new(1))
}

// The slice of 18: what it reads was put at 11 from 9. With the base of 15 also 14, 7 and 0; with that of 11 also 8, 7 and 0. By the root,
// what the box holds in the end (19, 22) is there on entry (21, 6).
#[test]
fn bases_of_a_box(rt: HostRuntime) -> Result<(), Fail> {
    let facts = boxed(rt.alloc())?.expect(&rt, "facts");
    let thin = [6, 13, 14, 16, 17, 19, 21, 22];
    widens_to(&rt, rt.alloc(), &facts, 17, &[], &thin)?;
    let read = [6, 7, 11, 13, 14, 15, 16, 17, 19, 21, 22];
    widens_to(&rt, rt.alloc(), &facts, 17, &[at(1, 15)], &read)?;
    let put = [6, 7, 11, 12, 13, 14, 16, 17, 19, 21, 22];
    widens_to(&rt, rt.alloc(), &facts, 17, &[at(1, 11)], &put)?;
    let both = [6, 7, 11, 12, 13, 14, 15, 16, 17, 19, 21, 22];
    widens_to(&rt, rt.alloc(), &facts, 17, &[at(1, 15), at(1, 11)], &both)?;
    Ok(())
}

// The reader's access needs 14, which comes from 7, of its own method. The setter's needs 2, which comes from its formal, 0, and so from
// the argument 11 of the call, from 8, 7 and 6.
#[test]
fn bases_of_a_field(rt: HostRuntime) -> Result<(), Fail> {
    let facts = field_written_by_a_call(rt.alloc())?.expect(&rt, "facts");
    let thin = [1, 3, 4, 5, 9, 12, 13, 15, 16];
    widens_to(&rt, rt.alloc(), &facts, 16, &[], &thin)?;
    let read = [1, 3, 4, 5, 6, 7, 9, 12, 13, 14, 15, 16];
    widens_to(&rt, rt.alloc(), &facts, 16, &[at(1, 12)], &read)?;
    let written = [0, 1, 2, 3, 4, 5, 6, 7, 8, 9, 11, 12, 13, 15, 16];
    widens_to(&rt, rt.alloc(), &facts, 16, &[at(0, 2)], &written)?;
    Ok(())
}

#[test]
fn bases_of_a_field_in_either_order(rt: HostRuntime) -> Result<(), Fail> {
    let facts = field_written_by_a_call(rt.alloc())?.expect(&rt, "facts");
    let both = [0, 1, 2, 3, 4, 5, 6, 7, 8, 9, 11, 12, 13, 14, 15, 16];
    widens_to(&rt, rt.alloc(), &facts, 16, &[at(0, 2), at(1, 12)], &both)?;
    widens_to(&rt, rt.alloc(), &facts, 16, &[at(1, 12), at(0, 2)], &both)?;
    Ok(())
}

// An access that was expanded before, a statement that is none, and an access of which the slice has nothing add nothing.
#[test]
fn expansions_that_add_nothing(rt: HostRuntime) -> Result<(), Fail> {
    let facts = boxed(rt.alloc())?.expect(&rt, "facts");
    let read = [6, 7, 11, 13, 14, 15, 16, 17, 19, 21, 22];
    widens_to(&rt, rt.alloc(), &facts, 17, &[at(1, 15), at(1, 15)], &read)?;
    let thin = [6, 13, 14, 16, 17, 19, 21, 22];
    widens_to(&rt, rt.alloc(), &facts, 17, &[at(1, 9)], &thin)?;
    widens_to(&rt, rt.alloc(), &facts, 13, &[at(1, 15)], &[13])?;
    Ok(())
}

// Whether both have the same nodes, each once.
fn is_same(wide: &[u32], found: &[NodeId]) -> bool {
    for n in wide {
        if !found.contains(&NodeId(*n)) {
            return false;
        }
    }
    wide.len() == found.len()
}

// Whether the widened slice of a seed is the one by saturation, with the accesses expanded one after the other, and all at once.
fn agrees<L: Ledger>(
    rt: &impl Abort,
    alloc: Global,
    f: &Facts,
    edges: &[Edge],
    seed: u32,
    accesses: &[Statement],
    blank: Blank,
) -> Result<(), NoMemory>
    requires { (blank.name ≡ L.name) × (blank.parts ≡ L.parts) × (0 < L.parts) }
{
    let size = node_count(f);
    let seeds = [NodeId(seed)];
    assert!(rt; are_seeds(size, &seeds));
    assert!(rt; size > 1);
    assert!(rt; are_below(size, edges));
    let mut steps = Steps::<L>::new(blank);
    let found = slice(alloc, size, edges, &seeds)?;
    let wide = widened(alloc, f, &seeds, accesses, &mut steps)?;
    assert!(rt; is_same(&wide, &found));
    let wide = widened_at_once(alloc, f, &seeds, accesses, &mut steps)?;
    assert!(rt; is_same(&wide, &found));
    Ok(())
}

// The same, with a count for nobody.
fn agrees_at(
    rt: &impl Abort,
    alloc: Global,
    f: &Facts,
    edges: &[Edge],
    seed: u32,
    accesses: &[Statement],
) -> Result<(), NoMemory> {
    agrees::<Brand>(rt, alloc, f, edges, seed, accesses, Blank::new(1))
}

// Whether this holds for every seed. The ends are the own nodes of the accesses.
fn agrees_everywhere(
    rt: &impl Abort,
    alloc: Global,
    f: &Facts,
    ends: &[NodeId],
    accesses: &[Statement],
) -> Result<(), NoMemory> {
    let edges = edges_of(alloc, f)?;
    let wide = expanded_edges(alloc, &edges, ends)?;
    for seed in 0..node_count(f) {
        agrees_at(rt, alloc, f, &wide, seed as u32, accesses)?;
    }
    Ok(())
}

// Whether this holds for some seeds.
fn agrees_for(
    rt: &impl Abort,
    alloc: Global,
    f: &Facts,
    seeds: &[u32],
    ends: &[NodeId],
    accesses: &[Statement],
) -> Result<(), NoMemory> {
    let edges = edges_of(alloc, f)?;
    let wide = expanded_edges(alloc, &edges, ends)?;
    for seed in seeds {
        agrees_at(rt, alloc, f, &wide, *seed, accesses)?;
    }
    Ok(())
}

#[test]
fn every_wide_slice_with_calls(rt: HostRuntime) -> Result<(), Fail> {
    let facts = two_calls(rt.alloc())?.expect(&rt, "facts");
    agrees_everywhere(&rt, rt.alloc(), &facts, &[], &[])?;
    let facts = recursion(rt.alloc())?.expect(&rt, "facts");
    agrees_everywhere(&rt, rt.alloc(), &facts, &[], &[])?;
    Ok(())
}

#[test]
fn every_wide_slice_with_a_box(rt: HostRuntime) -> Result<(), Fail> {
    let facts = boxed(rt.alloc())?.expect(&rt, "facts");
    let both = [at(1, 15), at(1, 11)];
    agrees_everywhere(&rt, rt.alloc(), &facts, &[], &[])?;
    agrees_everywhere(&rt, rt.alloc(), &facts, &[NodeId(16)], &[at(1, 15)])?;
    agrees_everywhere(&rt, rt.alloc(), &facts, &[NodeId(14)], &[at(1, 11)])?;
    agrees_everywhere(&rt, rt.alloc(), &facts, &[NodeId(14), NodeId(16)], &both)?;
    Ok(())
}

#[test]
fn every_wide_slice_with_a_field(rt: HostRuntime) -> Result<(), Fail> {
    let facts = field_written_by_a_call(rt.alloc())?.expect(&rt, "facts");
    let both = [at(1, 12), at(0, 2)];
    agrees_everywhere(&rt, rt.alloc(), &facts, &[], &[])?;
    agrees_everywhere(&rt, rt.alloc(), &facts, &[NodeId(15)], &[at(1, 12)])?;
    agrees_everywhere(&rt, rt.alloc(), &facts, &[NodeId(4)], &[at(0, 2)])?;
    agrees_everywhere(&rt, rt.alloc(), &facts, &[NodeId(4), NodeId(15)], &both)?;
    Ok(())
}

// Seeds: the copy, the element that is read and where it is kept, and what is there in the end of the first array and of the second.
#[test]
fn wide_slices_with_an_array_copy(rt: HostRuntime) -> Result<(), Fail> {
    let facts = array_copies(rt.alloc())?.expect(&rt, "facts");
    let seeds = [18, 26, 27, 29, 30];
    let both = [at(0, 23), at(0, 8)];
    agrees_for(&rt, rt.alloc(), &facts, &seeds, &[NodeId(26)], &[at(0, 23)])?;
    agrees_for(&rt, rt.alloc(), &facts, &seeds, &[NodeId(9)], &[at(0, 8)])?;
    agrees_for(
        &rt,
        rt.alloc(),
        &facts,
        &seeds,
        &[NodeId(9), NodeId(26)],
        &both,
    )?;
    Ok(())
}

#[test]
fn every_wide_slice_with_an_outside_array(rt: HostRuntime) -> Result<(), Fail> {
    let facts = outside_arrays(rt.alloc())?.expect(&rt, "facts");
    agrees_everywhere(&rt, rt.alloc(), &facts, &[NodeId(10)], &[at(0, 8)])?;
    Ok(())
}
