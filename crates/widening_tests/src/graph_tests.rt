// Which graphs slices ask for, worked out by hand.
ghost use Rattle.std.specs.Prelude.{◌≡◌, ◌<◌};

use crate::asked::widen_by_one;
use crate::chains::chain_beside_a_box;
use crate::needed::needed;
use dep_form::facts::Facts;
use plain_slice::edges::are_seeds;
use slice_tests::counted::node_count;
use slice_tests::examples::{at, field_written_by_a_call};
use slicer_ids::ids::{Mode, NoMemory, NodeId};
use slicer_ids::steps::Steps;
use std::alloc::Global;
use std::marker::Brand;
use std::process::Abort;
use std::sync::ledger::{Blank, Ledger};
use std::test::Fail;

// The slice goes through the method that reads the box, through the root, since the box may hold what it held on entry, and through the
// hundred methods of the chain and the one that calls it: 1 to 103, and not through the constructor, 0. What the read access at 15 adds
// is what it is applied to, in its own method: 14, 7 and 0.
fn asks_in<L: Ledger>(
    rt: &impl Abort,
    alloc: Global,
    f: &Facts,
    blank: Blank,
) -> Result<(), NoMemory>
    requires { (blank.name ≡ L.name) × (blank.parts ≡ L.parts) × (0 < L.parts) }
{
    let seeds = [NodeId(17), NodeId(721)];
    assert!(rt; are_seeds(node_count(f), &seeds));
    let mut steps = Steps::<L>::new(blank);
    let asked = widen_by_one(alloc, f, &seeds, at(1, 15), &mut steps)?;
    assert!(rt; asked.first.len() == 103);
    assert!(rt; !asked.first.contains(&0));
    assert!(rt; asked.then.as_slice() == &[1][..]);
    assert!(rt; asked.added.as_slice() == &[7, 11, 15][..]);
    Ok(())
}

fn asks(rt: &impl Abort, alloc: Global, f: &Facts) -> Result<(), NoMemory> {
    asks_in::<Brand>(rt, alloc, f, Blank::new(1))
}

#[test]
fn an_expansion_asks_for_the_graph_of_its_method_alone(rt: HostRuntime) -> Result<(), Fail> {
    let facts = chain_beside_a_box(rt.alloc())?.expect(&rt, "facts");
    asks(&rt, rt.alloc(), &facts)?;
    Ok(())
}

// Whether a seed's slice puts these graphs into the store, by method, the root last.
fn needs_in<L: Ledger>(
    rt: &impl Abort,
    alloc: Global,
    f: &Facts,
    seed: u32,
    mode: Mode,
    expected: &[bool],
    blank: Blank,
) -> Result<(), NoMemory>
    requires { (blank.name ≡ L.name) × (blank.parts ≡ L.parts) × (0 < L.parts) }
{
    let seeds = [NodeId(seed)];
    assert!(rt; are_seeds(node_count(f), &seeds));
    let mut steps = Steps::<L>::new(blank);
    let needed = needed(alloc, f, &seeds, mode, &mut steps)?;
    assert!(rt; needed.as_slice() == expected);
    Ok(())
}

fn needs(
    rt: &impl Abort,
    alloc: Global,
    f: &Facts,
    seed: u32,
    mode: Mode,
    expected: &[bool],
) -> Result<(), NoMemory> {
    needs_in::<Brand>(rt, alloc, f, seed, mode, expected, Blank::new(1))
}

#[test]
fn a_slice_needs_the_graphs_of_its_methods_alone(rt: HostRuntime) -> Result<(), Fail> {
    let facts = field_written_by_a_call(rt.alloc())?.expect(&rt, "facts");
    // the constant of the caller
    needs(
        &rt,
        rt.alloc(),
        &facts,
        9,
        Mode::Thin,
        &[false, true, false],
    )?;
    // what the caller reads was written in the method that it calls
    needs(
        &rt,
        rt.alloc(),
        &facts,
        16,
        Mode::Thin,
        &[true, true, false],
    )?;
    // what the access is applied to was made in the method itself
    needs(
        &rt,
        rt.alloc(),
        &facts,
        14,
        Mode::Full,
        &[false, true, false],
    )?;
    Ok(())
}
