// Slices of programs that are made from numbers, every node a seed, beside the readings of their edges.

use crate::choices::choices;
use crate::comparing::{
    full_reading, reads_right, thin_reading, walks_everywhere, wide_reading, widens_by,
};
use crate::flows::Expansion;
use crate::programs::make_program;
use crate::reading::Reading;
use dep_form::facts::Facts;
use slice_tests::counted::node_count;
use slicer_ids::ids::{Mode, NoMemory};
use std::alloc::Global;
use std::process::Abort;
use std::test::Fail;

// Whether the thin and the full slices of a number's program are those of the reading.
fn slices_of(rt: &impl Abort, alloc: Global, number: u32) -> Result<(), NoMemory> {
    let facts = make_program(alloc, number)?.facts.expect(rt, "facts");
    let thin = thin_reading(rt, alloc, &facts)?;
    walks_everywhere(rt, alloc, &facts, Mode::Thin, &thin)?;
    let full = full_reading(rt, alloc, &facts)?;
    walks_everywhere(rt, alloc, &facts, Mode::Full, &full)
}

// Whether the slices of a number's program, widened by each access, each two and all, are those of the reading.
fn wide_slices_of(rt: &impl Abort, alloc: Global, number: u32) -> Result<(), NoMemory> {
    let program = make_program(alloc, number)?;
    let choices = choices(alloc, &program.expansions)?;
    let facts = program.facts.expect(rt, "facts");
    for choice in &choices {
        widens_by(rt, alloc, &facts, choice)?;
    }
    Ok(())
}

// Whether this holds for all numbers of a range.
fn wide_slices_between(
    rt: &impl Abort,
    alloc: Global,
    first: u32,
    end: u32,
) -> Result<(), NoMemory> {
    for number in first..end {
        wide_slices_of(rt, alloc, number)?;
    }
    Ok(())
}

// Whether a reading of edges says the same as saturation over them, for every seed.
fn reads_everywhere(
    rt: &impl Abort,
    alloc: Global,
    f: &Facts,
    reading: &Reading,
) -> Result<(), NoMemory> {
    for seed in 0..node_count(f) {
        reads_right(rt, alloc, f, reading, seed as u32)?;
    }
    Ok(())
}

// The same of the three readings of a program, the last one with all accesses expanded.
fn readings_are_right(
    rt: &impl Abort,
    alloc: Global,
    f: &Facts,
    expansions: &[Expansion],
) -> Result<(), NoMemory> {
    let thin = thin_reading(rt, alloc, f)?;
    reads_everywhere(rt, alloc, f, &thin)?;
    let full = full_reading(rt, alloc, f)?;
    reads_everywhere(rt, alloc, f, &full)?;
    let wide = wide_reading(rt, alloc, f, expansions)?;
    reads_everywhere(rt, alloc, f, &wide)
}

#[test]
fn every_number_makes_a_program(rt: HostRuntime) -> Result<(), Fail> {
    for number in 0..40 {
        let program = make_program(rt.alloc(), number)?;
        assert!(rt; program.facts.is_some());
    }
    Ok(())
}

#[test]
fn every_slice_of_forty_programs(rt: HostRuntime) -> Result<(), Fail> {
    for number in 0..40 {
        slices_of(&rt, rt.alloc(), number)?;
    }
    Ok(())
}

#[test]
fn every_wide_slice_of_twenty_programs(rt: HostRuntime) -> Result<(), Fail> {
    wide_slices_between(&rt, rt.alloc(), 0, 20)?;
    Ok(())
}

#[test]
fn every_wide_slice_of_twenty_more(rt: HostRuntime) -> Result<(), Fail> {
    wide_slices_between(&rt, rt.alloc(), 20, 40)?;
    Ok(())
}

// Saturation takes the square of the edges and the square of the pairs for each seed anew, so this is for the smaller programs.
#[test]
fn readings_are_what_saturation_finds(rt: HostRuntime) -> Result<(), Fail> {
    for number in [0, 3, 8, 11, 13, 18, 19, 21, 25, 26] {
        let program = make_program(rt.alloc(), number)?;
        let facts = program.facts.expect(&rt, "facts");
        readings_are_right(&rt, rt.alloc(), &facts, &program.expansions)?;
    }
    Ok(())
}
