// That slices of these programs show something: in each program bases and calls matter.

use crate::choices::statements_of;
use crate::comparing::{walked, widened_by_all};
use crate::programs::make_program;
use checked_facts::nodes::are_in_one_method;
use dep_form::facts::Facts;
use slice_tests::counted::node_count;
use slicer_ids::ids::{Mode, NoMemory, NodeId, Statement};
use std::alloc::Global;
use std::process::Abort;
use std::test::Fail;

// How many seeds there are whose slice shows something.
#[derive(Clone, Copy, Drop)]
struct Shown {
    /// Expanding all accesses adds nodes.
    wider: u32,
    /// The full slice is greater than the thin one.
    fuller: u32,
    /// The thin slice has nodes of another method than its seed's.
    leaving: u32,
}

fn count_if(holds: bool, count: u32) -> u32 {
    if holds {
        count.saturating_add(1)
    } else {
        count
    }
}

// Whether a slice has nodes of another method than its seed's.
fn leaves_its_method(f: &Facts, seed: u32, nodes: &[u32]) -> bool {
    for n in nodes {
        if !are_in_one_method(f.inputs.items(), NodeId(seed), NodeId(*n)) {
            return true;
        }
    }
    false
}

// What the slices of one more seed show.
fn with_seed(
    rt: &impl Abort,
    alloc: Global,
    f: &Facts,
    accesses: &[Statement],
    seed: u32,
    shown: Shown,
) -> Result<Shown, NoMemory> {
    let thin = walked(rt, alloc, f, seed, Mode::Thin)?;
    let full = walked(rt, alloc, f, seed, Mode::Full)?;
    let wide = widened_by_all(rt, alloc, f, seed, accesses)?;
    Ok(Shown {
        wider: count_if(wide.len() > thin.len(), shown.wider),
        fuller: count_if(full.len() > thin.len(), shown.fuller),
        leaving: count_if(leaves_its_method(f, seed, &thin), shown.leaving),
    })
}

// What the slices of all seeds show.
fn shown_by(
    rt: &impl Abort,
    alloc: Global,
    f: &Facts,
    accesses: &[Statement],
) -> Result<Shown, NoMemory> {
    let mut shown = Shown {
        wider: 0,
        fuller: 0,
        leaving: 0,
    };
    for seed in 0..node_count(f) {
        shown = with_seed(rt, alloc, f, accesses, seed as u32, shown)?;
    }
    Ok(shown)
}

#[test]
fn bases_and_calls_matter(rt: HostRuntime) -> Result<(), Fail> {
    for number in 0..40 {
        let program = make_program(rt.alloc(), number)?;
        let accesses = statements_of(rt.alloc(), &program.expansions)?;
        let facts = program.facts.expect(&rt, "facts");
        let shown = shown_by(&rt, rt.alloc(), &facts, &accesses)?;
        assert!(rt; shown.wider > 0);
        assert!(rt; shown.fuller > 0);
        assert!(rt; shown.leaving > 0);
    }
    Ok(())
}
