// The solver against the plain reading, on the systems of fixed seeds.

use crate::facts::{Fact, contains};
use crate::generated::generated;
use crate::plain_reading::all_facts;
use crate::solved_facts::facts_of;
use dep_form::solution::Solution;
use dep_form::system::System;
use points_to::solve;
use slicer_ids::ids::NoMemory;
use std::alloc::Global;
use std::process::Abort;
use std::test::Fail;

const SEEDS: u64 = 40;

// How many facts each system has at least.
const LEAST: usize = 5;

// The parts of a solution.
#[derive(Clone, Copy, PartialEq, Eq, Drop)]
enum Part {
    Variables,
    Cells,
    Targets,
    Outside,
    Reached,
}

fn part_of(fact: Fact) -> Part {
    match fact {
        Fact::Has(_, _) => Part::Variables,
        Fact::Cell(_, _, _) => Part::Cells,
        Fact::Calls(_, _) => Part::Targets,
        Fact::OutsideAt(_, _) => Part::Outside,
        Fact::Reached(_) => Part::Reached,
    }
}

fn count(facts: &[Fact], part: Part) -> usize {
    let mut count: usize = 0;
    for fact in facts {
        if part_of(*fact) == part {
            count = count.saturating_add(1);
        }
    }
    count
}

// Whether the facts that are of the part are among the others.
fn are_among(facts: &[Fact], part: Part, others: &[Fact]) -> bool {
    for fact in facts {
        if part_of(*fact) == part && !contains(others, *fact) {
            return false;
        }
    }
    true
}

// Whether two lists have the same facts of the part, as often.
fn agree(facts: &[Fact], others: &[Fact], part: Part) -> bool {
    are_among(facts, part, others)
        && are_among(others, part, facts)
        && count(facts, part) == count(others, part)
}

// The facts by the plain reading, and those of the solution.
#[derive(Drop)]
struct Both {
    plain: Vec<Fact>,
    solved: Vec<Fact>,
}

fn made(alloc: Global, seed: u64) -> Result<System, Fail> {
    match generated(alloc, seed)? {
        None => Err(Fail::from("the parts don't fit together")),
        Some(system) => Ok(system),
    }
}

fn read(alloc: Global, system: &System) -> Result<Vec<Fact>, Fail> {
    match all_facts(alloc, system)? {
        None => Err(Fail::from("the rounds didn't end")),
        Some(facts) => Ok(facts),
    }
}

fn compared(alloc: Global, seed: u64) -> Result<Both, Fail> {
    let system = made(alloc, seed)?;
    let solution = solve(alloc, &system)?;
    let solved = facts_of(alloc, &solution)?;
    let plain = read(alloc, &system)?;
    Ok(Both { plain, solved })
}

// How many facts of the part all systems have together, where none differs.
fn agreed(rt: &impl Abort, alloc: Global, part: Part) -> Result<usize, Fail> {
    let mut total: usize = 0;
    for seed in 0..SEEDS {
        let both = compared(alloc, seed)?;
        let same = agree(both.plain.as_slice(), both.solved.as_slice(), part);
        assert!(rt; same, "seed {seed}");
        total = total.saturating_add(count(both.plain.as_slice(), part));
    }
    Ok(total)
}

#[test]
fn sites_of_variables(rt: HostRuntime) -> Result<(), Fail> {
    let total = agreed(&rt, rt.alloc(), Part::Variables)?;
    assert!(rt; total >= 500, "{total}");
    Ok(())
}

#[test]
fn sites_of_fields(rt: HostRuntime) -> Result<(), Fail> {
    let total = agreed(&rt, rt.alloc(), Part::Cells)?;
    assert!(rt; total >= 500, "{total}");
    Ok(())
}

#[test]
fn targets_of_calls(rt: HostRuntime) -> Result<(), Fail> {
    let total = agreed(&rt, rt.alloc(), Part::Targets)?;
    assert!(rt; total >= 50, "{total}");
    Ok(())
}

#[test]
fn receivers_of_outside_calls(rt: HostRuntime) -> Result<(), Fail> {
    let total = agreed(&rt, rt.alloc(), Part::Outside)?;
    assert!(rt; total >= 60, "{total}");
    Ok(())
}

#[test]
fn reached_methods(rt: HostRuntime) -> Result<(), Fail> {
    let total = agreed(&rt, rt.alloc(), Part::Reached)?;
    assert!(rt; total >= 60, "{total}");
    Ok(())
}

#[test]
fn no_system_is_empty(rt: HostRuntime) -> Result<(), Fail> {
    for seed in 0..SEEDS {
        let system = made(rt.alloc(), seed)?;
        let facts = read(rt.alloc(), &system)?;
        assert!(rt; facts.len() >= LEAST, "seed {seed}");
    }
    Ok(())
}

fn are_in_order(facts: &[Fact]) -> bool {
    for k in 1..facts.len() {
        if facts[k - 1] >= facts[k] {
            return false;
        }
    }
    true
}

fn has_all_tables(system: &System, solution: &Solution) -> bool {
    solution.sites.items().len() as u64 == system.vars
        && solution.targets.items().len() == system.calls.items().len()
        && solution.outside.items().len() == system.calls.items().len()
        && solution.reached.items().len() == system.methods.items().len()
}

#[test]
fn solutions_are_in_order(rt: HostRuntime) -> Result<(), Fail> {
    for seed in 0..SEEDS {
        let system = made(rt.alloc(), seed)?;
        let solution = solve(rt.alloc(), &system)?;
        assert!(rt; has_all_tables(&system, &solution), "seed {seed}");
        let facts = facts_of(rt.alloc(), &solution)?;
        assert!(rt; are_in_order(facts.as_slice()), "seed {seed}");
    }
    Ok(())
}

// All facts but the one of this number.
fn without(alloc: Global, facts: &[Fact], number: usize) -> Result<Vec<Fact>, NoMemory> {
    let mut others = Vec::new(alloc);
    for k in 0..facts.len() {
        if k != number {
            others.push(facts[k])?;
        }
    }
    Ok(others)
}

// Whether the comparison sees that a fact is missing on either side.
fn is_missed(alloc: Global, facts: &[Fact], number: usize) -> Result<bool, NoMemory> {
    let Some(fact) = facts.get(number) else {
        return Ok(false);
    };
    let part = part_of(*fact);
    let others = without(alloc, facts, number)?;
    Ok(!agree(others.as_slice(), facts, part) && !agree(facts, others.as_slice(), part))
}

#[test]
fn each_fact_is_missed(rt: HostRuntime) -> Result<(), Fail> {
    let system = made(rt.alloc(), 0)?;
    let facts = read(rt.alloc(), &system)?;
    for k in 0..facts.len() {
        assert!(rt; is_missed(rt.alloc(), facts.as_slice(), k)?, "fact {k}");
    }
    Ok(())
}
