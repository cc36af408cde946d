// Which accesses are expanded together.

use crate::flows::Expansion;
use slicer_ids::ids::{NoMemory, NodeId, Statement};
use std::alloc::Global;

// So many of the accesses, from a place on.
fn some_from(
    alloc: Global,
    all: &[Expansion],
    first: usize,
    count: usize,
) -> Result<Vec<Expansion>, NoMemory> {
    let end = first.saturating_add(count);
    let mut some = Vec::new(alloc);
    let mut k = 0usize;
    for expansion in all {
        if first <= k && k < end {
            some.push(*expansion)?;
        }
        k = k.saturating_add(1);
    }
    Ok(some)
}

// Each run of so many accesses.
fn add_runs(
    alloc: Global,
    choices: &mut Vec<Vec<Expansion>>,
    all: &[Expansion],
    count: usize,
) -> Result<(), NoMemory> {
    for first in 0..all.len().saturating_add(1).saturating_sub(count) {
        let run = some_from(alloc, all, first, count)?;
        choices.push(run)?;
    }
    Ok(())
}

/// Each access alone, each two that follow one another, and all.
pub fn choices(alloc: Global, all: &[Expansion]) -> Result<Vec<Vec<Expansion>>, NoMemory> {
    let mut choices = Vec::new(alloc);
    add_runs(alloc, &mut choices, all, 1)?;
    add_runs(alloc, &mut choices, all, 2)?;
    if all.len() > 2 {
        add_runs(alloc, &mut choices, all, all.len())?;
    }
    Ok(choices)
}

/// The own nodes of the accesses.
pub fn ends_of(alloc: Global, some: &[Expansion]) -> Result<Vec<NodeId>, NoMemory> {
    let mut ends = Vec::new(alloc);
    for expansion in some {
        ends.push(expansion.end)?;
    }
    Ok(ends)
}

/// Their statements, in order.
pub fn statements_of(alloc: Global, some: &[Expansion]) -> Result<Vec<Statement>, NoMemory> {
    let mut statements = Vec::new(alloc);
    for expansion in some {
        statements.push(expansion.statement)?;
    }
    Ok(statements)
}

/// Their statements, the last one first.
pub fn turned_statements_of(alloc: Global, some: &[Expansion]) -> Result<Vec<Statement>, NoMemory> {
    let mut statements = statements_of(alloc, some)?;
    statements.reverse();
    Ok(statements)
}
