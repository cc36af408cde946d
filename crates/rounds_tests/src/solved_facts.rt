// The facts of a solution.

use crate::facts::Fact;
use crate::numbers::number;
use dep_form::rules::Var;
use dep_form::solution::Solution;
use slicer_ids::ids::{CallId, MethodId, NoMemory, SiteId};
use std::alloc::Global;

fn add_has(k: usize, sites: &[SiteId], facts: &mut Vec<Fact>) -> Result<(), NoMemory> {
    for site in sites {
        facts.push(Fact::Has(Var(k as u64), *site))?;
    }
    Ok(())
}

fn add_variables(solution: &Solution, facts: &mut Vec<Fact>) -> Result<(), NoMemory> {
    let lists = solution.sites.items();
    for k in 0..lists.len() {
        add_has(k, lists[k].items(), facts)?;
    }
    Ok(())
}

fn add_cells(solution: &Solution, facts: &mut Vec<Fact>) -> Result<(), NoMemory> {
    for cell in solution.cells.items() {
        facts.push(Fact::Cell(cell.0, cell.1, cell.2))?;
    }
    Ok(())
}

fn add_call(k: usize, targets: &[MethodId], facts: &mut Vec<Fact>) -> Result<(), NoMemory> {
    for target in targets {
        facts.push(Fact::Calls(CallId(number(k)), *target))?;
    }
    Ok(())
}

fn add_targets(solution: &Solution, facts: &mut Vec<Fact>) -> Result<(), NoMemory> {
    let lists = solution.targets.items();
    for k in 0..lists.len() {
        add_call(k, lists[k].items(), facts)?;
    }
    Ok(())
}

fn add_outside_call(
    k: usize,
    receivers: &[Option<SiteId>],
    facts: &mut Vec<Fact>,
) -> Result<(), NoMemory> {
    for receiver in receivers {
        facts.push(Fact::OutsideAt(CallId(number(k)), *receiver))?;
    }
    Ok(())
}

fn add_outside(solution: &Solution, facts: &mut Vec<Fact>) -> Result<(), NoMemory> {
    let lists = solution.outside.items();
    for k in 0..lists.len() {
        add_outside_call(k, lists[k].items(), facts)?;
    }
    Ok(())
}

fn add_reached(solution: &Solution, facts: &mut Vec<Fact>) -> Result<(), NoMemory> {
    let reached = solution.reached.items();
    for k in 0..reached.len() {
        if reached[k] {
            facts.push(Fact::Reached(MethodId(number(k))))?;
        }
    }
    Ok(())
}

/// All facts of the solution, as often as it has them.
pub fn facts_of(alloc: Global, solution: &Solution) -> Result<Vec<Fact>, NoMemory> {
    let mut facts = Vec::new(alloc);
    add_variables(solution, &mut facts)?;
    add_cells(solution, &mut facts)?;
    add_targets(solution, &mut facts)?;
    add_outside(solution, &mut facts)?;
    add_reached(solution, &mut facts)?;
    Ok(facts)
}
