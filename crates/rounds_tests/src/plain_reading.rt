// The facts that follow from a system, found in rounds.

use crate::between::by_targets;
use crate::facts::{Fact, Known, add};
use crate::outside::by_outside_calls;
use crate::rules::by_constraints;
use dep_form::system::System;
use slicer_ids::ids::NoMemory;
use std::alloc::Global;

// More rounds than a small system has facts.
const ROUNDS: u32 = 1000;

// What follows by one rule from these facts.
fn following(alloc: Global, system: &System, facts: &[Fact]) -> Result<Vec<Fact>, NoMemory> {
    let known = Known {
        alloc,
        system,
        facts,
    };
    let mut found = Vec::new(alloc);
    by_constraints(&known, &mut found)?;
    by_targets(&known, &mut found)?;
    by_outside_calls(&known, &mut found)?;
    Ok(found)
}

fn add_all(facts: &mut Vec<Fact>, found: &[Fact]) -> Result<(), NoMemory> {
    for fact in found {
        add(facts, *fact)?;
    }
    Ok(())
}

// Whether the round added a fact.
fn round(alloc: Global, system: &System, facts: &mut Vec<Fact>) -> Result<bool, NoMemory> {
    let before = facts.len();
    let found = following(alloc, system, facts.as_slice())?;
    add_all(facts, found.as_slice())?;
    Ok(before < facts.len())
}

/// All facts that follow from the system, once each. None where the rounds didn't end.
pub fn all_facts(alloc: Global, system: &System) -> Result<Option<Vec<Fact>>, NoMemory> {
    let mut facts = Vec::new(alloc);
    for _ in 0..ROUNDS {
        if !round(alloc, system, &mut facts)? {
            return Ok(Some(facts));
        }
    }
    Ok(None)
}
