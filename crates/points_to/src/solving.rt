// The least solution of a system.
ghost use Rattle.std.specs.Prelude.{◌≡◌, true, IfOk, IsTrue};
ghost use Rattle.dep_form.specs.Solutions.{IsSolutionOf};
ghost use Rattle.points_to.specs.Indexes.{IsSmall};

use crate::index::make_index;
use crate::reading::read;
use crate::rounds::find_all;
use dep_form::solution::Solution;
use dep_form::system::System;
use slicer_ids::ids::NoMemory;
use std::alloc::Global;

// Whether sites, calls and methods have numbers of 32 bits.
fn is_small(system: &System) -> bool
    ensures { result ≡ true → IsSmall system.now }
{
    let sites = system.sites.items().len();
    let calls = system.calls.items().len();
    let methods = system.methods.items().len();
    sites < 0x1_0000_0000 && calls < 0x1_0000_0000 && methods < 0x1_0000_0000
}

fn solve_small(alloc: Global, system: &System) -> Result<Solution, NoMemory>
    requires { IsSmall system.now }
    ensures { IfOk result (λ solution. IsSolutionOf system.now solution) }
{
    let index = make_index(alloc, system)?;
    let found = find_all(alloc, system, &index)?;
    read(alloc, system, &found)
}

/// The least solution of a system of constraints (after Andersen): exactly the facts that have a derivation, by its rules.
/// What a variable may be, where a call may go, which methods may run and what a field may hold grow together until no rule
/// adds a fact.
///
/// The only error is want of memory. A system with 2^32 sites, calls or methods has it too, since their numbers have 32 bits.
/// Sets are rows of bits, so that a flow of one set into another takes a step for each 64 sites up to the last one; where the flow isn't
/// new, it takes one for each word of 64 sites that changed lately. A round tries each rule where something that it reads changed
/// lately, in the order of a search in depth along copies and loads: what goes round a cycle of copies comes round in one round, and is
/// seen unchanged in the next. One last round tries each rule.
pub fn solve(alloc: Global, s: &System) -> Result<Solution, NoMemory>
    ensures { IfOk result (λ solution. IsSolutionOf s.now solution) }
{
    if is_small(s) {
        solve_small(alloc, s)
    } else {
        Err(NoMemory)
    }
}
