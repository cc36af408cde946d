// The system of constraints.
ghost use Rattle.std.specs.Prelude.{◌≡◌, ℕ, List, IfOk, Err};
ghost use Rattle.dep_form.specs.Solutions.{IsSolutionOf};
ghost use Rattle.program_form.specs.Programs.{Program};
ghost use Rattle.constraint_form.specs.ConstraintSystems.{IsConstraintSystem};
ghost use Rattle.acceptance.specs.Programs.{AreFew, RefusesProgram};
ghost use Rattle.analysis.specs.Analysed.{IsOf};

use crate::refusing::too_many;
use call_graph::laws::an_entry_takes_its_argument;
use constraint_form::laws::constraints_give_the_facts;
use constraints::whole::constraints;
use dep_form::solution::Solution;
use dep_form::system::System;
use folder_loader::{LoadError, Loaded};
use points_to::solve;
use read_programs::laws::programs_of_code_are_read;
use std::alloc::Global;

/// The system of constraints of a program (`constraints::whole::constraints`), or the line that it has too many methods, or sites.
pub fn system_of(alloc: Global, l: &Loaded) -> Result<System, LoadError>
    requires { (p : Program) × IsOf l.now p }
    ensures made { IfOk result (λ s. (p : Program) → IsOf l.now p → IsConstraintSystem p s × AreFew p) }
    ensures refused { (line : List ℕ) → result ≡ Err (LoadError.Refused line) → (p : Program) → IsOf l.now p → RefusesProgram p line }
    ensures host { result ≡ Err LoadError.Host → ⊥ }
{
    an_entry_takes_its_argument();
    programs_of_code_are_read();
    constraints_give_the_facts();
    let bodies = l.bodies.as_slice();
    let entries = l.entries.items();
    match constraints(alloc, &l.hierarchy, bodies, entries) {
        Ok(system) => Ok(system),
        Err(error) => Err(too_many(alloc, error)),
    }
}

/// What follows from the constraints (`points_to::solve`).
pub fn solution_of(alloc: Global, s: &System) -> Result<Solution, LoadError>
    ensures solved { IfOk result (IsSolutionOf s.now) }
    ensures refused { (line : List ℕ) → result ≡ Err (LoadError.Refused line) → ⊥ }
    ensures host { result ≡ Err LoadError.Host → ⊥ }
{
    match solve(alloc, s) {
        Ok(solution) => Ok(solution),
        Err(_) => Err(LoadError::NoMemory),
    }
}
