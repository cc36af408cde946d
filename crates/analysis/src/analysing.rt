// A program, analysed.
ghost use Rattle.std.specs.Prelude.{◌≡◌, ℕ, List, IfOk, Err};
ghost use Rattle.program_form.specs.Programs.{Program};
ghost use Rattle.acceptance.specs.Programs.{RefusesProgram};
ghost use Rattle.analysis.specs.Analysed.{IsOf, IsAnalysisOf};

use crate::effects::effects_of;
use crate::statements::try_statements;
use crate::system::{solution_of, system_of};
use dep_form::effects::ModRef;
use dep_form::solution::Solution;
use dep_form::system::System;
use folder_loader::{LoadError, Loaded};
use std::alloc::Global;

/// What is found of a program before its facts are made.
#[derive(Drop)]
pub struct Analysed {
    /// Its system of constraints.
    pub system: System,
    /// What follows from them.
    pub solution: Solution,
    /// What its methods change and read on the heap.
    pub effects: ModRef,
}

/// Analyses a program that was loaded.
///
/// `Refused` has the line of the first of these: there are too many methods, or allocation sites; a statement that is reached is
/// refused; there are too many locations that some method changes and some reads. `Host` is never answered.
pub fn analyse(alloc: Global, l: &Loaded) -> Result<Analysed, LoadError>
    requires { (p : Program) × IsOf l.now p }
    ensures analysed { IfOk result (λ a. (p : Program) → IsOf l.now p → IsAnalysisOf p a.system a.solution a.effects) }
    ensures refused { (line : List ℕ) → result ≡ Err (LoadError.Refused line) → (p : Program) → IsOf l.now p → RefusesProgram p line }
    ensures host { result ≡ Err LoadError.Host → ⊥ }
{
    let system = system_of(alloc, l)?;
    let solution = solution_of(alloc, &system)?;
    try_statements(alloc, l, &system, &solution)?;
    let effects = effects_of(alloc, l, &system, &solution)?;
    Ok(Analysed {
        system,
        solution,
        effects,
    })
}
