// The statements that are refused where they are reached.
ghost use Rattle.std.specs.Prelude.{◌≡◌, ℕ, List, None, Some, OnOk, Err};
ghost use Rattle.dep_form.specs.Solutions.{IsSolutionOf};
ghost use Rattle.program_form.specs.Programs.{Program};
ghost use Rattle.constraint_form.specs.ConstraintSystems.{IsConstraintSystem};
ghost use Rattle.call_graph.specs.Refusals.{IsRefused, IsFirst};
ghost use Rattle.call_graph.specs.declared.refusals.Refused.{Refused};
ghost use Rattle.acceptance.specs.Statements.{IsStatementText, statement_refusal};
ghost use Rattle.analysis.specs.Analysed.{IsOf};

use call_graph::laws::an_entry_takes_its_argument;
use call_graph::{Refused, refused_reached};
use constraint_form::laws::constraints_give_the_facts;
use dep_form::solution::Solution;
use dep_form::system::System;
use folder_loader::{LoadError, Loaded};
use read_programs::laws::programs_of_code_are_read;
use refused_statements::statement_refusal;
use std::alloc::Global;

// A statement is refused.
fn refused(alloc: Global, l: &Loaded, s: &System, sol: &Solution, r: Refused) -> LoadError
    requires program { (p : Program) × IsOf l.now p × IsConstraintSystem p s.now }
    requires solved { IsSolutionOf s.now sol.now }
    ensures line { (line : List ℕ) → result ≡ LoadError.Refused line → (p : Program) → IsOf l.now p → IsConstraintSystem p s.now → IsRefused p r
        → (text : List ℕ) × IsStatementText p r.place text × (line ≡ statement_refusal r.kind text) }
    ensures host { result ≡ LoadError.Host → ⊥ }
{
    an_entry_takes_its_argument();
    programs_of_code_are_read();
    match statement_refusal(alloc, &l.hierarchy, l.bodies.as_slice(), s, sol, r) {
        Ok(line) => LoadError::Refused(line),
        Err(_) => LoadError::NoMemory,
    }
}

/// Looks for the first statement that is reached and refused (`call_graph::refused_reached`); the line on it.
pub fn try_statements(
    alloc: Global,
    l: &Loaded,
    s: &System,
    sol: &Solution,
) -> Result<(), LoadError>
    requires program { (p : Program) × IsOf l.now p × IsConstraintSystem p s.now }
    requires solved { IsSolutionOf s.now sol.now }
    ensures allowed { OnOk result ((p : Program) → IsOf l.now p → IsConstraintSystem p s.now → IsFirst (IsRefused p) None) }
    ensures refused { (line : List ℕ) → result ≡ Err (LoadError.Refused line) → (p : Program) → IsOf l.now p → IsConstraintSystem p s.now
        → (r : Refused) × (text : List ℕ) × IsFirst (IsRefused p) (Some r) × IsStatementText p r.place text × (line ≡ statement_refusal r.kind text) }
    ensures host { result ≡ Err LoadError.Host → ⊥ }
{
    constraints_give_the_facts();
    an_entry_takes_its_argument();
    programs_of_code_are_read();
    match refused_reached(&l.hierarchy, s, sol) {
        None => Ok(()),
        Some(r) => Err(refused(alloc, l, s, sol, r)),
    }
}
