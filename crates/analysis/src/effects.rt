// What methods change and read on the heap.
ghost use Rattle.std.specs.Prelude.{◌≡◌, ◌^◌, ℕ, List, IfOk, Err};
ghost use Rattle.dep_form.specs.Effects.{IsModRefOf};
ghost use Rattle.dep_form.specs.Solutions.{IsSolutionOf};
ghost use Rattle.program_form.specs.Effects.{IsTraced};
ghost use Rattle.program_form.specs.Programs.{Program};
ghost use Rattle.constraint_form.specs.ConstraintSystems.{IsConstraintSystem};
ghost use Rattle.acceptance.specs.Programs.{AreAtMost, AreTooMany};
ghost use Rattle.refusal_lines.specs.Refusals.{limit_refusal};
ghost use Rattle.slicer_ids.specs.declared.limits.LimitKind.TheVariants.{Locations};
ghost use Rattle.analysis.specs.Analysed.{IsOf};

use crate::refusing::too_many;
use call_graph::laws::an_entry_takes_its_argument;
use constraint_form::laws::{constraints_give_the_facts, static_spots_are_of_static_variables};
use dep_form::effects::ModRef;
use dep_form::solution::Solution;
use dep_form::system::System;
use folder_loader::{LoadError, Loaded};
use mod_ref::mod_ref;
use read_programs::laws::programs_of_code_are_read;
use std::alloc::Global;

/// What methods change and read (`mod_ref::mod_ref`), or the line that there are too many locations.
pub fn effects_of(
    alloc: Global,
    l: &Loaded,
    s: &System,
    sol: &Solution,
) -> Result<ModRef, LoadError>
    requires { IsSolutionOf s.now sol.now }
    ensures described { IfOk result (IsModRefOf s.now) }
    ensures few { IfOk result (λ mr. (p : Program) → IsOf l.now p → IsConstraintSystem p s.now → AreAtMost (IsTraced p) (2 ^ 20)) }
    ensures refused { (line : List ℕ) → result ≡ Err (LoadError.Refused line) → (p : Program) → IsOf l.now p → IsConstraintSystem p s.now
        → (n : ℕ) × AreTooMany (IsTraced p) (2 ^ 20) n × (line ≡ limit_refusal Locations n) }
    ensures host { result ≡ Err LoadError.Host → ⊥ }
{
    an_entry_takes_its_argument();
    programs_of_code_are_read();
    constraints_give_the_facts();
    static_spots_are_of_static_variables();
    match mod_ref(alloc, s, sol) {
        Ok(effects) => Ok(effects),
        Err(error) => Err(too_many(alloc, error)),
    }
}
