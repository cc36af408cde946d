// The numbers of what a statement is, reads and makes.
ghost use Rattle.std.specs.Prelude.{◌≡◌, List};
ghost use Rattle.dep_form.specs.declared.system.System.{System};
ghost use Rattle.dep_form.specs.Constraints.{elements_field, length_field, state_field};
ghost use Rattle.program_form.specs.Programs.{Program};
ghost use Rattle.constraint_form.specs.Variables.{Meaning, OperandNumber};
ghost use Rattle.constraint_rules.specs.One.{IsOne};
ghost use Rattle.constraint_rules.specs.Settings.{IsSetting, IsPlaced, IsReady, place_of};
ghost use Rattle.constraint_rules.specs.Statements.{IsValue};

use crate::tables::{Reachable, Tables};
use dep_form::rules::Var;
use slicer_ids::ids::{FieldId, Statement};

/// The statement of an instruction.
pub fn statement_of(x: &Reachable<'_>) -> Statement
    ensures { result ≡ place_of x.now }
{
    Statement {
        method: x.body.method,
        pc: x.point.pc,
    }
}

/// The variable of the statement's value.
pub fn value(t: &Tables<'_>, x: &Reachable<'_>) -> Option<Var>
    requires { IsReady t.now x.now }
    ensures { (p : Program) (s : System) (names : List Meaning) → IsSetting t.now p s names → IsOne (IsValue p s names (place_of x.now)) result }
{
    t.variables.value_of(statement_of(x))
}

/// The variable that says what an operand may be.
pub fn object(t: &Tables<'_>, x: &Reachable<'_>, operand: usize) -> Option<Var>
    requires { IsReady t.now x.now }
    ensures { (p : Program) (s : System) (names : List Meaning) → IsSetting t.now p s names → IsPlaced p x.now → IsOne (OperandNumber p s names (place_of x.now) operand) result }
{
    t.variables.operand_number(x.body, x.point, operand)
}

/// The elements of arrays.
pub fn elements(t: &Tables<'_>) -> Option<FieldId>
    ensures { (p : Program) (s : System) (names : List Meaning) → IsSetting t.now p s names → IsOne (λ g. g ≡ elements_field s) result }
{
    match t.fields.checked_sub(3) {
        Some(number) => Some(FieldId(number)),
        None => None,
    }
}

/// The length of arrays.
pub fn length(t: &Tables<'_>) -> Option<FieldId>
    ensures { (p : Program) (s : System) (names : List Meaning) → IsSetting t.now p s names → IsOne (λ g. g ≡ length_field s) result }
{
    match t.fields.checked_sub(2) {
        Some(number) => Some(FieldId(number)),
        None => None,
    }
}

/// The state of objects.
pub(crate) fn state(t: &Tables<'_>) -> Option<FieldId>
    ensures { (p : Program) (s : System) (names : List Meaning) → IsSetting t.now p s names → IsOne (λ g. g ≡ state_field s) result }
{
    match t.fields.checked_sub(1) {
        Some(number) => Some(FieldId(number)),
        None => None,
    }
}
