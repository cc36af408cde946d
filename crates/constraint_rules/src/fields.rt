// Constraints of fields of objects.
ghost use Rattle.std.specs.Prelude.{◌≡◌, ◌↔◌, List, IsTrue};
ghost use Rattle.class_form.specs.Opcodes.{IsGetField, IsPutField};
ghost use Rattle.dep_form.specs.declared.system.System.{System};
ghost use Rattle.program_form.specs.Programs.{Program};
ghost use Rattle.constraint_form.specs.Variables.{Meaning};
ghost use Rattle.constraint_rules.specs.One.{IsOne};
ghost use Rattle.constraint_rules.specs.Settings.{IsSetting, IsPlaced, IsReady, place_of};
ghost use Rattle.constraint_rules.specs.Statements.{ReadingField, WritingField};

use crate::forms::{load_of, store_of};
use crate::naming::field_of;
use crate::numbers::{object, value};
use crate::tables::{Reachable, Tables};
use dep_form::rules::Rule;

fn is_get_field(op: u8) -> bool
    ensures { IsTrue result ↔ IsGetField op }
{
    op == 180
}

fn is_put_field(op: u8) -> bool
    ensures { IsTrue result ↔ IsPutField op }
{
    op == 181
}

/// That a field is read.
pub(crate) fn reading_field(t: &Tables<'_>, x: &Reachable<'_>) -> Option<Rule>
    requires { IsReady t.now x.now }
    ensures { (p : Program) (s : System) (names : List Meaning) → IsSetting t.now p s names → IsPlaced p x.now → IsOne (ReadingField p s names (place_of x.now)) result }
{
    if !is_get_field(x.instr.op) {
        return None;
    }
    load_of(object(t, x, 0), field_of(t, x), value(t, x))
}

/// That a field is written.
pub(crate) fn writing_field(t: &Tables<'_>, x: &Reachable<'_>) -> Option<Rule>
    requires { IsReady t.now x.now }
    ensures { (p : Program) (s : System) (names : List Meaning) → IsSetting t.now p s names → IsPlaced p x.now → IsOne (WritingField p s names (place_of x.now)) result }
{
    if !is_put_field(x.instr.op) {
        return None;
    }
    store_of(object(t, x, 0), field_of(t, x), object(t, x, 1))
}
