// Constraints of elements of arrays.
ghost use Rattle.std.specs.Prelude.{◌≡◌, ◌↔◌, List, IsTrue};
ghost use Rattle.class_form.specs.Opcodes.{IsReferenceLoad, IsReferenceStore};
ghost use Rattle.dep_form.specs.declared.system.System.{System};
ghost use Rattle.program_form.specs.Programs.{Program};
ghost use Rattle.constraint_form.specs.Variables.{Meaning};
ghost use Rattle.constraint_rules.specs.One.{IsOne};
ghost use Rattle.constraint_rules.specs.Settings.{IsSetting, IsPlaced, IsReady, place_of};
ghost use Rattle.constraint_rules.specs.Statements.{ReadingElement, WritingElement};

use crate::forms::{load_of, store_of};
use crate::numbers::{elements, object, value};
use crate::tables::{Reachable, Tables};
use dep_form::rules::Rule;

fn is_reference_load(op: u8) -> bool
    ensures { IsTrue result ↔ IsReferenceLoad op }
{
    op == 50
}

fn is_reference_store(op: u8) -> bool
    ensures { IsTrue result ↔ IsReferenceStore op }
{
    op == 83
}

/// That an element is read that is a reference.
pub(crate) fn reading_element(t: &Tables<'_>, x: &Reachable<'_>) -> Option<Rule>
    requires { IsReady t.now x.now }
    ensures { (p : Program) (s : System) (names : List Meaning) → IsSetting t.now p s names → IsPlaced p x.now → IsOne (ReadingElement p s names (place_of x.now)) result }
{
    if !is_reference_load(x.instr.op) {
        return None;
    }
    load_of(object(t, x, 0), elements(t), value(t, x))
}

/// That an element is written that is a reference.
pub(crate) fn writing_element(t: &Tables<'_>, x: &Reachable<'_>) -> Option<Rule>
    requires { IsReady t.now x.now }
    ensures { (p : Program) (s : System) (names : List Meaning) → IsSetting t.now p s names → IsPlaced p x.now → IsOne (WritingElement p s names (place_of x.now)) result }
{
    if !is_reference_store(x.instr.op) {
        return None;
    }
    store_of(object(t, x, 0), elements(t), object(t, x, 2))
}
