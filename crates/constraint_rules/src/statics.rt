// Constraints of static variables.
ghost use Rattle.std.specs.Prelude.{◌≡◌, ◌⊎◌, ◌↔◌, List, IsTrue, OnOk};
ghost use Rattle.worklists.specs.Growth.{Grows};
ghost use Rattle.class_form.specs.Opcodes.{IsGetStatic, IsPutStatic};
ghost use Rattle.dep_form.specs.declared.system.System.{System};
ghost use Rattle.program_form.specs.Programs.{Program};
ghost use Rattle.constraint_form.specs.Variables.{Meaning};
ghost use Rattle.constraint_rules.specs.One.{IsOne};
ghost use Rattle.constraint_rules.specs.Settings.{IsSetting, IsPlaced, IsReady, AreReady, place_of};
ghost use Rattle.constraint_rules.specs.Statements.{IsStaticNumber, IsNumberOfStatic, ReadingStatic, WritingStatic};
ghost use Rattle.constraint_rules.specs.Naming.{key_in};

use crate::definitions::in_operand;
use crate::forms::{copy_of, push_copies};
use crate::naming::{Reference, named_member};
use crate::numbers::value;
use crate::tables::{Reachable, Tables};
use dep_form::rules::{Rule, Var};
use slicer_ids::ids::NoMemory;
use std::alloc::Global;
use variable_tables::finding::{static_field, static_named};

fn is_get_static(op: u8) -> bool
    ensures { IsTrue result ↔ IsGetStatic op }
{
    op == 178
}

fn is_put_static(op: u8) -> bool
    ensures { IsTrue result ↔ IsPutStatic op }
{
    op == 179
}

// The variable of the static field to which a reference leads.
fn number_of(t: &Tables<'_>, r: Reference<'_>) -> Option<Var>
    requires { AreReady t.now }
    ensures { (p : Program) (s : System) (names : List Meaning) → IsSetting t.now p s names → IsOne (IsNumberOfStatic p s (key_in r.entry)) result }
{
    match t.h.find_field(r.class, r.name, r.descriptor) {
        Some(field) => Some(static_field(field)),
        None => static_named(t.h, t.foreign, r.name, r.descriptor),
    }
}

/// The variable of the static field that the instruction names.
pub fn static_number(t: &Tables<'_>, x: &Reachable<'_>) -> Option<Var>
    requires { AreReady t.now }
    ensures { (p : Program) (s : System) (names : List Meaning) → IsSetting t.now p s names → IsPlaced p x.now → IsOne (IsStaticNumber p s (place_of x.now)) result }
{
    match named_member(x) {
        Some(r) => number_of(t, r),
        None => None,
    }
}

/// That a static variable is read.
pub(crate) fn reading_static(t: &Tables<'_>, x: &Reachable<'_>) -> Option<Rule>
    requires { IsReady t.now x.now }
    ensures { (p : Program) (s : System) (names : List Meaning) → IsSetting t.now p s names → IsPlaced p x.now → IsOne (ReadingStatic p s names (place_of x.now)) result }
{
    if !is_get_static(x.instr.op) {
        return None;
    }
    copy_of(static_number(t, x), value(t, x), None)
}

/// Adds that a static variable is written.
pub(crate) fn push_writing_static(
    alloc: Global,
    t: &Tables<'_>,
    x: &Reachable<'_>,
    rules: &mut Vec<Rule>,
) -> Result<(), NoMemory>
    requires { IsReady t.now x.now }
    ensures { (p : Program) (s : System) (names : List Meaning) → IsSetting t.now p s names → IsPlaced p x.now → OnOk result (Grows rules.old.items rules.new.items (WritingStatic p s names (place_of x.now))) }
{
    if !is_put_static(x.instr.op) {
        return Ok(());
    }
    let from = in_operand(alloc, t.variables, x.body, x.point, 0)?;
    push_copies(from.as_slice(), static_number(t, x), None, rules)
}
