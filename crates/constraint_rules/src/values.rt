// Constraints of values that are copied from the definitions of an operand.
ghost use Rattle.std.specs.Prelude.{◌≡◌, ◌⊎◌, ◌↔◌, List, IsTrue, OnOk};
ghost use Rattle.worklists.specs.Growth.{Grows};
ghost use Rattle.class_form.specs.Opcodes.{IsLoad, IsStore, IsCheckCast, IsValueReturn};
ghost use Rattle.dep_form.specs.declared.system.System.{System};
ghost use Rattle.program_form.specs.Programs.{Program};
ghost use Rattle.constraint_form.specs.Variables.{Meaning, Operand, StandsFor};
ghost use Rattle.constraint_rules.specs.One.{IsOne};
ghost use Rattle.constraint_rules.specs.Settings.{IsSetting, IsPlaced, IsReady, place_of};
ghost use Rattle.constraint_rules.specs.Statements.{Copying, Casting, Answering, Joining};
ghost use Rattle.constraint_rules.specs.Slots.{IsJoinedBy};

use crate::definitions::{in_operand, in_slot};
use crate::forms::push_copies;
use crate::naming::kept;
use crate::numbers::{statement_of, value};
use crate::tables::{Reachable, Tables};
use class_form::body::SlotUse;
use dep_form::rules::{Rule, Var};
use slicer_ids::ids::NoMemory;
use std::alloc::Global;
use variable_tables::tables::OperandPlace;

fn moves_local(op: u8) -> bool
    ensures { IsTrue result ↔ (IsLoad op ⊎ IsStore op) }
{
    matches!(op, 21..=45 | 54..=78)
}

fn is_cast(op: u8) -> bool
    ensures { IsTrue result ↔ IsCheckCast op }
{
    op == 192
}

/// Adds that a local is loaded or stored.
pub(crate) fn push_copying(
    alloc: Global,
    t: &Tables<'_>,
    x: &Reachable<'_>,
    rules: &mut Vec<Rule>,
) -> Result<(), NoMemory>
    requires { IsReady t.now x.now }
    ensures { (p : Program) (s : System) (names : List Meaning) → IsSetting t.now p s names → IsPlaced p x.now → OnOk result (Grows rules.old.items rules.new.items (Copying p s names (place_of x.now))) }
{
    if !moves_local(x.instr.op) {
        return Ok(());
    }
    let from = in_operand(alloc, t.variables, x.body, x.point, 0)?;
    push_copies(from.as_slice(), value(t, x), None, rules)
}

/// Adds that a value is cast.
pub(crate) fn push_casting(
    alloc: Global,
    t: &Tables<'_>,
    x: &Reachable<'_>,
    rules: &mut Vec<Rule>,
) -> Result<(), NoMemory>
    requires { IsReady t.now x.now }
    ensures { (p : Program) (s : System) (names : List Meaning) → IsSetting t.now p s names → IsPlaced p x.now → OnOk result (Grows rules.old.items rules.new.items (Casting p s names (place_of x.now))) }
{
    if !is_cast(x.instr.op) {
        return Ok(());
    }
    match kept(t, x) {
        Some(keep) => {
            let from = in_operand(alloc, t.variables, x.body, x.point, 0)?;
            push_copies(from.as_slice(), value(t, x), keep, rules)
        }
        None => Ok(()),
    }
}

fn returns_value(op: u8) -> bool
    ensures { IsTrue result ↔ IsValueReturn op }
{
    matches!(op, 172..=176)
}

/// Adds that a method answers a value.
pub(crate) fn push_answering(
    alloc: Global,
    t: &Tables<'_>,
    x: &Reachable<'_>,
    rules: &mut Vec<Rule>,
) -> Result<(), NoMemory>
    requires { IsReady t.now x.now }
    ensures { (p : Program) (s : System) (names : List Meaning) → IsSetting t.now p s names → IsPlaced p x.now → OnOk result (Grows rules.old.items rules.new.items (Answering p s names (place_of x.now))) }
{
    if !returns_value(x.instr.op) {
        return Ok(());
    }
    let from = in_operand(alloc, t.variables, x.body, x.point, 0)?;
    let to = t.variables.result_of(x.body.method);
    push_copies(from.as_slice(), to, None, rules)
}

// The variable of its own that an operand has.
fn own(t: &Tables<'_>, x: &Reachable<'_>, operand: usize) -> Option<Var>
    requires { IsReady t.now x.now }
    ensures { (p : Program) (s : System) (names : List Meaning) → IsSetting t.now p s names → IsOne (λ y. StandsFor names y (Operand (place_of x.now) operand)) result }
{
    t.variables.own_operand(OperandPlace {
        statement: statement_of(x),
        operand,
    })
}

// Adds that what holds in a slot that an operand uses is copied to the variable of its own that the operand has.
fn push_joining_use(
    alloc: Global,
    t: &Tables<'_>,
    x: &Reachable<'_>,
    slot_use: &SlotUse,
    rules: &mut Vec<Rule>,
) -> Result<(), NoMemory>
    requires { IsReady t.now x.now }
    ensures { (p : Program) (s : System) (names : List Meaning) → IsSetting t.now p s names → OnOk result (Grows rules.old.items rules.new.items (IsJoinedBy p s names (place_of x.now) x.now.body.now slot_use.now)) }
{
    let from = in_slot(alloc, t.variables, x.body, x.point.pc, slot_use.slot)?;
    push_copies(
        from.as_slice(),
        own(t, x, slot_use.operand as usize),
        None,
        rules,
    )
}

/// Adds that what holds in an operand is copied to the variable of its own that the operand has.
pub(crate) fn push_joining(
    alloc: Global,
    t: &Tables<'_>,
    x: &Reachable<'_>,
    rules: &mut Vec<Rule>,
) -> Result<(), NoMemory>
    requires { IsReady t.now x.now }
    ensures { (p : Program) (s : System) (names : List Meaning) → IsSetting t.now p s names → IsPlaced p x.now → OnOk result (Grows rules.old.items rules.new.items (Joining p s names (place_of x.now))) }
{
    for slot_use in x.point.uses.items() {
        push_joining_use(alloc, t, x, slot_use, rules)?;
    }
    Ok(())
}
