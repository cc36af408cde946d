// All constraints of a statement.
ghost use Rattle.std.specs.Prelude.{◌≡◌, ◌⊎◌, List, OnOk};
ghost use Rattle.worklists.specs.Growth.{Grows};
ghost use Rattle.dep_form.specs.declared.system.System.{System};
ghost use Rattle.program_form.specs.Programs.{Program};
ghost use Rattle.constraint_form.specs.Variables.{Meaning};
ghost use Rattle.constraint_rules.specs.Settings.{IsSetting, IsPlaced, IsReady, place_of};
ghost use Rattle.constraint_rules.specs.Statements.{IsRuleAt, OfCopies, OfHeap, OfFresh, OfCalls, OfThrows};

use crate::calls::{calling, going_outside, selecting};
use crate::classes::push_initializing;
use crate::elements::{reading_element, writing_element};
use crate::fields::{reading_field, writing_field};
use crate::forms::push_found;
use crate::fresh::{allocating, push_nesting, reading_fresh};
use crate::handlers::{leaving, push_catching};
use crate::statics::{push_writing_static, reading_static};
use crate::tables::{Reachable, Tables};
use crate::values::{push_answering, push_casting, push_copying, push_joining};
use dep_form::rules::Rule;
use slicer_ids::ids::NoMemory;
use std::alloc::Global;

// Adds those that copy the definitions of an operand.
fn push_copied(
    alloc: Global,
    t: &Tables<'_>,
    x: &Reachable<'_>,
    rules: &mut Vec<Rule>,
) -> Result<(), NoMemory>
    requires { IsReady t.now x.now }
    ensures { (p : Program) (s : System) (names : List Meaning) → IsSetting t.now p s names → IsPlaced p x.now → OnOk result (Grows rules.old.items rules.new.items (OfCopies p s names (place_of x.now))) }
{
    push_copying(alloc, t, x, rules)?;
    push_casting(alloc, t, x, rules)?;
    push_answering(alloc, t, x, rules)?;
    push_writing_static(alloc, t, x, rules)?;
    push_joining(alloc, t, x, rules)
}

// Adds those that read and write fields, elements and static variables.
fn push_heap(t: &Tables<'_>, x: &Reachable<'_>, rules: &mut Vec<Rule>) -> Result<(), NoMemory>
    requires { IsReady t.now x.now }
    ensures { (p : Program) (s : System) (names : List Meaning) → IsSetting t.now p s names → IsPlaced p x.now → OnOk result (Grows rules.old.items rules.new.items (OfHeap p s names (place_of x.now))) }
{
    push_found(rules, reading_field(t, x))?;
    push_found(rules, reading_element(t, x))?;
    push_found(rules, reading_static(t, x))?;
    push_found(rules, writing_field(t, x))?;
    push_found(rules, writing_element(t, x))
}

// Adds those of what the statement makes, and of the class that it needs.
fn push_fresh(
    alloc: Global,
    t: &Tables<'_>,
    x: &Reachable<'_>,
    rules: &mut Vec<Rule>,
) -> Result<(), NoMemory>
    requires { IsReady t.now x.now }
    ensures { (p : Program) (s : System) (names : List Meaning) → IsSetting t.now p s names → IsPlaced p x.now → OnOk result (Grows rules.old.items rules.new.items (OfFresh p s names (place_of x.now))) }
{
    push_initializing(alloc, t, x, rules)?;
    push_found(rules, allocating(t, x))?;
    push_nesting(t, x, rules)?;
    push_found(rules, reading_fresh(t, x))
}

// Adds those of a call.
fn push_calls(
    alloc: Global,
    t: &Tables<'_>,
    x: &Reachable<'_>,
    rules: &mut Vec<Rule>,
) -> Result<(), NoMemory>
    requires { IsReady t.now x.now }
    ensures { (p : Program) (s : System) (names : List Meaning) → IsSetting t.now p s names → IsPlaced p x.now → OnOk result (Grows rules.old.items rules.new.items (OfCalls p s names (place_of x.now))) }
{
    let rule = calling(alloc, t, x)?;
    push_found(rules, rule)?;
    push_found(rules, going_outside(t, x))?;
    push_found(rules, selecting(t, x))
}

// Adds those of what is thrown.
fn push_throws(t: &Tables<'_>, x: &Reachable<'_>, rules: &mut Vec<Rule>) -> Result<(), NoMemory>
    requires { IsReady t.now x.now }
    ensures { (p : Program) (s : System) (names : List Meaning) → IsSetting t.now p s names → IsPlaced p x.now → OnOk result (Grows rules.old.items rules.new.items (OfThrows p s names (place_of x.now))) }
{
    push_catching(t, x, rules)?;
    push_found(rules, leaving(t, x))
}

/// Adds the constraints of a statement. Takes a logarithmic number of steps for each slot that the instruction uses, each
/// definition that holds there, each handler of its method and each superclass of the class that it needs.
pub fn push_rules(
    alloc: Global,
    t: &Tables<'_>,
    x: &Reachable<'_>,
    rules: &mut Vec<Rule>,
) -> Result<(), NoMemory>
    requires { IsReady t.now x.now }
    ensures { (p : Program) (s : System) (names : List Meaning) → IsSetting t.now p s names → IsPlaced p x.now → OnOk result (Grows rules.old.items rules.new.items (IsRuleAt p s names (place_of x.now))) }
{
    push_copied(alloc, t, x, rules)?;
    push_heap(t, x, rules)?;
    push_fresh(alloc, t, x, rules)?;
    push_calls(alloc, t, x, rules)?;
    push_throws(t, x, rules)
}
