// The calls of a program.
ghost use Rattle.std.specs.Prelude.{◌≡◌, ◌++◌, ◌∷◌, [], List, All, map, length, IfOk, OnOk};
ghost use Rattle.slicer_ids.specs.Sets.{IsOrderedListOf};
ghost use Rattle.worklists.specs.Growth.{FromOne};
ghost use Rattle.dep_form.specs.declared.system.System.{System};
ghost use Rattle.program_form.specs.Programs.{Program};
ghost use Rattle.program_form.specs.Facts.{ExceptionOf};
ghost use Rattle.program_form.specs.Systems.{VariableNumber};
ghost use Rattle.constraint_form.specs.Variables.{Meaning, OperandNumber};
ghost use Rattle.dep_form.specs.declared.rules.Var.{Var};
ghost use Rattle.variable_tables.specs.Growth.{GrowsInOrder};
ghost use Rattle.variable_tables.specs.Tables.{thrown_by_call};
ghost use Rattle.constraint_rules.specs.Naming.{key_in};
ghost use Rattle.constraint_rules.specs.One.{IsOne};
ghost use Rattle.constraint_rules.specs.Settings.{IsSetting, IsPlaced, IsReady, AreReady, place_of};
ghost use Rattle.constraints.specs.Places.{AreInOrder};
ghost use Rattle.constraints.specs.Calls.{IsRefused, IsRefusedBy, AreArguments, IsCallAt, IsKnownCall, ThrownBefore, IsThrownAt, AreRulesOf};

use crate::references::{has_receiver, references};
use constraint_rules::fresh::first_site;
use constraint_rules::naming::{Reference, named_member};
use constraint_rules::numbers::{object, statement_of, value};
use constraint_rules::tables::{Reachable, Tables};
use dep_form::call_site::CallSite;
use dep_form::rules::{OutsideRule, Var};
use outside_model::outside_rule::outside_rule;
use outside_model::reflection::refused_call;
use slicer_ids::ids::NoMemory;
use slicer_ids::list::List;
use std::alloc::Global;

// The number of the rule of reflection that refuses what is named, where its class is outside the folder.
fn refused_by(t: &Tables<'_>, r: Reference<'_>) -> Option<u8>
    ensures { IsOne (IsRefused t.now.h.now (key_in r.entry)) result }
{
    match t.h.find_class(r.class) {
        Some(_) => None,
        None => refused_call(r.class, r.name),
    }
}

// .. that refuses the call.
fn refusal(t: &Tables<'_>, x: &Reachable<'_>) -> Option<u8>
    ensures { (p : Program) (s : System) (names : List Meaning) → IsSetting t.now p s names → IsPlaced p x.now → IsOne (IsRefusedBy p (place_of x.now)) result }
{
    match named_member(x) {
        Some(r) => refused_by(t, r),
        None => None,
    }
}

// Adds the variable of an argument of a call. Each has one, so that none is wanting.
fn push_argument(
    t: &Tables<'_>,
    x: &Reachable<'_>,
    i: usize,
    vars: &mut Vec<Var>,
) -> Result<(), NoMemory>
    requires { IsReady t.now x.now }
    ensures { OnOk result ((v : Var) × (vars.new.items ≡ vars.old.items ++ v ∷ []) × ((p : Program) (s : System) (names : List Meaning) → IsSetting t.now p s names → IsPlaced p x.now → OperandNumber p s names (place_of x.now) i v)) }
{
    match object(t, x, i) {
        Some(var) => {
            vars.push(var)?;
            Ok(())
        }
        None => Err(NoMemory),
    }
}

// The variables of so many arguments of a call.
fn arguments(
    alloc: Global,
    t: &Tables<'_>,
    x: &Reachable<'_>,
    count: usize,
) -> Result<Vec<Var>, NoMemory>
    requires { IsReady t.now x.now }
    ensures count { IfOk result (λ vars. length vars.items ≡ count) }
    ensures each { IfOk result (λ vars. (p : Program) (s : System) (names : List Meaning) → IsSetting t.now p s names → IsPlaced p x.now → AreArguments p s names (place_of x.now) vars.items) }
{
    let mut vars = Vec::new(alloc);
    for i in 0..count {
        push_argument(t, x, i, &mut vars)?;
    }
    Ok(vars)
}

// The call of an instruction, which throws what the variable may be.
fn call_site(
    alloc: Global,
    t: &Tables<'_>,
    x: &Reachable<'_>,
    exception: Var,
) -> Result<CallSite, NoMemory>
    requires { IsReady t.now x.now }
    ensures thrown { IfOk result (λ k. k.exception ≡ exception) }
    ensures known { IfOk result (λ k. (p : Program) (s : System) (names : List Meaning) → IsSetting t.now p s names → IsPlaced p x.now → VariableNumber p s (ExceptionOf (place_of x.now)) exception → IsCallAt p s names (place_of x.now) k) }
{
    let instance = has_receiver(x.instr.op);
    let references = references(alloc, x, instance)?;
    let count = references.len();
    let arguments = arguments(alloc, t, x, count)?;
    Ok(CallSite {
        place: Some(statement_of(x)),
        arguments: List::from_vec(arguments),
        references: List::from_vec(references),
        instance,
        result: value(t, x),
        exception,
        fresh: first_site(t, x),
        refused: refusal(t, x),
    })
}

// Adds the call of an instruction, where it is one.
fn push_call(
    alloc: Global,
    t: &Tables<'_>,
    x: &Reachable<'_>,
    calls: &mut Vec<CallSite>,
) -> Result<(), NoMemory>
    requires { IsReady t.now x.now }
    ensures thrown { (p : Program) (s : System) (names : List Meaning) → IsSetting t.now p s names → IsPlaced p x.now → OnOk result (GrowsInOrder ThrownBefore (map thrown_by_call calls.old.items) (map thrown_by_call calls.new.items) (IsThrownAt t.now.variables.now.exceptions x.now)) }
    ensures known { (p : Program) (s : System) (names : List Meaning) → IsSetting t.now p s names → IsPlaced p x.now → All (IsKnownCall p s names) calls.old.items → OnOk result (All (IsKnownCall p s names) calls.new.items) }
{
    match t.variables.exception_of(statement_of(x)) {
        Some(exception) => {
            let site = call_site(alloc, t, x, exception)?;
            calls.push(site)?;
            Ok(())
        }
        None => Ok(()),
    }
}

/// The calls among instructions, in order.
pub(crate) fn call_sites(
    alloc: Global,
    t: &Tables<'_>,
    places: &[Reachable<'_>],
) -> Result<Vec<CallSite>, NoMemory>
    requires ready { AreReady t.now }
    requires places { AreInOrder places.now }
    ensures thrown { IfOk result (λ ks. (p : Program) (s : System) (names : List Meaning) → IsSetting t.now p s names → All (IsPlaced p) places.now → IsOrderedListOf ThrownBefore (map thrown_by_call ks.items) (FromOne (IsThrownAt t.now.variables.now.exceptions) places.now)) }
    ensures known { IfOk result (λ ks. (p : Program) (s : System) (names : List Meaning) → IsSetting t.now p s names → All (IsPlaced p) places.now → All (IsKnownCall p s names) ks.items) }
{
    let mut calls = Vec::new(alloc);
    for x in places {
        push_call(alloc, t, x, &mut calls)?;
    }
    Ok(calls)
}

/// What each call reads and writes, were it outside.
pub(crate) fn outside_rules(alloc: Global, calls: &[CallSite]) -> Result<Vec<OutsideRule>, NoMemory>
    ensures { IfOk result (λ rules. AreRulesOf calls.now rules.items) }
{
    let mut rules = Vec::new(alloc);
    for call in calls {
        let rule = outside_rule(alloc, call)?;
        rules.push(rule)?;
    }
    Ok(rules)
}
