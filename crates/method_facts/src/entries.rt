// The methods that the root calls.
ghost use Rattle.std.specs.Prelude.{◌≡◌, ◌⊎◌, ◌<◌, ◌^◌, ◌↔◌, Some, AllPairs, Contains, IfOk, IsTrue, OnOk, length};
ghost use Rattle.class_form.specs.declared.class_file.ClassFile.{ClassFile};
ghost use Rattle.dep_form.specs.Constraints.{SystemHolds};
ghost use Rattle.dep_form.specs.Solutions.{IsSolutionOf};
ghost use Rattle.dep_form.specs.declared.system.System.{System};
ghost use Rattle.fact_form.specs.EntryCalls.{AreEntryCalls, root_of};
ghost use Rattle.mod_ref.specs.Direct.{IsSmall};
ghost use Rattle.program_code.specs.Codes.{IsProgramOfCode};
ghost use Rattle.program_form.specs.Programs.{Program};
ghost use Rattle.worklists.proofs.Growing.{FromBelow};
ghost use Rattle.method_facts.specs.Numbers.{MethodBefore};
ghost use Rattle.slicer_ids.specs.declared.ids.MethodId.{MethodId};
ghost use Rattle.dep_form.specs.declared.rules.Rule.TheVariants.{Enter};
ghost use Rattle.worklists.specs.Growth.{FromOne};
ghost use Rattle.mod_ref.specs.Gains.{Gains};
ghost use Rattle.method_facts.specs.Entering.{AtNumber, Enters, IsRunInitializer};

use crate::names::is_initializer;
use crate::solved::is_reached;
use dep_form::rules::{Constraint, Rule};
use dep_form::solution::Solution;
use dep_form::system::System;
use hierarchy::tree::Hierarchy;
use slicer_ids::ids::{MethodId, NoMemory};
use std::alloc::Global;

/// The root has the number after those of the methods.
pub fn root_of(system: &System) -> MethodId
    requires { length system.now.methods < 2 ^ 32 }
    ensures { result ≡ root_of system.now }
{
    MethodId(system.methods.items().len() as u32)
}

// The method that a rule enters.
fn target_of(rule: Rule) -> Option<MethodId>
    ensures { (t : MethodId) → (result ≡ Some t) ↔ (rule ≡ Enter t) }
{
    match rule {
        Rule::Enter { target } => Some(target),
        _ => None,
    }
}

// The method that a constraint of the root enters.
fn entered(constraint: &Constraint, root: MethodId) -> Option<MethodId>
    ensures { (t : MethodId) → (result ≡ Some t) ↔ Enters root constraint.now t }
{
    let rule = constraint.rule;
    if is_same(constraint.method, root) {
        target_of(rule)
    } else {
        None
    }
}

/// Whether two methods are one.
pub fn is_same(a: MethodId, b: MethodId) -> bool
    ensures { IsTrue result ↔ (a ≡ b) }
{
    a == b
}

// Adds a method, where there is one.
fn add(found: Option<MethodId>, methods: &mut Vec<MethodId>) -> Result<(), NoMemory>
    ensures { OnOk result (Gains methods.old.items methods.new.items (λ t. found ≡ Some t)) }
{
    match found {
        None => Ok(()),
        Some(m) => push(methods, m),
    }
}

fn push(methods: &mut Vec<MethodId>, m: MethodId) -> Result<(), NoMemory>
    ensures { OnOk result (Gains methods.old.items methods.new.items (λ t. t ≡ m)) }
{
    match methods.push(m) {
        Ok(()) => Ok(()),
        Err(_) => Err(NoMemory),
    }
}

fn add_entered(
    constraint: &Constraint,
    root: MethodId,
    methods: &mut Vec<MethodId>,
) -> Result<(), NoMemory>
    ensures { OnOk result (Gains methods.old.items methods.new.items (Enters root constraint.now)) }
{
    let found = entered(constraint, root);
    add(found, methods)
}

// Adds the methods that the root's constraints enter.
fn add_all_entered(
    constraints: &[Constraint],
    root: MethodId,
    methods: &mut Vec<MethodId>,
) -> Result<(), NoMemory>
    ensures { OnOk result (Gains methods.old.items methods.new.items (FromOne (Enters root) constraints.now)) }
{
    for constraint in constraints {
        add_entered(constraint, root, methods)?;
    }
    Ok(())
}

// Whether the method initializes its class, and may run.
fn is_run_initializer(h: &Hierarchy, solution: &Solution, m: MethodId) -> bool
    requires { m.0 < length solution.now.reached }
    ensures { (s : System) → IsSolutionOf s solution.now → IsTrue result ↔ IsRunInitializer s h.now m }
{
    if is_reached(solution, m) {
        is_initializer(h, m)
    } else {
        false
    }
}

fn add_initializer(
    h: &Hierarchy,
    system: &System,
    solution: &Solution,
    m: MethodId,
    methods: &mut Vec<MethodId>,
) -> Result<(), NoMemory>
    requires solved { IsSolutionOf system.now solution.now }
    requires m { m.0 < length system.now.methods }
    ensures { OnOk result (Gains methods.old.items methods.new.items (AtNumber system.now h.now m.0)) }
{
    if is_run_initializer(h, solution, m) {
        push(methods, m)
    } else {
        Ok(())
    }
}

// Adds the methods that initialize their classes, and may run.
fn add_initializers(
    h: &Hierarchy,
    system: &System,
    solution: &Solution,
    methods: &mut Vec<MethodId>,
) -> Result<(), NoMemory>
    requires solved { IsSolutionOf system.now solution.now }
    requires few { length system.now.methods < 2 ^ 32 }
    ensures { OnOk result (Gains methods.old.items methods.new.items (FromBelow (AtNumber system.now h.now) (length system.now.methods))) }
{
    for m in 0..system.methods.items().len() {
        add_initializer(h, system, solution, MethodId(m as u32), methods)?;
    }
    Ok(())
}

fn in_order(methods: Vec<MethodId>) -> Vec<MethodId>
    ensures order { AllPairs MethodBefore result.items }
    ensures members { (m : MethodId) → Contains result.items m ↔ Contains methods.items m }
{
    let mut all = methods;
    all.sort_unstable();
    all.dedup();
    all
}

/// The methods that the root calls, in order and once each: those that its constraints enter, and the class initializers that may
/// run. Each call has its place in the list as its number. It goes once over the constraints and the methods.
pub fn entry_calls(
    alloc: Global,
    h: &Hierarchy,
    s: &System,
    sol: &Solution,
) -> Result<Vec<MethodId>, NoMemory>
    requires solved { IsSolutionOf s.now sol.now }
    requires small { IsSmall s.now }
    ensures { IfOk result (λ ms. (p : Program) → p.classes ≡ h.now → IsProgramOfCode p → AreEntryCalls p s.now ms.items) }
{
    let root = root_of(s);
    let mut methods = Vec::new(alloc);
    add_all_entered(s.constraints.items(), root, &mut methods)?;
    add_initializers(h, s, sol, &mut methods)?;
    Ok(in_order(methods))
}
