// The methods to which the root gives their first argument.
ghost use Rattle.std.specs.Prelude.{◌≡◌, ◌<◌, ◌↔◌, ◌^◌, Some, Contains, IfOk, IsTrue, OnOk, length, slice_get};
ghost use Rattle.slicer_ids.specs.declared.ids.SiteId.{SiteId};
ghost use Rattle.dep_form.specs.declared.rules.Rule.TheVariants.{Alloc};
ghost use Rattle.dep_form.specs.declared.rules.MethodVars.{MethodVars};
ghost use Rattle.dep_form.specs.declared.rules.Var.{Var};
ghost use Rattle.dep_form.specs.Constraints.{IsMethodVars};
ghost use Rattle.dep_form.specs.Orders.{RiseBy};
ghost use Rattle.fact_form.specs.EntryCalls.{IsGiven};
ghost use Rattle.mod_ref.specs.Gains.{Gains as GainsAll};
ghost use Rattle.worklists.specs.Growth.{FromOne};
ghost use Rattle.method_facts.specs.Entering.{Gives, IsGivenVariable};
ghost use Rattle.method_facts.specs.Numbers.{var_cmp};

use crate::entries::{is_same, root_of};
use dep_form::rules::{Constraint, Rule, Var};
use dep_form::system::System;
use slicer_ids::ids::{MethodId, NoMemory};
use std::alloc::Global;

// The variable that a rule gives a site.
fn given_by(rule: Rule) -> Option<Var>
    ensures { (x : Var) → (result ≡ Some x) ↔ ((h : SiteId) × (rule ≡ Alloc x h)) }
{
    match rule {
        Rule::Alloc { to, site: _ } => Some(to),
        _ => None,
    }
}

// The variable that a constraint of the root gives a site.
fn given(constraint: &Constraint, root: MethodId) -> Option<Var>
    ensures { (x : Var) → (result ≡ Some x) ↔ Gives root constraint.now x }
{
    let rule = constraint.rule;
    if is_same(constraint.method, root) {
        given_by(rule)
    } else {
        None
    }
}

fn push(variables: &mut Vec<Var>, x: Var) -> Result<(), NoMemory>
    ensures { OnOk result (GainsAll variables.old.items variables.new.items (λ y. y ≡ x)) }
{
    match variables.push(x) {
        Ok(()) => Ok(()),
        Err(_) => Err(NoMemory),
    }
}

// Adds a variable, where there is one.
fn add(found: Option<Var>, variables: &mut Vec<Var>) -> Result<(), NoMemory>
    ensures { OnOk result (GainsAll variables.old.items variables.new.items (λ x. found ≡ Some x)) }
{
    match found {
        None => Ok(()),
        Some(x) => push(variables, x),
    }
}

fn add_given(
    constraint: &Constraint,
    root: MethodId,
    variables: &mut Vec<Var>,
) -> Result<(), NoMemory>
    ensures { OnOk result (GainsAll variables.old.items variables.new.items (Gives root constraint.now)) }
{
    let found = given(constraint, root);
    add(found, variables)
}

fn gather(alloc: Global, constraints: &[Constraint], root: MethodId) -> Result<Vec<Var>, NoMemory>
    ensures { IfOk result (λ xs. (x : Var) → Contains xs.items x ↔ FromOne (Gives root) constraints.now x) }
{
    let mut variables = Vec::new(alloc);
    for constraint in constraints {
        add_given(constraint, root, &mut variables)?;
    }
    Ok(variables)
}

fn in_order(variables: Vec<Var>) -> Vec<Var>
    ensures order { RiseBy var_cmp (λ x. x) result.items }
    ensures members { (x : Var) → Contains result.items x ↔ Contains variables.items x }
{
    let mut all = variables;
    all.sort_unstable();
    all.dedup();
    all
}

/// The variables that the root's constraints give a site, in order and once each.
pub fn given_variables(alloc: Global, system: &System) -> Result<Vec<Var>, NoMemory>
    requires { length system.now.methods < 2 ^ 32 }
    ensures order { IfOk result (λ xs. RiseBy var_cmp (λ x. x) xs.items) }
    ensures members { IfOk result (λ xs. (x : Var) → Contains xs.items x ↔ IsGivenVariable system.now x) }
{
    let root = root_of(system);
    let all = gather(alloc, system.constraints.items(), root)?;
    Ok(in_order(all))
}

// The variable of the first argument of a method, where it has one.
fn first_formal(system: &System, t: MethodId) -> Option<Var>
    ensures { (x : Var) → (result ≡ Some x) ↔ ((v : MethodVars) × IsMethodVars system.now t v × (slice_get v.formals 0 ≡ Some x)) }
{
    match system.methods.items().get(t.0 as usize) {
        Some(vars) => first_of(vars.formals.items()),
        None => None,
    }
}

fn first_of(variables: &[Var]) -> Option<Var>
    ensures { result ≡ slice_get variables.now 0 }
{
    match variables.first() {
        Some(x) => Some(*x),
        None => None,
    }
}

fn is_listed(variables: &[Var], x: Var) -> bool
    requires { RiseBy var_cmp (λ x. x) variables.now }
    ensures { IsTrue result ↔ Contains variables.now x }
{
    match variables.binary_search(&x) {
        Ok(_) => true,
        Err(_) => false,
    }
}

/// Whether the root gives the method its first argument, by the variables that it gives a site.
pub fn is_given(system: &System, given: &[Var], t: MethodId) -> bool
    requires order { RiseBy var_cmp (λ x. x) given.now }
    requires members { (x : Var) → Contains given.now x ↔ IsGivenVariable system.now x }
    ensures { IsTrue result ↔ IsGiven system.now t }
{
    match first_formal(system, t) {
        Some(x) => is_listed(given, x),
        None => false,
    }
}
