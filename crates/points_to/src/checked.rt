// Systems made of parts, where all numbers in them are those of something.
ghost use Rattle.std.specs.Prelude.{◌≡◌, ◌<◌, [], All, Some, true, length, slice_get};
ghost use Rattle.dep_form.specs.declared.call_site.CallSite.{CallSite};
ghost use Rattle.dep_form.specs.declared.rules.OutsideRule.{OutsideRule};
ghost use Rattle.dep_form.specs.declared.rules.SiteInfo.{SiteInfo};
ghost use Rattle.dep_form.specs.Within.{IfMethod, IfPlace, IfSite, IfVar, IsRuleOf, IsVar, IsWithinCall, IsWithinConstraint, IsWithinMethod, IsWithinRule};
ghost use Rattle.points_to.specs.Sizes.{ArePartsWithin, AreRulesOf, AreTargets, IsWhole, counts};

use dep_form::call_site::CallSite;
use dep_form::rules::{Constraint, MethodVars, OutsideRule, Rule, SiteInfo, Touch, Var};
use dep_form::system::System;
use slicer_ids::ids::{ClassId, MethodId, SiteId, Statement};
use slicer_ids::list::List;

/// The parts of a system without accesses of fields.
#[derive(Drop)]
pub struct Parts {
    pub constraints: List<Constraint>,
    pub calls: List<CallSite>,
    pub methods: List<MethodVars>,
    pub sites: List<SiteInfo>,
    pub subclasses: List<(ClassId, ClassId)>,
    pub selects: List<(u32, ClassId, Option<MethodId>)>,
    pub outside_rules: List<OutsideRule>,
    pub fields: u32,
    pub vars: u64,
}

/// How many of each thing there are.
#[derive(Clone, Copy)]
pub struct Sizes {
    pub calls: usize,
    pub methods: usize,
    pub sites: usize,
    pub fields: u32,
    pub vars: u64,
}

fn is_var(n: Sizes, v: Var) -> bool
    ensures { result ≡ true → IsVar (counts n) v }
{
    v.0 < n.vars
}

fn if_var(n: Sizes, v: Option<Var>) -> bool
    ensures { result ≡ true → IfVar (counts n) v }
{
    match v {
        None => true,
        Some(v) => is_var(n, v),
    }
}

fn if_site(n: Sizes, h: Option<SiteId>) -> bool
    ensures { result ≡ true → IfSite (counts n) h }
{
    match h {
        None => true,
        Some(h) => (h.0 as usize) < n.sites,
    }
}

fn if_place(n: Sizes, place: Option<Statement>) -> bool
    ensures { result ≡ true → IfPlace (counts n) place }
{
    match place {
        None => true,
        Some(place) => (place.method.0 as usize) < n.methods,
    }
}

fn are_vars(n: Sizes, vars: &[Var]) -> bool
    ensures { result ≡ true → All (IsVar (counts n)) vars.now }
{
    for v in vars {
        if !is_var(n, *v) {
            return false;
        }
    }
    true
}

fn is_rule(n: Sizes, rule: Rule) -> bool
    ensures { result ≡ true → IsWithinRule (counts n) rule }
{
    match rule {
        Rule::Enter { target } => (target.0 as usize) < n.methods,
        Rule::Alloc { to, site } => to.0 < n.vars && (site.0 as usize) < n.sites,
        Rule::Hold { outer, inner } => {
            (outer.0 as usize) < n.sites && (inner.0 as usize) < n.sites
        }
        Rule::Copy { from, to, .. } => from.0 < n.vars && to.0 < n.vars,
        Rule::Load { base, field, to } => { base.0 < n.vars && field.0 < n.fields && to.0 < n.vars }
        Rule::Store { base, field, from } => {
            base.0 < n.vars && field.0 < n.fields && from.0 < n.vars
        }
        Rule::Direct { call, target } => {
            (call.0 as usize) < n.calls && (target.0 as usize) < n.methods
        }
        Rule::Virtual { call, .. } => (call.0 as usize) < n.calls,
        Rule::OutsideDirect { call } => (call.0 as usize) < n.calls,
    }
}

fn is_constraint(n: Sizes, constraint: Constraint) -> bool
    ensures { result ≡ true → IsWithinConstraint (counts n) constraint }
{
    (constraint.method.0 as usize) <= n.methods && is_rule(n, constraint.rule)
}

fn are_constraints(n: Sizes, constraints: &[Constraint]) -> bool
    ensures { result ≡ true → All (IsWithinConstraint (counts n)) constraints.now }
{
    for constraint in constraints {
        if !is_constraint(n, *constraint) {
            return false;
        }
    }
    true
}

fn is_call(n: Sizes, call: &CallSite) -> bool
    ensures { result ≡ true → IsWithinCall (counts n) call.now }
{
    if_place(n, call.place)
        && are_vars(n, call.arguments.items())
        && if_var(n, call.result)
        && is_var(n, call.exception)
        && if_site(n, call.fresh)
}

fn are_calls(n: Sizes, calls: &[CallSite]) -> bool
    ensures { result ≡ true → All (IsWithinCall (counts n)) calls.now }
{
    for call in calls {
        if !is_call(n, call) {
            return false;
        }
    }
    true
}

fn are_pairs(n: Sizes, pairs: &[(u16, Var)]) -> bool
    ensures { result ≡ true → All (λ p. IsVar (counts n) p.1) pairs.now }
{
    for pair in pairs {
        if !is_var(n, pair.1) {
            return false;
        }
    }
    true
}

fn is_method(n: Sizes, method: &MethodVars) -> bool
    ensures { result ≡ true → IsWithinMethod (counts n) method.now }
{
    are_vars(n, method.formals.items())
        && if_var(n, method.result)
        && is_var(n, method.thrown)
        && are_pairs(n, method.values.items())
        && are_pairs(n, method.caught.items())
}

fn are_methods(n: Sizes, methods: &[MethodVars]) -> bool
    ensures { result ≡ true → All (IsWithinMethod (counts n)) methods.now }
{
    for method in methods {
        if !is_method(n, method) {
            return false;
        }
    }
    true
}

fn are_sites(n: Sizes, sites: &[SiteInfo]) -> bool
    ensures { result ≡ true → All (λ (i : SiteInfo). IfPlace (counts n) i.place) sites.now }
{
    for info in sites {
        if !if_place(n, info.place) {
            return false;
        }
    }
    true
}

fn if_method(n: Sizes, m: Option<MethodId>) -> bool
    ensures { result ≡ true → IfMethod (counts n) m }
{
    match m {
        None => true,
        Some(m) => (m.0 as usize) < n.methods,
    }
}

fn are_selects(n: Sizes, selects: &[(u32, ClassId, Option<MethodId>)]) -> bool
    ensures { result ≡ true → AreTargets (counts n) selects.now }
{
    for select in selects {
        if !if_method(n, select.2) {
            return false;
        }
    }
    true
}

fn are_arguments(count: usize, arguments: &[u8]) -> bool
    ensures { result ≡ true → All (λ i. i < count) arguments.now }
{
    for argument in arguments {
        if *argument as usize >= count {
            return false;
        }
    }
    true
}

fn is_rule_of(call: &CallSite, rule: &OutsideRule) -> bool
    ensures { result ≡ true → IsRuleOf call.now rule.now }
{
    let count = call.arguments.items().len();
    are_arguments(count, rule.reads.items())
        && are_arguments(count, rule.written.items())
        && are_arguments(count, rule.states.items())
        && are_arguments(count, rule.arrays.items())
}

fn is_rule_for(call: &CallSite, rules: &[OutsideRule], k: usize) -> bool
    ensures { result ≡ true → (r : OutsideRule) → slice_get rules.now k ≡ Some r → IsRuleOf call.now r }
{
    match rules.get(k) {
        None => true,
        Some(rule) => is_rule_of(call, rule),
    }
}

fn is_rule_at(calls: &[CallSite], rules: &[OutsideRule], k: usize) -> bool
    ensures { result ≡ true → (c : CallSite) (r : OutsideRule) → slice_get calls.now k ≡ Some c → slice_get rules.now k ≡ Some r → IsRuleOf c r }
{
    match calls.get(k) {
        None => true,
        Some(call) => is_rule_for(call, rules, k),
    }
}

fn are_rules_of(calls: &[CallSite], rules: &[OutsideRule]) -> bool
    ensures { result ≡ true → AreRulesOf calls.now rules.now }
{
    for k in 0..calls.len() {
        if !is_rule_at(calls, rules, k) {
            return false;
        }
    }
    true
}

fn count_parts(parts: &Parts) -> Sizes
    ensures calls { result.calls ≡ length parts.now.calls }
    ensures methods { result.methods ≡ length parts.now.methods }
    ensures sites { result.sites ≡ length parts.now.sites }
    ensures fields { result.fields ≡ parts.now.fields }
    ensures vars { result.vars ≡ parts.now.vars }
{
    Sizes {
        calls: parts.calls.items().len(),
        methods: parts.methods.items().len(),
        sites: parts.sites.items().len(),
        fields: parts.fields,
        vars: parts.vars,
    }
}

fn are_within(n: Sizes, parts: &Parts) -> bool
    ensures { result ≡ true → ArePartsWithin (counts n) parts.now }
{
    are_constraints(n, parts.constraints.items())
        && are_calls(n, parts.calls.items())
        && are_methods(n, parts.methods.items())
        && are_sites(n, parts.sites.items())
        && are_selects(n, parts.selects.items())
}

/// Whether a system can be made of these parts.
pub fn is_whole(parts: &Parts) -> bool
    ensures { result ≡ true → IsWhole parts.now }
{
    let n = count_parts(parts);
    parts.fields >= 3
        && parts.outside_rules.items().len() == parts.calls.items().len()
        && are_within(n, parts)
        && are_rules_of(parts.calls.items(), parts.outside_rules.items())
}

/// The system of these parts.
pub fn system(parts: Parts, touches: List<Touch>) -> System
    requires whole { IsWhole parts }
    requires touches { touches ≡ [] }
    ensures constraints { result.constraints ≡ parts.constraints }
    ensures calls { result.calls ≡ parts.calls }
    ensures methods { result.methods ≡ parts.methods }
    ensures sites { result.sites ≡ parts.sites }
    ensures subclasses { result.subclasses ≡ parts.subclasses }
    ensures selects { result.selects ≡ parts.selects }
    ensures outside_rules { result.outside_rules ≡ parts.outside_rules }
    ensures fields { result.fields ≡ parts.fields }
    ensures vars { result.vars ≡ parts.vars }
    ensures untouched { result.touches ≡ touches }
{
    let Parts {
        constraints,
        calls,
        methods,
        sites,
        subclasses,
        selects,
        outside_rules,
        fields,
        vars,
    } = parts;
    System {
        constraints,
        calls,
        methods,
        sites,
        subclasses,
        selects,
        touches,
        outside_rules,
        fields,
        vars,
    }
}
