// Small systems, with what their methods define and use written down by hand from the definitions.
ghost use Rattle.std.specs.Prelude.{◌≡◌, ◌<◌, ◌≤◌, All, true, length};
ghost use Rattle.dep_form.specs.Within.{IsVar, IsWithinSpot};
ghost use Rattle.points_to.specs.Sizes.{IsWhole};
ghost use Rattle.mod_ref.specs.Touched.{IsTouchIn, counts_in};

use dep_form::call_site::CallSite;
use dep_form::effects::{Location, ModRef};
use dep_form::rules::{
    Constraint, MethodVars, OutsideRule, Rule, SiteInfo, Spot, TooMany, Touch, Var,
};
use dep_form::system::System;
use mod_ref::mod_ref;
use points_to::checked::{Parts, is_whole};
use points_to::solve;
use slicer_ids::ids::{CallId, FieldId, LocId, MethodId, NoMemory, SiteId, Statement};
use slicer_ids::list::List;
use std::alloc::Global;
use std::process::Abort;
use std::test::Fail;

// ---- systems with touches
fn are_vars(parts: &Parts, vars: &[Var]) -> bool
    ensures { result ≡ true → All (IsVar (counts_in parts.now)) vars.now }
{
    for v in vars {
        if v.0 >= parts.vars {
            return false;
        }
    }
    true
}

fn is_spot(parts: &Parts, spot: &Spot) -> bool
    ensures { result ≡ true → IsWithinSpot (counts_in parts.now) spot.now }
{
    match spot {
        Spot::Field(vars, field) => field.0 < parts.fields && are_vars(parts, vars.items()),
        Spot::Made(site, field) => {
            (site.0 as usize) < parts.sites.items().len() && field.0 < parts.fields
        }
        Spot::Static(v) => v.0 < parts.vars,
    }
}

fn is_touch(parts: &Parts, touch: &Touch) -> bool
    ensures { result ≡ true → IsTouchIn parts.now touch.now }
{
    (touch.place.method.0 as usize) < parts.methods.items().len() && is_spot(parts, &touch.spot)
}

fn are_touches(parts: &Parts, touches: &[Touch]) -> bool
    ensures { result ≡ true → All (IsTouchIn parts.now) touches.now }
{
    for touch in touches {
        if !is_touch(parts, touch) {
            return false;
        }
    }
    true
}

fn with_touches(parts: Parts, touches: List<Touch>) -> System
    requires whole { IsWhole parts }
    requires touches { All (IsTouchIn parts) touches }
{
    let Parts {
        constraints,
        calls,
        methods,
        sites,
        subclasses,
        selects,
        outside_rules,
        fields,
        vars,
    } = parts;
    System {
        constraints,
        calls,
        methods,
        sites,
        subclasses,
        selects,
        touches,
        outside_rules,
        fields,
        vars,
    }
}

fn answer(
    rt: &impl Abort,
    alloc: Global,
    parts: Parts,
    touches: List<Touch>,
) -> Result<ModRef, TooMany> {
    assert!(rt; is_whole(&parts));
    assert!(rt; are_touches(&parts, touches.items()));
    let s = with_touches(parts, touches);
    let Ok(solution) = solve(alloc, &s) else {
        return Err(TooMany::NoMemory);
    };
    mod_ref(alloc, &s, &solution)
}

// ---- parts
fn at(method: u32, rule: Rule) -> Constraint {
    Constraint {
        method: MethodId(method),
        rule,
    }
}

fn place(method: u32, pc: u16) -> Statement {
    Statement {
        method: MethodId(method),
        pc,
    }
}

fn alloc_of(to: u64, site: u32) -> Rule {
    Rule::Alloc {
        to: Var(to),
        site: SiteId(site),
    }
}

fn enter(target: u32) -> Rule {
    Rule::Enter {
        target: MethodId(target),
    }
}

fn direct(call: u32, target: u32) -> Rule {
    Rule::Direct {
        call: CallId(call),
        target: MethodId(target),
    }
}

fn method(alloc: Global, thrown: u64) -> MethodVars {
    MethodVars {
        formals: List::from_vec(Vec::new(alloc)),
        result: None,
        thrown: Var(thrown),
        values: List::from_vec(Vec::new(alloc)),
        caught: List::from_vec(Vec::new(alloc)),
        native: false,
    }
}

fn site(array: bool, made_at: Option<Statement>) -> SiteInfo {
    SiteInfo {
        class: None,
        array,
        place: made_at,
        k: 0,
    }
}

// A static call without a result.
fn call_at(alloc: Global, from: Statement, exception: u64) -> CallSite {
    CallSite {
        place: Some(from),
        arguments: List::from_vec(Vec::new(alloc)),
        references: List::from_vec(Vec::new(alloc)),
        instance: false,
        result: None,
        exception: Var(exception),
        fresh: None,
        refused: None,
    }
}

fn no_rule(alloc: Global) -> OutsideRule {
    OutsideRule {
        reads: List::from_vec(Vec::new(alloc)),
        written: List::from_vec(Vec::new(alloc)),
        states: List::from_vec(Vec::new(alloc)),
        arrays: List::from_vec(Vec::new(alloc)),
    }
}

fn touch(method: u32, write: bool, spot: Spot) -> Touch {
    Touch {
        place: place(method, 7),
        write,
        spot,
    }
}

fn field_of(alloc: Global, v: u64, field: u32) -> Result<Spot, NoMemory> {
    Ok(Spot::Field(List::from_vec(vec![in alloc; Var(v)]?), FieldId(field)))
}

// ---- what is expected
fn are_numbers(numbers: &[LocId], expected: &[u32]) -> bool {
    if numbers.len() != expected.len() {
        return false;
    }
    for k in 0..numbers.len() {
        if numbers[k].0 != expected[k] {
            return false;
        }
    }
    true
}

fn has(lists: &[List<LocId>], m: usize, expected: &[u32]) -> bool {
    match lists.get(m) {
        Some(list) => are_numbers(list.items(), expected),
        None => false,
    }
}

fn changes(answer: &ModRef, m: usize, expected: &[u32]) -> bool {
    has(answer.changed.items(), m, expected)
}

fn uses(answer: &ModRef, m: usize, expected: &[u32]) -> bool {
    has(answer.used.items(), m, expected)
}

fn locations(answer: &ModRef, expected: &[Location]) -> bool {
    let all = answer.locations.items();
    if all.len() != expected.len() {
        return false;
    }
    for k in 0..all.len() {
        if all[k] != expected[k] {
            return false;
        }
    }
    true
}

// ---- the tests
// Method 0 runs and calls method 1; method 2 calls nobody and isn't called. Variable 0 may be an object with a field.
fn chain(alloc: Global, back: bool) -> Result<Parts, NoMemory> {
    let mut constraints = vec![in alloc;
        at(3, enter(0)),
        at(0, alloc_of(0, 0)),
        at(0, direct(0, 1)),
    ]?;
    if back {
        constraints.push(at(1, direct(1, 0)))?;
    }
    Ok(Parts {
        constraints: List::from_vec(constraints),
        calls: List::from_vec(vec![in alloc;
            call_at(alloc, place(0, 3), 1),
            call_at(alloc, place(1, 3), 1),
        ]?),
        methods: List::from_vec(vec![in alloc;
            method(alloc, 2),
            method(alloc, 3),
            method(alloc, 4),
        ]?),
        sites: List::from_vec(vec![in alloc; site(false, None)]?),
        subclasses: List::from_vec(Vec::new(alloc)),
        selects: List::from_vec(Vec::new(alloc)),
        outside_rules: List::from_vec(vec![in alloc; no_rule(alloc), no_rule(alloc)]?),
        fields: 4,
        vars: 7,
    })
}

// Method 1 writes the field, method 0 reads it. Nobody reads variable 5; only method 2, which doesn't run, writes variable 6.
fn writes_below(alloc: Global) -> Result<List<Touch>, NoMemory> {
    Ok(List::from_vec(vec![in alloc;
        touch(0, false, field_of(alloc, 0, 0)?),
        touch(1, true, field_of(alloc, 0, 0)?),
        touch(0, true, Spot::Static(Var(5))),
        touch(0, false, Spot::Static(Var(6))),
        touch(2, true, Spot::Static(Var(6))),
    ]?))
}

#[test]
fn a_caller_changes_what_its_callee_writes(rt: HostRuntime) -> Result<(), Fail> {
    let alloc = rt.alloc();
    let touches = writes_below(alloc)?;
    let found = answer(&rt, alloc, chain(alloc, false)?, touches)?;
    assert!(rt; locations(&found, &[Location::Cell(SiteId(0), FieldId(0))]));
    assert!(rt; changes(&found, 0, &[0]) && changes(&found, 1, &[0]) && changes(&found, 2, &[]));
    assert!(rt; uses(&found, 0, &[0]) && uses(&found, 1, &[]) && uses(&found, 2, &[]));
    Ok(())
}

#[test]
fn in_a_recursion_each_has_all(rt: HostRuntime) -> Result<(), Fail> {
    let alloc = rt.alloc();
    let touches = writes_below(alloc)?;
    let found = answer(&rt, alloc, chain(alloc, true)?, touches)?;
    assert!(rt; changes(&found, 0, &[0]) && changes(&found, 1, &[0]));
    assert!(rt; uses(&found, 0, &[0]) && uses(&found, 1, &[0]));
    Ok(())
}

// A call of method 0 goes to methods 1 and 2.
fn two_targets(alloc: Global) -> Result<Parts, NoMemory> {
    let mut parts = chain(alloc, false)?;
    parts.constraints = List::from_vec(vec![in alloc;
        at(3, enter(0)),
        at(0, direct(0, 1)),
        at(0, direct(0, 2)),
    ]?);
    Ok(parts)
}

#[test]
fn a_call_with_two_targets_changes_what_both_write(rt: HostRuntime) -> Result<(), Fail> {
    let alloc = rt.alloc();
    let touches = vec![in alloc;
        touch(0, false, Spot::Static(Var(5))),
        touch(0, false, Spot::Static(Var(6))),
        touch(1, true, Spot::Static(Var(6))),
        touch(2, true, Spot::Static(Var(5))),
    ]?;
    let found = answer(&rt, alloc, two_targets(alloc)?, List::from_vec(touches))?;
    assert!(rt;
        locations(
            &found,
            &[Location::Static(Var(5)), Location::Static(Var(6))]
        )
    );
    assert!(rt; changes(&found, 0, &[0, 1]));
    assert!(rt; changes(&found, 1, &[1]) && changes(&found, 2, &[0]));
    assert!(rt; uses(&found, 0, &[0, 1]) && uses(&found, 1, &[]) && uses(&found, 2, &[]));
    Ok(())
}

// Method 0 hands an array, site 0, to a static method outside, and gets an array from there, site 1.
fn copy_outside(alloc: Global) -> Result<Parts, NoMemory> {
    let call = CallSite {
        place: Some(place(0, 3)),
        arguments: List::from_vec(vec![in alloc; Var(0)]?),
        references: List::from_vec(vec![in alloc; true]?),
        instance: false,
        result: Some(Var(1)),
        exception: Var(2),
        fresh: Some(SiteId(1)),
        refused: None,
    };
    let rule = OutsideRule {
        reads: List::from_vec(vec![in alloc; 0]?),
        written: List::from_vec(vec![in alloc; 0]?),
        states: List::from_vec(vec![in alloc; 0]?),
        arrays: List::from_vec(Vec::new(alloc)),
    };
    Ok(Parts {
        constraints: List::from_vec(vec![in alloc;
            at(1, enter(0)),
            at(0, alloc_of(0, 0)),
            at(0, Rule::OutsideDirect { call: CallId(0) }),
        ]?),
        calls: List::from_vec(vec![in alloc; call]?),
        methods: List::from_vec(vec![in alloc; method(alloc, 3)]?),
        sites: List::from_vec(vec![in alloc; site(true, None), site(true, Some(place(0, 3)))]?),
        subclasses: List::from_vec(Vec::new(alloc)),
        selects: List::from_vec(Vec::new(alloc)),
        outside_rules: List::from_vec(vec![in alloc; rule]?),
        fields: 4,
        vars: 4,
    })
}

// The elements of the array are read and written outside; the length of what is answered is made there and read here.
#[test]
fn an_array_is_copied_outside(rt: HostRuntime) -> Result<(), Fail> {
    let alloc = rt.alloc();
    let touches = vec![in alloc; touch(0, false, field_of(alloc, 1, 2)?)]?;
    let found = answer(&rt, alloc, copy_outside(alloc)?, List::from_vec(touches))?;
    let elements = Location::Cell(SiteId(0), FieldId(1));
    let length = Location::Cell(SiteId(1), FieldId(2));
    assert!(rt; locations(&found, &[elements, length]));
    assert!(rt; changes(&found, 0, &[0, 1]) && uses(&found, 0, &[0, 1]));
    Ok(())
}
