// Small systems with statements that are refused, by the definition: the method is reached, and the first by statement, then by
// reason.
use crate::test_classes::{Shape, folder, with_main};
use call_graph::{Refused, RefusedKind, refused_reached};
use dep_form::call_site::CallSite;
use dep_form::rules::{Constraint, MethodVars, OutsideRule, Rule, Var};
use hierarchy::Hierarchy;
use points_to::checked::{Parts, is_whole, system};
use points_to::solve;
use slicer_ids::ids::{CallId, MethodId, NoMemory, Statement};
use slicer_ids::list::List;
use std::alloc::Global;
use std::process::Abort;
use std::test::Fail;

fn at(method: u32, rule: Rule) -> Constraint {
    Constraint {
        method: MethodId(method),
        rule,
    }
}

fn place(method: u32, pc: u16) -> Statement {
    Statement {
        method: MethodId(method),
        pc,
    }
}

fn enter(target: u32) -> Constraint {
    at(
        3,
        Rule::Enter {
            target: MethodId(target),
        },
    )
}

fn direct(from: u32, call: u32, target: u32) -> Constraint {
    at(
        from,
        Rule::Direct {
            call: CallId(call),
            target: MethodId(target),
        },
    )
}

// A static call without a result.
fn call_at(alloc: Global, from: Option<Statement>, refused: Option<u8>) -> CallSite {
    CallSite {
        place: from,
        arguments: List::from_vec(Vec::new(alloc)),
        references: List::from_vec(Vec::new(alloc)),
        instance: false,
        result: None,
        exception: Var(0),
        fresh: None,
        refused,
    }
}

fn no_rule(alloc: Global) -> OutsideRule {
    OutsideRule {
        reads: List::from_vec(Vec::new(alloc)),
        written: List::from_vec(Vec::new(alloc)),
        states: List::from_vec(Vec::new(alloc)),
        arrays: List::from_vec(Vec::new(alloc)),
    }
}

fn method(alloc: Global, native: bool) -> MethodVars {
    MethodVars {
        formals: List::from_vec(Vec::new(alloc)),
        result: None,
        thrown: Var(0),
        values: List::from_vec(Vec::new(alloc)),
        caught: List::from_vec(Vec::new(alloc)),
        native,
    }
}

// Methods 0, 1 and 2, of which the second is native, with two calls. The root has number 3.
fn parts(
    alloc: Global,
    constraints: List<Constraint>,
    first: CallSite,
    second: CallSite,
) -> Result<Parts, NoMemory> {
    Ok(Parts {
        constraints,
        calls: List::from_vec(vec![in alloc; first, second]?),
        methods: List::from_vec(vec![in alloc;
            method(alloc, false),
            method(alloc, true),
            method(alloc, false),
        ]?),
        sites: List::from_vec(Vec::new(alloc)),
        subclasses: List::from_vec(Vec::new(alloc)),
        selects: List::from_vec(Vec::new(alloc)),
        outside_rules: List::from_vec(vec![in alloc; no_rule(alloc), no_rule(alloc)]?),
        fields: 3,
        vars: 1,
    })
}

// Classes A, B and C with a method each. In A and in C invokedynamic stands at 3.
fn classes(alloc: Global) -> Result<Hierarchy, Fail> {
    let dynamic = [0, 0, 0, 186, 0, 1, 0, 0, 177];
    let first = Shape {
        code: Some(&dynamic),
        ..with_main(b"A")
    };
    let second = Shape {
        flags: 0x0109,
        code: None,
        ..with_main(b"B")
    };
    let third = Shape {
        code: Some(&dynamic),
        ..with_main(b"C")
    };
    Ok(folder(alloc, &[first, second, third])?)
}

fn first(
    rt: &impl Abort,
    alloc: Global,
    constraints: List<Constraint>,
    one: CallSite,
    other: CallSite,
) -> Result<Option<Refused>, Fail> {
    let parts = parts(alloc, constraints, one, other)?;
    assert!(rt; is_whole(&parts));
    let s = system(parts, List::from_vec(Vec::new(alloc)));
    let solution = solve(alloc, &s)?;
    let h = classes(alloc)?;
    Ok(refused_reached(&h, &s, &solution))
}

fn is(answer: Option<Refused>, kind: RefusedKind, method: u32, pc: u16) -> bool {
    answer
        == Some(Refused {
            kind,
            place: place(method, pc),
        })
}

// The call of a native method stands for it.
#[test]
fn a_native_method_that_is_called_is_refused(rt: HostRuntime) -> Result<(), Fail> {
    let alloc = rt.alloc();
    let rules = List::from_vec(vec![in alloc; enter(0), direct(0, 1, 1)]?);
    let quiet = call_at(alloc, Some(place(0, 0)), None);
    let call = call_at(alloc, Some(place(0, 5)), None);
    assert!(rt;
        is(
            first(&rt, alloc, rules, quiet, call)?,
            RefusedKind::Native,
            0,
            5
        )
    );
    Ok(())
}

// Method 2 isn't reached: its call of a native method, its invokedynamic and its call of reflection aren't refused, and neither is
// a call by the root.
#[test]
fn what_is_not_reached_is_not_refused(rt: HostRuntime) -> Result<(), Fail> {
    let alloc = rt.alloc();
    let rules = List::from_vec(vec![in alloc; enter(0), direct(2, 0, 1)]?);
    let call = call_at(alloc, Some(place(2, 3)), Some(1));
    let root = call_at(alloc, None, Some(2));
    assert!(rt; first(&rt, alloc, rules, call, root)? == None);
    Ok(())
}

#[test]
fn a_dynamic_call_is_refused(rt: HostRuntime) -> Result<(), Fail> {
    let alloc = rt.alloc();
    let rules = List::from_vec(vec![in alloc; enter(0), enter(2)]?);
    let unreached = call_at(alloc, Some(place(2, 3)), None);
    let call = call_at(alloc, Some(place(0, 3)), None);
    assert!(rt;
        is(
            first(&rt, alloc, rules, unreached, call)?,
            RefusedKind::Dynamic,
            0,
            3
        )
    );
    Ok(())
}

// The call that stands first in the method comes second in the list.
#[test]
fn the_first_of_two_is_refused(rt: HostRuntime) -> Result<(), Fail> {
    let alloc = rt.alloc();
    let rules = List::from_vec(vec![in alloc; enter(0)]?);
    let later = call_at(alloc, Some(place(0, 7)), Some(1));
    let earlier = call_at(alloc, Some(place(0, 4)), Some(4));
    assert!(rt;
        is(
            first(&rt, alloc, rules, later, earlier)?,
            RefusedKind::Reflection(4),
            0,
            4
        )
    );
    Ok(())
}

#[test]
fn of_two_reasons_the_first_counts(rt: HostRuntime) -> Result<(), Fail> {
    let alloc = rt.alloc();
    let rules = List::from_vec(vec![in alloc; enter(0), direct(0, 0, 1)]?);
    let both = call_at(alloc, Some(place(0, 3)), Some(2));
    let after = call_at(alloc, Some(place(0, 5)), Some(1));
    assert!(rt;
        is(
            first(&rt, alloc, rules, both, after)?,
            RefusedKind::Native,
            0,
            3
        )
    );
    let rules = List::from_vec(vec![in alloc; enter(0)]?);
    let both = call_at(alloc, Some(place(0, 3)), Some(2));
    let after = call_at(alloc, Some(place(0, 5)), Some(1));
    assert!(rt;
        is(
            first(&rt, alloc, rules, both, after)?,
            RefusedKind::Dynamic,
            0,
            3
        )
    );
    Ok(())
}
