// Small systems. A site's class is its number.

use dep_form::call_site::CallSite;
use dep_form::rules::{Constraint, MethodVars, OutsideRule, Rule, SiteInfo, Var};
use dep_form::solution::Solution;
use points_to::checked::{Parts, is_whole, system};
use points_to::solve;
use slicer_ids::ids::{CallId, ClassId, FieldId, MethodId, NoMemory, SiteId};
use slicer_ids::list::List;
use std::alloc::Global;
use std::process::Abort;
use std::test::Fail;

fn at(method: u32, rule: Rule) -> Constraint {
    Constraint {
        method: MethodId(method),
        rule,
    }
}

fn alloc_of(to: u64, site: u32) -> Rule {
    Rule::Alloc {
        to: Var(to),
        site: SiteId(site),
    }
}

fn copy(from: u64, to: u64) -> Rule {
    Rule::Copy {
        from: Var(from),
        to: Var(to),
        keep: None,
    }
}

fn load(base: u64, field: u32, to: u64) -> Rule {
    Rule::Load {
        base: Var(base),
        field: FieldId(field),
        to: Var(to),
    }
}

fn store(base: u64, field: u32, from: u64) -> Rule {
    Rule::Store {
        base: Var(base),
        field: FieldId(field),
        from: Var(from),
    }
}

fn direct(call: u32, target: u32) -> Rule {
    Rule::Direct {
        call: CallId(call),
        target: MethodId(target),
    }
}

fn object(class: Option<u32>, array: bool) -> SiteInfo {
    SiteInfo {
        class: match class {
            Some(c) => Some(ClassId(c)),
            None => None,
        },
        array,
        place: None,
        k: 0,
    }
}

fn no_rule(alloc: Global) -> OutsideRule {
    OutsideRule {
        reads: List::from_vec(Vec::new(alloc)),
        written: List::from_vec(Vec::new(alloc)),
        states: List::from_vec(Vec::new(alloc)),
        arrays: List::from_vec(Vec::new(alloc)),
    }
}

// A call without arguments.
fn plain_call(alloc: Global, exception: u64) -> CallSite {
    CallSite {
        place: None,
        arguments: List::from_vec(Vec::new(alloc)),
        references: List::from_vec(Vec::new(alloc)),
        instance: false,
        result: None,
        exception: Var(exception),
        fresh: None,
        refused: None,
    }
}

// A call of one reference.
fn call_of(
    alloc: Global,
    argument: u64,
    instance: bool,
    to: Option<Var>,
    exception: u64,
) -> Result<CallSite, NoMemory> {
    Ok(CallSite {
        place: None,
        arguments: List::from_vec(vec![in alloc; Var(argument)]?),
        references: List::from_vec(vec![in alloc; true]?),
        instance,
        result: to,
        exception: Var(exception),
        fresh: None,
        refused: None,
    })
}

// A call of the references 0 and 1.
fn call_of_two(
    alloc: Global,
    instance: bool,
    to: Option<Var>,
    exception: u64,
    fresh: Option<SiteId>,
) -> Result<CallSite, NoMemory> {
    Ok(CallSite {
        place: None,
        arguments: List::from_vec(vec![in alloc; Var(0), Var(1)]?),
        references: List::from_vec(vec![in alloc; true, true]?),
        instance,
        result: to,
        exception: Var(exception),
        fresh,
        refused: None,
    })
}

// A method of one formal.
fn method_of(
    alloc: Global,
    formal: u64,
    to: Option<Var>,
    thrown: u64,
) -> Result<MethodVars, NoMemory> {
    Ok(MethodVars {
        formals: List::from_vec(vec![in alloc; Var(formal)]?),
        result: to,
        thrown: Var(thrown),
        values: List::from_vec(Vec::new(alloc)),
        caught: List::from_vec(Vec::new(alloc)),
        native: false,
    })
}

fn plain_method(alloc: Global, thrown: u64) -> MethodVars {
    MethodVars {
        formals: List::from_vec(Vec::new(alloc)),
        result: None,
        thrown: Var(thrown),
        values: List::from_vec(Vec::new(alloc)),
        caught: List::from_vec(Vec::new(alloc)),
        native: false,
    }
}

// The solution of a system of these parts.
fn solved(rt: &impl Abort, alloc: Global, parts: Parts) -> Result<Solution, NoMemory> {
    assert!(rt; is_whole(&parts));
    let s = system(parts, List::from_vec(Vec::new(alloc)));
    solve(alloc, &s)
}

fn are_sites(sites: &[SiteId], expected: &[u32]) -> bool {
    if sites.len() != expected.len() {
        return false;
    }
    for k in 0..sites.len() {
        if sites[k].0 != expected[k] {
            return false;
        }
    }
    true
}

// Whether a variable may be exactly these sites.
fn may_be(solution: &Solution, v: usize, expected: &[u32]) -> bool {
    match solution.sites.items().get(v) {
        Some(sites) => are_sites(sites.items(), expected),
        None => false,
    }
}

// Whether these are the cells.
fn are_cells(solution: &Solution, expected: &[(u32, u32, u32)]) -> bool {
    let cells = solution.cells.items();
    if cells.len() != expected.len() {
        return false;
    }
    for k in 0..cells.len() {
        let (object, field, held) = cells[k];
        if object.0 != expected[k].0 || field.0 != expected[k].1 || held.0 != expected[k].2 {
            return false;
        }
    }
    true
}

// Whether a call goes to exactly these methods.
fn goes_to(solution: &Solution, c: usize, expected: &[u32]) -> bool {
    match solution.targets.items().get(c) {
        Some(targets) => are_methods(targets.items(), expected),
        None => false,
    }
}

fn are_methods(methods: &[MethodId], expected: &[u32]) -> bool {
    if methods.len() != expected.len() {
        return false;
    }
    for k in 0..methods.len() {
        if methods[k].0 != expected[k] {
            return false;
        }
    }
    true
}

// Whether a call goes outside with this receiver alone, or with none.
fn goes_outside(solution: &Solution, c: usize, receiver: Option<SiteId>) -> bool {
    match solution.outside.items().get(c) {
        Some(receivers) => receivers.items() == [receiver].as_slice(),
        None => false,
    }
}

// a = new A; b = new B; a.f = b; c = a.f; b.f = c
fn fields(alloc: Global) -> Result<Parts, NoMemory> {
    Ok(Parts {
        constraints: List::from_vec(vec![in alloc;
            at(0, alloc_of(0, 0)),
            at(0, alloc_of(1, 1)),
            at(0, store(0, 0, 1)),
            at(0, load(0, 0, 2)),
            at(0, store(1, 0, 2)),
        ]?),
        calls: List::from_vec(Vec::new(alloc)),
        methods: List::from_vec(Vec::new(alloc)),
        sites: List::from_vec(vec![in alloc; object(Some(0), false), object(Some(1), false)]?),
        subclasses: List::from_vec(Vec::new(alloc)),
        selects: List::from_vec(Vec::new(alloc)),
        outside_rules: List::from_vec(Vec::new(alloc)),
        fields: 4,
        vars: 3,
    })
}

#[test]
fn a_cycle_through_a_field(rt: HostRuntime) -> Result<(), Fail> {
    let solution = solved(&rt, rt.alloc(), fields(rt.alloc())?)?;
    assert!(rt; may_be(&solution, 0, &[0]));
    assert!(rt; may_be(&solution, 1, &[1]));
    assert!(rt; may_be(&solution, 2, &[1]));
    assert!(rt; are_cells(&solution, &[(0, 0, 1), (1, 0, 1)]));
    Ok(())
}

// x = new A or new B; x.m(), where each class has an m of its own. Variables: x, this of A.m, this of B.m, what these throw, what
// the call throws.
fn dispatch(alloc: Global) -> Result<Parts, NoMemory> {
    let call = Rule::Virtual {
        call: CallId(0),
        signature: 7,
    };
    Ok(Parts {
        constraints: List::from_vec(vec![in alloc;
            at(2, call),
            at(2, alloc_of(0, 0)),
            at(2, alloc_of(0, 1)),
        ]?),
        calls: List::from_vec(vec![in alloc; call_of(alloc, 0, true, None, 5)?]?),
        methods: List::from_vec(vec![in alloc;
            method_of(alloc, 1, None, 3)?,
            method_of(alloc, 2, None, 4)?,
        ]?),
        sites: List::from_vec(vec![in alloc; object(Some(0), false), object(Some(1), false)]?),
        subclasses: List::from_vec(Vec::new(alloc)),
        selects: List::from_vec(vec![in alloc;
            (7, ClassId(1), Some(MethodId(1))),
            (7, ClassId(0), Some(MethodId(0))),
        ]?),
        outside_rules: List::from_vec(vec![in alloc; no_rule(alloc)]?),
        fields: 3,
        vars: 6,
    })
}

#[test]
fn a_call_on_two_sites(rt: HostRuntime) -> Result<(), Fail> {
    let solution = solved(&rt, rt.alloc(), dispatch(rt.alloc())?)?;
    assert!(rt; may_be(&solution, 1, &[0]));
    assert!(rt; may_be(&solution, 2, &[1]));
    assert!(rt; goes_to(&solution, 0, &[0, 1]));
    assert!(rt; solution.reached.items() == [true, true].as_slice());
    Ok(())
}

// rec(p) { q = rec(p); r = p or q; return r }, called with a new A. Variables: p, r, what it throws, q, what its call throws;
// the argument, the answer, what the first call throws.
fn recursion(alloc: Global) -> Result<Parts, NoMemory> {
    let outer = call_of(alloc, 5, false, Some(Var(6)), 7)?;
    let inner = call_of(alloc, 0, false, Some(Var(3)), 4)?;
    Ok(Parts {
        constraints: List::from_vec(vec![in alloc;
            at(0, copy(3, 1)),
            at(0, copy(0, 1)),
            at(0, direct(1, 0)),
            at(1, direct(0, 0)),
            at(1, alloc_of(5, 0)),
        ]?),
        calls: List::from_vec(vec![in alloc; outer, inner]?),
        methods: List::from_vec(vec![in alloc; method_of(alloc, 0, Some(Var(1)), 2)?]?),
        sites: List::from_vec(vec![in alloc; object(Some(0), false)]?),
        subclasses: List::from_vec(Vec::new(alloc)),
        selects: List::from_vec(Vec::new(alloc)),
        outside_rules: List::from_vec(vec![in alloc; no_rule(alloc), no_rule(alloc)]?),
        fields: 3,
        vars: 8,
    })
}

#[test]
fn a_method_that_calls_itself(rt: HostRuntime) -> Result<(), Fail> {
    let solution = solved(&rt, rt.alloc(), recursion(rt.alloc())?)?;
    assert!(rt; may_be(&solution, 1, &[0]));
    assert!(rt; may_be(&solution, 3, &[0]));
    assert!(rt; may_be(&solution, 6, &[0]));
    assert!(rt; may_be(&solution, 7, &[]));
    assert!(rt; goes_to(&solution, 1, &[0]));
    Ok(())
}

// a = new A[2][2]; b = a[..]; b[..] = new A; c = b[..]
fn arrays(alloc: Global) -> Result<Parts, NoMemory> {
    let holds = Rule::Hold {
        outer: SiteId(0),
        inner: SiteId(1),
    };
    Ok(Parts {
        constraints: List::from_vec(vec![in alloc;
            at(0, load(1, 0, 3)),
            at(0, store(1, 0, 2)),
            at(0, load(0, 0, 1)),
            at(0, holds),
            at(0, alloc_of(2, 2)),
            at(0, alloc_of(0, 0)),
        ]?),
        calls: List::from_vec(Vec::new(alloc)),
        methods: List::from_vec(Vec::new(alloc)),
        sites: List::from_vec(vec![in alloc;
            object(None, true),
            object(None, true),
            object(Some(0), false),
        ]?),
        subclasses: List::from_vec(Vec::new(alloc)),
        selects: List::from_vec(Vec::new(alloc)),
        outside_rules: List::from_vec(Vec::new(alloc)),
        fields: 3,
        vars: 4,
    })
}

#[test]
fn arrays_of_arrays(rt: HostRuntime) -> Result<(), Fail> {
    let solution = solved(&rt, rt.alloc(), arrays(rt.alloc())?)?;
    assert!(rt; may_be(&solution, 1, &[1]));
    assert!(rt; may_be(&solution, 3, &[2]));
    assert!(rt; are_cells(&solution, &[(0, 0, 1), (1, 0, 2)]));
    Ok(())
}

// A static call outside of two arrays, the first of which holds an A: each may be written into the state of each.
fn copied_arrays(alloc: Global) -> Result<Parts, NoMemory> {
    let rule = OutsideRule {
        reads: List::from_vec(vec![in alloc; 0, 1]?),
        written: List::from_vec(vec![in alloc; 0, 1]?),
        states: List::from_vec(vec![in alloc; 0, 1]?),
        arrays: List::from_vec(Vec::new(alloc)),
    };
    Ok(Parts {
        constraints: List::from_vec(vec![in alloc;
            at(0, Rule::OutsideDirect { call: CallId(0) }),
            at(0, alloc_of(0, 0)),
            at(0, alloc_of(1, 1)),
            at(0, alloc_of(2, 2)),
            at(0, store(0, 0, 2)),
        ]?),
        calls: List::from_vec(vec![in alloc; call_of_two(alloc, false, None, 3, None)?]?),
        methods: List::from_vec(Vec::new(alloc)),
        sites: List::from_vec(vec![in alloc;
            object(None, true),
            object(None, true),
            object(Some(0), false),
        ]?),
        subclasses: List::from_vec(Vec::new(alloc)),
        selects: List::from_vec(Vec::new(alloc)),
        outside_rules: List::from_vec(vec![in alloc; rule]?),
        fields: 3,
        vars: 4,
    })
}

#[test]
fn arrays_that_are_copied_outside(rt: HostRuntime) -> Result<(), Fail> {
    let solution = solved(&rt, rt.alloc(), copied_arrays(rt.alloc())?)?;
    assert!(rt; goes_outside(&solution, 0, None));
    let all = [
        (0, 0, 0),
        (0, 0, 1),
        (0, 0, 2),
        (1, 0, 0),
        (1, 0, 1),
        (1, 0, 2),
    ];
    assert!(rt; are_cells(&solution, &all));
    Ok(())
}

// main calls m, which calls n, which throws an A and a B; main catches what is an A. Variables: what the call of m throws, what m
// and n throw, what the call of n throws, what is caught.
fn thrown(alloc: Global) -> Result<Parts, NoMemory> {
    let caught = Rule::Copy {
        from: Var(0),
        to: Var(4),
        keep: Some(ClassId(0)),
    };
    Ok(Parts {
        constraints: List::from_vec(vec![in alloc;
            at(2, caught),
            at(2, direct(0, 0)),
            at(0, copy(3, 1)),
            at(0, direct(1, 1)),
            at(1, alloc_of(2, 0)),
            at(1, alloc_of(2, 1)),
        ]?),
        calls: List::from_vec(vec![in alloc; plain_call(alloc, 0), plain_call(alloc, 3)]?),
        methods: List::from_vec(vec![in alloc; plain_method(alloc, 1), plain_method(alloc, 2)]?),
        sites: List::from_vec(vec![in alloc; object(Some(0), false), object(Some(1), false)]?),
        subclasses: List::from_vec(vec![in alloc;
            (ClassId(0), ClassId(0)),
            (ClassId(0), ClassId(1)),
        ]?),
        selects: List::from_vec(Vec::new(alloc)),
        outside_rules: List::from_vec(vec![in alloc; no_rule(alloc), no_rule(alloc)]?),
        fields: 3,
        vars: 5,
    })
}

#[test]
fn an_exception_through_two_frames(rt: HostRuntime) -> Result<(), Fail> {
    let solution = solved(&rt, rt.alloc(), thrown(rt.alloc())?)?;
    assert!(rt; may_be(&solution, 3, &[0, 1]));
    assert!(rt; may_be(&solution, 0, &[0, 1]));
    assert!(rt; may_be(&solution, 4, &[0]));
    assert!(rt; solution.reached.items() == [true, true].as_slice());
    Ok(())
}

// list.add(a), where the list is of a class outside: it may hold a, and the answer may be the list, a or something new.
fn container(alloc: Global) -> Result<Parts, NoMemory> {
    let call = Rule::Virtual {
        call: CallId(0),
        signature: 5,
    };
    let rule = OutsideRule {
        reads: List::from_vec(vec![in alloc; 0, 1]?),
        written: List::from_vec(vec![in alloc; 1]?),
        states: List::from_vec(vec![in alloc; 0]?),
        arrays: List::from_vec(vec![in alloc; 1]?),
    };
    Ok(Parts {
        constraints: List::from_vec(vec![in alloc;
            at(0, call),
            at(0, alloc_of(0, 0)),
            at(0, alloc_of(1, 1)),
        ]?),
        calls: List::from_vec(vec![in alloc;
            call_of_two(alloc, true, Some(Var(2)), 3, Some(SiteId(2)))?,
        ]?),
        methods: List::from_vec(Vec::new(alloc)),
        sites: List::from_vec(vec![in alloc;
            object(None, false),
            object(Some(0), false),
            object(None, false),
        ]?),
        subclasses: List::from_vec(Vec::new(alloc)),
        selects: List::from_vec(Vec::new(alloc)),
        outside_rules: List::from_vec(vec![in alloc; rule]?),
        fields: 3,
        vars: 4,
    })
}

#[test]
fn a_container_outside(rt: HostRuntime) -> Result<(), Fail> {
    let solution = solved(&rt, rt.alloc(), container(rt.alloc())?)?;
    assert!(rt; goes_outside(&solution, 0, Some(SiteId(0))));
    assert!(rt; may_be(&solution, 2, &[0, 1, 2]));
    assert!(rt; are_cells(&solution, &[(0, 2, 1)]));
    Ok(())
}

// The lists of an outside call of a receiver and a further reference.
fn rule_of_two(alloc: Global) -> Result<OutsideRule, NoMemory> {
    Ok(OutsideRule {
        reads: List::from_vec(vec![in alloc; 0, 1]?),
        written: List::from_vec(vec![in alloc; 1]?),
        states: List::from_vec(vec![in alloc; 0]?),
        arrays: List::from_vec(vec![in alloc; 1]?),
    })
}

// The lists of an outside call of a receiver alone.
fn rule_of_receiver(alloc: Global) -> Result<OutsideRule, NoMemory> {
    Ok(OutsideRule {
        reads: List::from_vec(vec![in alloc; 0]?),
        written: List::from_vec(Vec::new(alloc)),
        states: List::from_vec(Vec::new(alloc)),
        arrays: List::from_vec(Vec::new(alloc)),
    })
}

// a = t.split(u); e = a[..]; e.length(), where t and u are two texts. An outside call that answers an array of texts has two sites,
// the array that it may make and the text that this array holds. Variables: t, u, a, e, the length, what the two calls throw.
fn split_text(alloc: Global) -> Result<Parts, NoMemory> {
    let split = Rule::Virtual {
        call: CallId(0),
        signature: 1,
    };
    let length = Rule::Virtual {
        call: CallId(1),
        signature: 0,
    };
    let holds = Rule::Hold {
        outer: SiteId(2),
        inner: SiteId(3),
    };
    Ok(Parts {
        constraints: List::from_vec(vec![in alloc;
            at(0, length),
            at(0, load(2, 0, 3)),
            at(0, holds),
            at(0, split),
            at(0, alloc_of(1, 1)),
            at(0, alloc_of(0, 0)),
        ]?),
        calls: List::from_vec(vec![in alloc;
            call_of_two(alloc, true, Some(Var(2)), 5, Some(SiteId(2)))?,
            call_of(alloc, 3, true, Some(Var(4)), 6)?,
        ]?),
        methods: List::from_vec(Vec::new(alloc)),
        sites: List::from_vec(vec![in alloc;
            object(None, false),
            object(None, false),
            object(None, true),
            object(None, false),
        ]?),
        subclasses: List::from_vec(Vec::new(alloc)),
        selects: List::from_vec(Vec::new(alloc)),
        outside_rules: List::from_vec(vec![in alloc;
            rule_of_two(alloc)?,
            rule_of_receiver(alloc)?,
        ]?),
        fields: 3,
        vars: 7,
    })
}

// The answer may be t, u or the new array, and t's state may hold u; what is read out of the array is the text that was made with it.
// A call outside throws nothing, and one that answers a number gives no object.
#[test]
fn an_array_that_is_made_outside(rt: HostRuntime) -> Result<(), Fail> {
    let solution = solved(&rt, rt.alloc(), split_text(rt.alloc())?)?;
    assert!(rt; goes_outside(&solution, 0, Some(SiteId(0))));
    assert!(rt; goes_outside(&solution, 1, Some(SiteId(3))));
    assert!(rt; may_be(&solution, 2, &[0, 1, 2]));
    assert!(rt; may_be(&solution, 3, &[3]));
    assert!(rt; may_be(&solution, 4, &[]));
    assert!(rt; may_be(&solution, 5, &[]));
    assert!(rt; may_be(&solution, 6, &[]));
    assert!(rt; are_cells(&solution, &[(0, 2, 1), (2, 0, 3)]));
    Ok(())
}
