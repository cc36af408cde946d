// Small systems and lists, with what follows worked out by hand.
ghost use Rattle.std.specs.Prelude.{◌≡◌, true};
ghost use Rattle.mod_ref.specs.Direct.{IsSmall};

use crate::entries::entry_calls;
use crate::given::{given_variables, is_given};
use crate::locations::in_any;
use dep_form::rules::{Constraint, MethodVars, Rule, SiteInfo, Var};
use dep_form::system::System;
use hierarchy::tree::build;
use points_to::checked::{Parts, is_whole, system};
use points_to::solve;
use slicer_ids::ids::{LocId, MethodId, NoMemory, SiteId};
use slicer_ids::list::List;
use std::alloc::Global;
use std::process::Abort;
use std::test::Fail;

fn numbers(alloc: Global, items: &[u32]) -> Result<List<LocId>, NoMemory> {
    let mut all = Vec::new(alloc);
    for n in items {
        all.push(LocId(*n))?;
    }
    Ok(List::from_vec(all))
}

fn are_numbers(found: &[LocId], expected: &[u32]) -> bool {
    if found.len() != expected.len() {
        return false;
    }
    for k in 0..found.len() {
        if found[k].0 != expected[k] {
            return false;
        }
    }
    true
}

// Method 0 has 2 and 5, method 1 has 5 and 7, method 2 has none, and there is no method 3.
#[test]
fn what_two_methods_have_is_joined_in_order(rt: HostRuntime) -> Result<(), Fail> {
    let alloc = rt.alloc();
    let lists = vec![in alloc;
        numbers(alloc, &[2, 5])?,
        numbers(alloc, &[5, 7])?,
        numbers(alloc, &[])?,
    ]?;
    let both = in_any(alloc, lists.as_slice(), &[MethodId(1), MethodId(0)])?;
    assert!(rt; are_numbers(both.as_slice(), &[2, 5, 7]));
    let none = in_any(alloc, lists.as_slice(), &[MethodId(2), MethodId(3)])?;
    assert!(rt; are_numbers(none.as_slice(), &[]));
    Ok(())
}

fn method(alloc: Global, formals: Vec<Var>) -> MethodVars {
    MethodVars {
        formals: List::from_vec(formals),
        result: None,
        thrown: Var(2),
        values: List::from_vec(Vec::new(alloc)),
        caught: List::from_vec(Vec::new(alloc)),
        native: false,
    }
}

// Two methods of one argument each; the root, method 2, enters both, and gives the first its argument.
fn two_entries(alloc: Global) -> Result<Parts, NoMemory> {
    Ok(Parts {
        constraints: List::from_vec(vec![in alloc;
            of_root(Rule::Enter {
                target: MethodId(1)
            }),
            of_root(Rule::Enter {
                target: MethodId(0)
            }),
            of_root(Rule::Alloc {
                to: Var(0),
                site: SiteId(0)
            }),
        ]?),
        calls: List::from_vec(Vec::new(alloc)),
        methods: List::from_vec(vec![in alloc;
            method(alloc, vec![in alloc; Var(0)]?),
            method(alloc, vec![in alloc; Var(1)]?),
        ]?),
        sites: List::from_vec(vec![in alloc;
            SiteInfo {
                class: None,
                array: true,
                place: None,
                k: 0
            },
        ]?),
        subclasses: List::from_vec(Vec::new(alloc)),
        selects: List::from_vec(Vec::new(alloc)),
        outside_rules: List::from_vec(Vec::new(alloc)),
        fields: 3,
        vars: 3,
    })
}

fn of_root(rule: Rule) -> Constraint {
    Constraint {
        method: MethodId(2),
        rule,
    }
}

// Whether sites, calls and methods have numbers of 32 bits.
fn is_small(s: &System) -> bool
    ensures { result ≡ true → IsSmall s.now }
{
    let sites = s.sites.items().len();
    let calls = s.calls.items().len();
    let methods = s.methods.items().len();
    sites < 0x1_0000_0000 && calls < 0x1_0000_0000 && methods < 0x1_0000_0000
}

fn are_entries(
    rt: &impl Abort,
    alloc: Global,
    s: &System,
    expected: &[u32],
) -> Result<bool, NoMemory> {
    assert!(rt; is_small(s));
    let solution = solve(alloc, s)?;
    let Ok(h) = build(alloc, Vec::new(alloc)) else {
        return Err(NoMemory);
    };
    let entries = entry_calls(alloc, &h, s, &solution)?;
    Ok(are_methods(entries.as_slice(), expected))
}

fn are_methods(found: &[MethodId], expected: &[u32]) -> bool {
    if found.len() != expected.len() {
        return false;
    }
    for k in 0..found.len() {
        if found[k].0 != expected[k] {
            return false;
        }
    }
    true
}

#[test]
fn the_root_calls_what_its_constraints_enter(rt: HostRuntime) -> Result<(), Fail> {
    let alloc = rt.alloc();
    let parts = two_entries(alloc)?;
    assert!(rt; is_whole(&parts));
    let s = system(parts, List::from_vec(Vec::new(alloc)));
    assert!(rt; are_entries(&rt, alloc, &s, &[0, 1])?);
    Ok(())
}

#[test]
fn the_root_gives_the_first_method_its_argument(rt: HostRuntime) -> Result<(), Fail> {
    let alloc = rt.alloc();
    let parts = two_entries(alloc)?;
    assert!(rt; is_whole(&parts));
    let s = system(parts, List::from_vec(Vec::new(alloc)));
    assert!(rt; is_small(&s));
    let given = given_variables(alloc, &s)?;
    assert!(rt; is_given(&s, given.as_slice(), MethodId(0)));
    assert!(rt; !is_given(&s, given.as_slice(), MethodId(1)));
    Ok(())
}
