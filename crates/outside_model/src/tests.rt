// The reflection table row by row, and the lists of four calls.

use crate::outside_rule::outside_rule;
use crate::reflection::refused_call;
use dep_form::call_site::CallSite;
use dep_form::rules::{OutsideRule, Var};
use slicer_ids::list::List;
use std::alloc::Global;
use std::process::Abort;
use std::test::Fail;

#[test]
fn refuses_reflection_alone(rt: HostRuntime) {
    let class = b"java/lang/Class".as_slice();
    assert_eq!(rt; refused_call(class, b"forName"), Some(1));
    assert_eq!(rt; refused_call(class, b"newInstance"), Some(2));
    assert_eq!(rt; refused_call(class, b"getName"), None);
    assert_eq!(rt;
        refused_call(b"java/lang/reflect/Method", b"invoke"),
        Some(3)
    );
    assert_eq!(rt;
        refused_call(b"java/lang/invoke/MethodHandle", b"bindTo"),
        Some(4)
    );
    assert_eq!(rt; refused_call(b"java/lang/reflect", b"invoke"), None);
    assert_eq!(rt; refused_call(b"java/lang/ClassLoader", b"forName"), None);
    assert_eq!(rt;
        refused_call(b"my/java/lang/reflect/Method", b"invoke"),
        None
    );
}

// A call of a reference, an int and a reference.
fn call_of_three(alloc: Global, instance: bool) -> Result<CallSite, Fail> {
    let arguments = List::from_vec(vec![in alloc; Var(5), Var(6), Var(7)]?);
    let references = List::from_vec(vec![in alloc; true, false, true]?);
    Ok(CallSite {
        place: None,
        arguments,
        references,
        instance,
        result: None,
        exception: Var(8),
        fresh: None,
        refused: None,
    })
}

// A call of one reference.
fn call_of_one(alloc: Global, instance: bool) -> Result<CallSite, Fail> {
    let arguments = List::from_vec(vec![in alloc; Var(5)]?);
    let references = List::from_vec(vec![in alloc; true]?);
    Ok(CallSite {
        place: None,
        arguments,
        references,
        instance,
        result: None,
        exception: Var(8),
        fresh: None,
        refused: None,
    })
}

fn has_lists(rt: &impl Abort, rule: &OutsideRule, lists: [&[u8]; 4]) {
    assert_eq!(rt; rule.reads.items(), lists[0]);
    assert_eq!(rt; rule.written.items(), lists[1]);
    assert_eq!(rt; rule.states.items(), lists[2]);
    assert_eq!(rt; rule.arrays.items(), lists[3]);
}

#[test]
fn lists_the_arguments_of_an_instance_call(rt: HostRuntime) -> Result<(), Fail> {
    let three = outside_rule(rt.alloc(), &call_of_three(rt.alloc(), true)?)?;
    has_lists(&rt, &three, [&[0, 2], &[1, 2], &[0], &[2]]);
    let one = outside_rule(rt.alloc(), &call_of_one(rt.alloc(), true)?)?;
    has_lists(&rt, &one, [&[0], &[], &[], &[]]);
    Ok(())
}

#[test]
fn lists_the_arguments_of_a_static_call(rt: HostRuntime) -> Result<(), Fail> {
    let three = outside_rule(rt.alloc(), &call_of_three(rt.alloc(), false)?)?;
    has_lists(&rt, &three, [&[0, 2], &[0, 1, 2], &[0, 2], &[]]);
    let one = outside_rule(rt.alloc(), &call_of_one(rt.alloc(), false)?)?;
    has_lists(&rt, &one, [&[0], &[0], &[0], &[]]);
    Ok(())
}
