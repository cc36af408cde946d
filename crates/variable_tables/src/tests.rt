use crate::alone::{Seen, with_def};
use crate::counter::{Counter, numbered, several};
use crate::finding::static_field;
use crate::kinds::{Kind, is_of, reads_first};
use crate::tables::VariableTables;
use class_form::body::Def;
use dep_form::rules::{MethodVars, Var};
use slicer_ids::ids::{FieldId, MethodId};
use slicer_ids::list::List;
use std::alloc::{AllocError, Global};
use std::test::Fail;

#[test]
fn numbers_follow_one_another(rt: HostRuntime) -> Result<(), Fail> {
    let alloc = rt.alloc();
    let mut fresh = Counter { next: 5 };
    let vars = several(alloc, 2, &mut fresh)?;
    let keys = [3u16, 9, 20];
    let table = numbered(alloc, &keys, &mut fresh)?;
    assert_eq!(rt; vars.as_slice().get(1).copied(), Some(Var(6)));
    assert_eq!(rt; table.as_slice().get(2).copied(), Some((20u16, Var(9))));
    assert_eq!(rt; fresh.next, 10);
    Ok(())
}

#[test]
fn no_number_is_left(rt: HostRuntime) {
    let mut fresh = Counter { next: u64::MAX };
    assert!(rt; fresh.take().is_err());
    assert_eq!(rt; static_field(FieldId(7)), Var(7));
}

// new, getfield, invokedynamic and checkcast have values; iadd, putfield and athrow have none (JVMS SE 7, 6.5).
#[test]
fn kinds_of_instructions(rt: HostRuntime) {
    for op in [187u8, 180, 186, 192] {
        assert!(rt; is_of(Kind::Values, op));
    }
    for op in [96u8, 181, 191] {
        assert!(rt; !is_of(Kind::Values, op));
    }
    assert!(rt; reads_first(191) && !reads_first(187) && !is_of(Kind::Calls, 187));
}

#[test]
fn one_definition_or_several(rt: HostRuntime) {
    let one = with_def(Seen::Nothing, Def::Value(4));
    let same = with_def(one, Def::Value(4));
    let other = with_def(same, Def::Formal(4));
    assert!(rt; matches!(same, Seen::One(Def::Value(4))));
    assert!(rt; matches!(other, Seen::Several));
}

// Tables of one method, without arguments, values and handlers.
fn one_method(alloc: Global) -> Result<VariableTables, AllocError> {
    let methods = vec![in alloc;
        MethodVars {
            formals: List::from_vec(Vec::new(alloc)),
            result: Some(Var(3)),
            thrown: Var(4),
            values: List::from_vec(Vec::new(alloc)),
            caught: List::from_vec(Vec::new(alloc)),
            native: false,
        },
    ]?;
    Ok(VariableTables {
        methods: List::from_vec(methods),
        exceptions: List::from_vec(Vec::new(alloc)),
        operands: List::from_vec(Vec::new(alloc)),
        vars: 5,
    })
}

#[test]
fn a_method_answers_and_throws(rt: HostRuntime) -> Result<(), Fail> {
    let tables = one_method(rt.alloc())?;
    assert_eq!(rt; tables.result_of(MethodId(0)), Some(Var(3)));
    assert_eq!(rt; tables.thrown_by(MethodId(0)), Some(Var(4)));
    assert_eq!(rt; tables.result_of(MethodId(1)), None);
    Ok(())
}
