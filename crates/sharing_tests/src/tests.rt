// What no clause says: that the calls succeed, that rows are open at first, and that values may cross threads.

use crate::one_method::one_method;
use crate::programs::{each_other, recursion, two_calls};
use crate::tables::{add_table, has_row, row_of, table_of};
use crate::two_threads::fill_both;
use dep_form::facts::Facts;
use graph_store::pass::GraphPass;
use graph_store::store::GraphStore;
use slicer_ids::ids::{ExitId, Mode};
use std::marker::Brand;
use std::sync::ledger::Blank;
use std::test::Fail;
use summary_memo::memo::{Memo, MemoSeat};
use summary_memo::row::How;
use tabulate::own_rows::OwnRows;

#[test]
fn two_threads_fill_a_row_each(rt: HostRuntime) -> Result<(), Fail> {
    let facts = one_method(rt.alloc())?;
    let (memo, mut seat) = Memo::new(rt.alloc(), &facts)?;
    assert!(rt; !memo.look(&mut seat, ExitId(0), Mode::Thin));
    assert!(rt; !memo.look(&mut seat, ExitId(0), Mode::Full));
    let mut seat = fill_both(&rt, &memo, seat);
    assert_eq!(rt; memo.mask(&mut seat, ExitId(0), Mode::Thin, 0), 1);
    assert!(rt; memo.look(&mut seat, ExitId(0), Mode::Full));
    Ok(())
}

fn is_shared_by_threads<T: Sync>(_value: Option<&T>) {}

fn is_sent<T: Send>(_value: Option<&T>) {}

#[test]
fn may_cross_threads() {
    is_shared_by_threads::<Facts>(None);
    is_shared_by_threads::<GraphStore>(None);
    is_shared_by_threads::<Memo>(None);
    is_sent::<GraphStore>(None);
    is_sent::<Memo>(None);
    is_sent::<MemoSeat>(None);
    is_sent::<GraphPass<'_>>(None);
}

#[test]
fn the_table_of_a_recursion(rt: HostRuntime) -> Result<(), Fail> {
    // What is answered is the constant, and no argument of an outer call.
    let facts = recursion(rt.alloc())?;
    let table = table_of::<Brand>(rt.alloc(), &facts, ExitId(0), Mode::Thin, Blank::new(1))?;
    assert_eq!(rt; table.rows.items().len(), 1);
    assert!(rt; has_row(&table, 0, 0));
    Ok(())
}

#[test]
fn the_table_of_a_method_that_is_called_twice(rt: HostRuntime) -> Result<(), Fail> {
    let facts = two_calls(rt.alloc())?;
    let table = table_of::<Brand>(rt.alloc(), &facts, ExitId(0), Mode::Full, Blank::new(1))?;
    assert_eq!(rt; table.rows.items().len(), 1);
    assert!(rt; has_row(&table, 0, 1));
    Ok(())
}

#[test]
fn the_table_of_methods_that_call_each_other(rt: HostRuntime) -> Result<(), Fail> {
    let facts = each_other(rt.alloc())?;
    let table = table_of::<Brand>(rt.alloc(), &facts, ExitId(0), Mode::Thin, Blank::new(1))?;
    assert_eq!(rt; table.rows.items().len(), 2);
    assert!(rt; has_row(&table, 0, 1));
    assert!(rt; has_row(&table, 1, 1));
    Ok(())
}

#[test]
fn a_row_to_hand_is_not_made_again(rt: HostRuntime) -> Result<(), Fail> {
    let facts = each_other(rt.alloc())?;
    let mut rows = OwnRows::new(rt.alloc(), &facts);
    let first = add_table::<Brand>(
        rt.alloc(),
        &facts,
        &mut rows,
        ExitId(1),
        Mode::Thin,
        Blank::new(1),
    )?;
    assert_eq!(rt; first, 2);
    let second = add_table::<Brand>(
        rt.alloc(),
        &facts,
        &mut rows,
        ExitId(0),
        Mode::Thin,
        Blank::new(1),
    )?;
    assert_eq!(rt; second, 1);
    Ok(())
}

#[test]
fn rows_are_made_once(rt: HostRuntime) -> Result<(), Fail> {
    let facts = each_other(rt.alloc())?;
    let (memo, mut seat) = Memo::new(rt.alloc(), &facts)?;
    let how = row_of::<Brand>(
        rt.alloc(),
        &facts,
        &memo,
        &mut seat,
        ExitId(0),
        Mode::Thin,
        Blank::new(1),
    )?;
    assert!(rt; how == How::Made);
    // The table had the row of the other exit too.
    let how = row_of::<Brand>(
        rt.alloc(),
        &facts,
        &memo,
        &mut seat,
        ExitId(1),
        Mode::Thin,
        Blank::new(1),
    )?;
    assert!(rt; how == How::Found);
    Ok(())
}
