// A table of rows of bits.
ghost use Rattle.std.specs.Prelude.{◌≡◌, ◌≢◌, ◌<◌, ◌≤◌, ◌^◌, length, IfOk, OnOk};
ghost use Rattle.points_to.specs.Bits.{IsMember, RowsAdd, RowsTake, row_of};

use crate::row::{add, add_word, union};
use slicer_ids::ids::NoMemory;
use std::alloc::Global;
use std::mem;

/// Adds the members of a row to one of the table, and says whether one of them was new.
pub fn pour_rows(
    rows: &mut Vec<Vec<u64>>,
    bits: &[u64],
    to: usize,
    touched: &mut Vec<usize>,
) -> Result<bool, NoMemory>
    requires to { to < length rows.old.items }
    requires short { length bits.now ≤ 2 ^ 26 }
    ensures { IfOk result (λ changed. RowsAdd rows.old.items rows.new.items to (IsMember bits.now) changed) }
{
    let changed = union(&mut rows[to], bits, touched)?;
    Ok(changed)
}

/// Adds a number to a row of the table, and says whether it was new.
pub fn put_rows(rows: &mut Vec<Vec<u64>>, to: usize, number: u32) -> Result<bool, NoMemory>
    requires { to < length rows.old.items }
    ensures { IfOk result (λ changed. RowsAdd rows.old.items rows.new.items to (λ k. k ≡ number) changed) }
{
    let changed = add(&mut rows[to], number)?;
    Ok(changed)
}

fn join_other(
    alloc: Global,
    rows: &mut Vec<Vec<u64>>,
    from: usize,
    to: usize,
    touched: &mut Vec<usize>,
) -> Result<bool, NoMemory>
    requires from { from < length rows.old.items }
    requires to { to < length rows.old.items }
    requires other { from ≢ to }
    ensures { IfOk result (λ changed. RowsAdd rows.old.items rows.new.items to (IsMember (row_of rows.old.items from)) changed) }
{
    let mut target = mem::replace(&mut rows[to], Vec::new(alloc));
    let changed = union(&mut target, rows[from].as_slice(), touched)?;
    rows[to] = target;
    Ok(changed)
}

/// Adds the members of one row of the table to another, or to itself, and says whether one of them was new.
pub fn join_rows(
    alloc: Global,
    rows: &mut Vec<Vec<u64>>,
    from: usize,
    to: usize,
    touched: &mut Vec<usize>,
) -> Result<bool, NoMemory>
    requires from { from < length rows.old.items }
    requires to { to < length rows.old.items }
    ensures { IfOk result (λ changed. RowsAdd rows.old.items rows.new.items to (IsMember (row_of rows.old.items from)) changed) }
{
    if from == to {
        Ok(false)
    } else {
        join_other(alloc, rows, from, to, touched)
    }
}

/// Adds a word of one row of the table to another, and says whether one of its bits was new.
pub fn join_word(
    rows: &mut Vec<Vec<u64>>,
    from: usize,
    to: usize,
    place: usize,
) -> Result<bool, NoMemory>
    requires from { from < length rows.old.items }
    requires to { to < length rows.old.items }
    ensures { OnOk result (RowsTake rows.old.items rows.new.items from to) }
{
    if place < rows[from].len() {
        let bits = rows[from][place];
        let changed = add_word(&mut rows[to], place, bits)?;
        Ok(changed)
    } else {
        Ok(false)
    }
}
