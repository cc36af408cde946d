// What was found so far: rows of numbers, and which row each place has.
ghost use Rattle.std.specs.Prelude.{◌≡◌, ◌≢◌, ◌<◌, ◌≤◌, ◌^◌, ◌+◌, ℕ, None, false, length, OnOk, IfOk};
ghost use Rattle.points_to.specs.Bits.{IsMember, row_of};
ghost use Rattle.points_to.specs.States.{Pours, Opens, AreSorted, row_at};

use crate::marks::Marks;
use crate::place::Place;
use crate::places::{Places, set};
use crate::rows::{join_rows, join_word, pour_rows, put_rows};
use slicer_ids::ids::NoMemory;
use std::alloc::Global;

/// Rows of numbers, and which row each place has.
#[derive(Drop)]
pub struct Found {
    pub places: Places,
    pub rows: Vec<Vec<u64>>,
    pub marks: Marks,
    /// Whether a row changed in this round.
    pub changed: bool,
    /// Whether every rule is tried, or only those that read what changed lately.
    pub full: bool,
}

/// Notes that a row changed.
fn note(found: &mut Found, row: usize, changed: bool) -> Result<(), NoMemory>
    ensures places { OnOk result (found.new.places ≡ found.old.places) }
    ensures rows { OnOk result (found.new.rows ≡ found.old.rows) }
    ensures full { OnOk result (found.new.full ≡ found.old.full) }
    ensures changed { OnOk result (found.new.changed ≡ false → (found.old.changed ≡ false) × (changed ≡ false)) }
{
    if changed {
        found.changed = true;
        found.marks.note(row)?;
    }
    Ok(())
}

/// Adds bits to a row.
pub fn pour(found: &mut Found, bits: &[u64], to: usize) -> Result<(), NoMemory>
    requires to { to < length found.old.rows.items }
    requires short { length bits.now ≤ 2 ^ 26 }
    ensures { OnOk result (Pours found.old found.new to (IsMember bits.now)) }
{
    let changed = pour_rows(&mut found.rows, bits, to, &mut found.marks.places)?;
    note(found, to, changed)
}

/// Adds a number to a row.
pub fn put(found: &mut Found, to: usize, number: u32) -> Result<(), NoMemory>
    requires { to < length found.old.rows.items }
    ensures { OnOk result (Pours found.old found.new to (λ k. k ≡ number)) }
{
    let changed = put_rows(&mut found.rows, to, number)?;
    if changed {
        found.marks.touch((number / 64) as usize)?;
    }
    note(found, to, changed)
}

fn join_now(alloc: Global, found: &mut Found, from: usize, to: usize) -> Result<(), NoMemory>
    requires from { from < length found.old.rows.items }
    requires to { to < length found.old.rows.items }
    ensures { OnOk result (Pours found.old found.new to (IsMember (row_of found.old.rows.items from))) }
{
    let changed = join_rows(alloc, &mut found.rows, from, to, &mut found.marks.places)?;
    note(found, to, changed)
}

// Adds a word of a row to another row.
fn join_place(found: &mut Found, from: usize, to: usize, place: usize) -> Result<(), NoMemory>
    requires from { from < length found.old.rows.items }
    requires to { to < length found.old.rows.items }
    requires partly { found.old.full ≡ false }
    ensures pours { OnOk result (Pours found.old found.new to (IsMember (row_of found.old.rows.items from))) }
    ensures partly { OnOk result (found.new.full ≡ false) }
{
    let changed = join_word(&mut found.rows, from, to, place)?;
    if changed {
        found.marks.touch(place)?;
    }
    note(found, to, changed)
}

// Adds the words of a row that changed lately to another row.
fn join_places(found: &mut Found, from: usize, to: usize) -> Result<(), NoMemory>
    requires from { from < length found.old.rows.items }
    requires to { to < length found.old.rows.items }
    requires other { from ≢ to }
    requires partly { found.old.full ≡ false }
    ensures { OnOk result (Pours found.old found.new to (IsMember (row_of found.old.rows.items from))) }
{
    for number in 0..found.marks.count(from) {
        let place = found.marks.place(from, number);
        join_place(found, from, to, place)?;
    }
    Ok(())
}

fn join_lately(found: &mut Found, from: usize, to: usize) -> Result<(), NoMemory>
    requires from { from < length found.old.rows.items }
    requires to { to < length found.old.rows.items }
    requires partly { found.old.full ≡ false }
    ensures { OnOk result (Pours found.old found.new to (IsMember (row_of found.old.rows.items from))) }
{
    if from == to {
        Ok(())
    } else {
        join_places(found, from, to)
    }
}

/// Adds a row to another. Where not every rule is tried it may be left out, unless the row changed lately or it is forced; where few words
/// changed, these alone are added.
pub fn join(
    alloc: Global,
    found: &mut Found,
    from: usize,
    to: usize,
    force: bool,
) -> Result<(), NoMemory>
    requires from { from < length found.old.rows.items }
    requires to { to < length found.old.rows.items }
    ensures { OnOk result (Pours found.old found.new to (IsMember (row_of found.old.rows.items from))) }
{
    let recent = found.marks.is_recent(from);
    let few = found.marks.count(from) < found.rows[from].len() / 16;
    if found.full {
        join_now(alloc, found, from, to)
    } else if force {
        join_now(alloc, found, from, to)
    } else if recent && few {
        join_lately(found, from, to)
    } else if recent {
        join_now(alloc, found, from, to)
    } else {
        Ok(())
    }
}

fn add_row(alloc: Global, found: &mut Found) -> Result<(), NoMemory>
    ensures places { OnOk result (found.new.places ≡ found.old.places) }
    ensures len { OnOk result (length found.new.rows.items ≡ length found.old.rows.items + 1) }
    ensures rows { OnOk result ((r : ℕ) → row_of found.new.rows.items r ≡ row_of found.old.rows.items r) }
    ensures full { OnOk result (found.new.full ≡ found.old.full) }
    ensures changed { OnOk result (found.new.changed ≡ found.old.changed) }
{
    found.rows.push(Vec::new(alloc))?;
    found.marks.add(alloc)?;
    Ok(())
}

/// Gives a place a row.
pub fn open(alloc: Global, found: &mut Found, place: Place) -> Result<usize, NoMemory>
    requires sorted { AreSorted found.old.places.cells.items }
    requires fresh { row_at found.old place ≡ None }
    ensures { IfOk result (λ row. Opens found.old found.new place row) }
{
    let row = found.rows.len();
    set(alloc, &mut found.places, place, row)?;
    add_row(alloc, found)?;
    Ok(row)
}
