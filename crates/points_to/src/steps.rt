// Steps over places: a number is given, what a place has flows to another.
ghost use Rattle.std.specs.Prelude.{◌≡◌, ◌⊎◌, ◌<◌, ◌≤◌, ◌^◌, ◌↔◌, ℕ, None, Some, true, IsTrue, length, OnOk, IfOk};
ghost use Rattle.slicer_ids.specs.Sets.{IsOrderedListOf};
ghost use Rattle.dep_form.specs.declared.system.System.{System};
ghost use Rattle.points_to.specs.Bits.{IsMember, row_of};
ghost use Rattle.points_to.specs.Items.{At, Nothing, Adds, Flows, Filters};
ghost use Rattle.points_to.specs.States.{Pours, Moves, IsShape, Knows, HasSome, row_at};

use crate::found::{Found, join, open, pour, put};
use crate::place::Place;
use crate::places::lookup;
use crate::row::{has, meet, members};
use slicer_ids::ids::NoMemory;
use std::alloc::Global;

// The row of a place, made if it has none.
fn row_for(alloc: Global, found: &mut Found, place: Place) -> Result<usize, NoMemory>
    requires { IsShape found.old }
    ensures shape { OnOk result (IsShape found.new) }
    ensures is { IfOk result (λ row. row_at found.new place ≡ Some row) }
    ensures moved { OnOk result ((s : System) → Moves s found.old found.new Nothing) }
{
    match lookup(&found.places, place) {
        Some(row) => Ok(row),
        None => open(alloc, found, place),
    }
}

/// Adds a number to a place.
pub fn give(alloc: Global, found: &mut Found, place: Place, number: u32) -> Result<(), NoMemory>
    requires { IsShape found.old }
    ensures shape { OnOk result (IsShape found.new) }
    ensures moved { OnOk result ((s : System) → Moves s found.old found.new (Adds place number)) }
{
    let row = row_for(alloc, found, place)?;
    put(found, row, number)
}

fn flow_to(
    alloc: Global,
    found: &mut Found,
    from: Place,
    to: Place,
    row: usize,
    force: bool,
) -> Result<(), NoMemory>
    requires shape { IsShape found.old }
    requires to { row_at found.old to ≡ Some row }
    ensures shape { OnOk result (IsShape found.new) }
    ensures moved { OnOk result ((s : System) → Moves s found.old found.new (Flows from to)) }
{
    match lookup(&found.places, from) {
        None => Ok(()),
        Some(first) => join(alloc, found, first, row, force),
    }
}

fn flow_on(
    alloc: Global,
    found: &mut Found,
    from: Place,
    to: Place,
    force: bool,
) -> Result<(), NoMemory>
    requires { IsShape found.old }
    ensures shape { OnOk result (IsShape found.new) }
    ensures moved { OnOk result ((s : System) → Moves s found.old found.new (Flows from to)) }
{
    let row = row_for(alloc, found, to)?;
    flow_to(alloc, found, from, to, row, force)
}

/// Adds what a place has to another. Where not every rule is tried it may be left out, unless the place changed lately or it
/// is forced.
pub fn flow(
    alloc: Global,
    found: &mut Found,
    from: Place,
    to: Place,
    force: bool,
) -> Result<(), NoMemory>
    requires { IsShape found.old }
    ensures shape { OnOk result (IsShape found.new) }
    ensures moved { OnOk result ((s : System) → Moves s found.old found.new (Flows from to)) }
{
    match lookup(&found.places, from) {
        None => Ok(()),
        Some(_) => flow_on(alloc, found, from, to, force),
    }
}

fn pass_rows(
    alloc: Global,
    found: &mut Found,
    mask: &[u64],
    from: usize,
    to: usize,
) -> Result<(), NoMemory>
    requires shape { IsShape found.old }
    requires from { from < length found.old.rows.items }
    requires to { to < length found.old.rows.items }
    ensures { OnOk result (Pours found.old found.new to (λ k. IsMember (row_of found.old.rows.items from) k × IsMember mask.now k)) }
{
    let kept = meet(alloc, found.rows[from].as_slice(), mask)?;
    pour(found, kept.as_slice(), to)
}

fn pass_to(
    alloc: Global,
    found: &mut Found,
    mask: &[u64],
    from: Place,
    to: Place,
    row: usize,
) -> Result<(), NoMemory>
    requires shape { IsShape found.old }
    requires to { row_at found.old to ≡ Some row }
    ensures shape { OnOk result (IsShape found.new) }
    ensures moved { OnOk result ((s : System) → Moves s found.old found.new (Filters (IsMember mask.now) from to)) }
{
    match lookup(&found.places, from) {
        None => Ok(()),
        Some(first) => pass_rows(alloc, found, mask, first, row),
    }
}

/// Adds what a place has, and the mask has too, to another.
pub fn pass(
    alloc: Global,
    found: &mut Found,
    mask: &[u64],
    from: Place,
    to: Place,
) -> Result<(), NoMemory>
    requires { IsShape found.old }
    ensures shape { OnOk result (IsShape found.new) }
    ensures moved { OnOk result ((s : System) → Moves s found.old found.new (Filters (IsMember mask.now) from to)) }
{
    let row = row_for(alloc, found, to)?;
    pass_to(alloc, found, mask, from, to, row)
}

fn list_row(alloc: Global, found: &Found, row: usize) -> Result<Vec<u32>, NoMemory>
    requires shape { IsShape found.now }
    requires row { row < length found.now.rows.items }
    ensures { IfOk result (λ v. IsOrderedListOf (λ a b. a < b) v.items (IsMember (row_of found.now.rows.items row))) }
{
    members(alloc, found.rows[row].as_slice())
}

/// The numbers of a place, in order.
pub fn list(alloc: Global, found: &Found, place: Place) -> Result<Vec<u32>, NoMemory>
    requires { IsShape found.now }
    ensures { IfOk result (λ v. IsOrderedListOf (λ a b. a < b) v.items (λ n. Knows found.now (At place n))) }
{
    match lookup(&found.places, place) {
        None => Ok(Vec::new(alloc)),
        Some(row) => list_row(alloc, found, row),
    }
}

/// Whether a place has a number.
pub fn knows(found: &Found, place: Place, number: u32) -> bool
    requires { IsShape found.now }
    ensures { IsTrue result ↔ Knows found.now (At place number) }
{
    match lookup(&found.places, place) {
        None => false,
        Some(row) => has(found.rows[row].as_slice(), number),
    }
}

/// Whether a place has some number.
pub fn has_some(alloc: Global, found: &Found, place: Place) -> Result<bool, NoMemory>
    requires { IsShape found.now }
    ensures { IfOk result (λ b. (b ≡ true) ↔ HasSome found.now place) }
{
    let numbers = list(alloc, found, place)?;
    Ok(numbers.len() > 0)
}

/// Whether a place changed in this round or in the one before.
pub fn is_recent(found: &Found, place: Place) -> bool
    requires { IsShape found.now }
{
    match lookup(&found.places, place) {
        None => false,
        Some(row) => found.marks.is_recent(row),
    }
}

/// Whether a place got its first number in this round or in the one before.
pub fn is_first(found: &Found, place: Place) -> bool
    requires { IsShape found.now }
{
    match lookup(&found.places, place) {
        None => false,
        Some(row) => found.marks.is_first(row),
    }
}

/// Whether a place got a number in this round or in the one before, if it has it.
pub fn is_new(found: &Found, place: Place, number: u32) -> bool
    requires { IsShape found.now }
{
    match lookup(&found.places, place) {
        None => false,
        Some(row) => !found.marks.had(row, number),
    }
}
