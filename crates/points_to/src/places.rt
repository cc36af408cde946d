// Which row each place has.
ghost use Rattle.std.specs.Prelude.{◌≡◌, ◌<◌, ◌≤◌, ◌^◌, ℕ, None, Some, AllPairs, OnOk, length, if◌then◌else◌, nat_eq, slice_index_or};
ghost use Rattle.points_to.specs.declared.place.Place.TheVariants.{Variable, Cell, Targets, Receivers, Static, Written, Running};
ghost use Rattle.points_to.specs.States.{SetsPlace, SetsRow, SetsSlot, AddsSlot, AreSorted, find_slot, row_in, slots_in};

use crate::place::Place;
use dep_form::rules::Var;
use slicer_ids::ids::{CallId, FieldId, NoMemory, SiteId};
use std::alloc::Global;

/// The row of a field of a site.
#[derive(Clone, Copy)]
pub struct Slot {
    pub field: FieldId,
    pub row: usize,
}

/// The rows of places, made on demand: by variable, by site and then in the order of fields, by call.
#[derive(Drop)]
pub struct Places {
    pub variables: Vec<Option<usize>>,
    pub cells: Vec<Vec<Slot>>,
    pub targets: Vec<Option<usize>>,
    pub receivers: Vec<Option<usize>>,
    pub statics: Vec<Option<usize>>,
    pub written: Vec<Option<usize>>,
    pub running: Option<usize>,
}

fn row_by(rows: &[Option<usize>], number: usize) -> Option<usize>
    ensures { result ≡ slice_index_or rows.now number None }
{
    if number < rows.len() {
        rows[number]
    } else {
        None
    }
}

// Where a field stands among slots in the order of their fields, or would stand.
fn place_for(slots: &[Slot], field: FieldId) -> usize
    requires { AllPairs (λ (a b : Slot). a.field.0 < b.field.0) slots.now }
    ensures bound { result ≤ length slots.now }
    ensures before { (k : ℕ) (d : Slot) → k < result → (slice_index_or slots.now k d).field.0 < field.0 }
    ensures after { (k : ℕ) (d : Slot) → result ≤ k → k < length slots.now → field.0 ≤ (slice_index_or slots.now k d).field.0 }
{
    slots.partition_point(|slot| slot.field.0 < field.0)
}

fn row_if(slot: Slot, field: FieldId) -> Option<usize>
    ensures { result ≡ (if nat_eq slot.field.0 field.0 then Some slot.row else None) }
{
    if slot.field.0 == field.0 {
        Some(slot.row)
    } else {
        None
    }
}

fn find(slots: &[Slot], field: FieldId) -> Option<usize>
    requires { AllPairs (λ (a b : Slot). a.field.0 < b.field.0) slots.now }
    ensures { result ≡ find_slot slots.now field }
{
    let at = place_for(slots, field);
    match slots.get(at) {
        Some(slot) => row_if(*slot, field),
        None => None,
    }
}

fn cell_row(cells: &[Vec<Slot>], site: SiteId, field: FieldId) -> Option<usize>
    requires { AreSorted cells.now }
    ensures { result ≡ find_slot (slots_in cells.now site.0) field }
{
    let number = site.0 as usize;
    if number < cells.len() {
        find(cells[number].as_slice(), field)
    } else {
        None
    }
}

/// The row of a place, if it has one.
pub fn lookup(places: &Places, place: Place) -> Option<usize>
    requires { AreSorted places.now.cells.items }
    ensures { result ≡ row_in places.now place }
{
    match place {
        Place::Variable(v) => row_by(places.variables.as_slice(), v.0 as usize),
        Place::Cell(site, field) => cell_row(places.cells.as_slice(), site, field),
        Place::Targets(c) => row_by(places.targets.as_slice(), c.0 as usize),
        Place::Receivers(c) => row_by(places.receivers.as_slice(), c.0 as usize),
        Place::Static(c) => row_by(places.statics.as_slice(), c.0 as usize),
        Place::Written(c) => row_by(places.written.as_slice(), c.0 as usize),
        Place::Running => places.running,
    }
}

fn set_row(rows: &mut Vec<Option<usize>>, number: usize, row: usize) -> Result<(), NoMemory>
    ensures { OnOk result (SetsRow rows.old.items rows.new.items number row) }
{
    widen_rows(rows, number)?;
    rows[number] = Some(row);
    Ok(())
}

fn widen_rows(rows: &mut Vec<Option<usize>>, number: usize) -> Result<(), NoMemory>
    ensures same { OnOk result ((k : ℕ) → slice_index_or rows.new.items k None ≡ slice_index_or rows.old.items k None) }
    ensures len { OnOk result (number < length rows.new.items) }
{
    while rows.len() <= number {
        rows.push(None)?;
    }
    Ok(())
}

fn widen_cells(alloc: Global, cells: &mut Vec<Vec<Slot>>, site: usize) -> Result<(), NoMemory>
    ensures same { OnOk result ((o : ℕ) → slots_in cells.new.items o ≡ slots_in cells.old.items o) }
    ensures len { OnOk result (site < length cells.new.items) }
    ensures few { OnOk result (site < 2 ^ 32 → length cells.old.items ≤ 2 ^ 32 → length cells.new.items ≤ 2 ^ 32) }
{
    while cells.len() <= site {
        cells.push(Vec::new(alloc))?;
    }
    Ok(())
}

fn add_slot(slots: &mut Vec<Slot>, slot: Slot) -> Result<(), NoMemory>
    requires sorted { AllPairs (λ (a b : Slot). a.field.0 < b.field.0) slots.old.items }
    requires fresh { find_slot slots.old.items slot.field ≡ None }
    ensures { OnOk result (AddsSlot slots.old.items slots.new.items slot) }
{
    let at = place_for(slots.as_slice(), slot.field);
    slots.insert(at, slot)?;
    Ok(())
}

fn set_slot(
    alloc: Global,
    cells: &mut Vec<Vec<Slot>>,
    site: SiteId,
    slot: Slot,
) -> Result<(), NoMemory>
    requires sorted { AreSorted cells.old.items }
    requires fresh { find_slot (slots_in cells.old.items site.0) slot.field ≡ None }
    ensures { OnOk result (SetsSlot cells.old.items cells.new.items site.0 slot) }
{
    let number = site.0 as usize;
    widen_cells(alloc, cells, number)?;
    add_slot(&mut cells[number], slot)?;
    Ok(())
}

fn set_variable(places: &mut Places, v: Var, row: usize) -> Result<(), NoMemory>
    ensures { OnOk result (SetsPlace places.old places.new (Variable v) row) }
{
    set_row(&mut places.variables, v.0 as usize, row)
}

fn set_cell(
    alloc: Global,
    places: &mut Places,
    site: SiteId,
    field: FieldId,
    row: usize,
) -> Result<(), NoMemory>
    requires sorted { AreSorted places.old.cells.items }
    requires fresh { row_in places.old (Cell site field) ≡ None }
    ensures { OnOk result (SetsPlace places.old places.new (Cell site field) row) }
{
    set_slot(alloc, &mut places.cells, site, Slot { field, row })
}

fn set_targets(places: &mut Places, c: CallId, row: usize) -> Result<(), NoMemory>
    ensures { OnOk result (SetsPlace places.old places.new (Targets c) row) }
{
    set_row(&mut places.targets, c.0 as usize, row)
}

fn set_receivers(places: &mut Places, c: CallId, row: usize) -> Result<(), NoMemory>
    ensures { OnOk result (SetsPlace places.old places.new (Receivers c) row) }
{
    set_row(&mut places.receivers, c.0 as usize, row)
}

fn set_static(places: &mut Places, c: CallId, row: usize) -> Result<(), NoMemory>
    ensures { OnOk result (SetsPlace places.old places.new (Static c) row) }
{
    set_row(&mut places.statics, c.0 as usize, row)
}

fn set_written(places: &mut Places, c: CallId, row: usize) -> Result<(), NoMemory>
    ensures { OnOk result (SetsPlace places.old places.new (Written c) row) }
{
    set_row(&mut places.written, c.0 as usize, row)
}

fn set_running(places: &mut Places, row: usize)
    ensures { SetsPlace places.old places.new Running row }
{
    places.running = Some(row);
}

/// Gives a place without a row this one.
pub fn set(alloc: Global, places: &mut Places, place: Place, row: usize) -> Result<(), NoMemory>
    requires sorted { AreSorted places.old.cells.items }
    requires fresh { row_in places.old place ≡ None }
    ensures { OnOk result (SetsPlace places.old places.new place row) }
{
    match place {
        Place::Variable(v) => set_variable(places, v, row),
        Place::Cell(site, field) => set_cell(alloc, places, site, field, row),
        Place::Targets(c) => set_targets(places, c, row),
        Place::Receivers(c) => set_receivers(places, c, row),
        Place::Static(c) => set_static(places, c, row),
        Place::Written(c) => set_written(places, c, row),
        Place::Running => {
            set_running(places, row);
            Ok(())
        }
    }
}
