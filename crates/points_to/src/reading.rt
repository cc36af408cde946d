// The solution, read from what was found.
ghost use Rattle.std.specs.Prelude.{◌≡◌, ◌<◌, ◌^◌, ◌+◌, ℕ, [], AllPairs, IfOk, OnOk, length, slice_index_or};
ghost use Rattle.slicer_ids.specs.declared.ids.MethodId.{MethodId};
ghost use Rattle.slicer_ids.specs.declared.ids.SiteId.{SiteId};
ghost use Rattle.slicer_ids.specs.Sets.{IsOrderedListOf};
ghost use Rattle.dep_form.specs.Solutions.{IsSolutionOf, ReceiverBefore};
ghost use Rattle.points_to.specs.declared.place.Place.TheVariants.{Cell};
ghost use Rattle.points_to.specs.Indexes.{IsSmall};
ghost use Rattle.points_to.specs.Items.{At};
ghost use Rattle.points_to.specs.Solved.{AreCells, AreCellsUpTo, AreReceiversOf, AreSitesOf, AreTargetsOf, IsReachedAt, IsReceiverUpTo, IsTableOf};
ghost use Rattle.points_to.specs.States.{IsExact, IsShape, Knows, slots_in};

use crate::found::Found;
use crate::place::Place;
use crate::places::Slot;
use crate::steps::{knows, list};
use dep_form::rules::Var;
use dep_form::solution::Solution;
use dep_form::system::System;
use slicer_ids::ids::{CallId, FieldId, MethodId, NoMemory, SiteId};
use slicer_ids::list::List;
use std::alloc::Global;

fn as_sites(alloc: Global, numbers: &[u32]) -> Result<Vec<SiteId>, NoMemory>
    ensures len { IfOk result (λ sites. length sites.items ≡ length numbers.now) }
    ensures each { IfOk result (λ sites. (k : ℕ) (d : SiteId) → k < length numbers.now → (slice_index_or sites.items k d).0 ≡ slice_index_or numbers.now k d.0) }
{
    let mut sites = Vec::new(alloc);
    for number in numbers {
        sites.push(SiteId(*number))?;
    }
    Ok(sites)
}

fn sites_of(alloc: Global, found: &Found, v: Var) -> Result<List<SiteId>, NoMemory>
    requires { IsShape found.now }
    ensures { IfOk result (λ hs. AreSitesOf found.now v.0 hs) }
{
    let numbers = list(alloc, found, Place::Variable(v))?;
    let sites = as_sites(alloc, numbers.as_slice())?;
    Ok(List::from_vec(sites))
}

// What each variable may be.
fn all_sites(alloc: Global, found: &Found, vars: u64) -> Result<Vec<List<SiteId>>, NoMemory>
    requires { IsShape found.now }
    ensures len { IfOk result (λ all. length all.items ≡ vars) }
    ensures each { IfOk result (λ all. IsTableOf (AreSitesOf found.now) all.items) }
{
    let mut all = Vec::new(alloc);
    for v in 0..vars {
        let sites = sites_of(alloc, found, Var(v))?;
        all.push(sites)?;
    }
    Ok(all)
}

fn as_methods(alloc: Global, numbers: &[u32]) -> Result<Vec<MethodId>, NoMemory>
    ensures len { IfOk result (λ methods. length methods.items ≡ length numbers.now) }
    ensures each { IfOk result (λ methods. (k : ℕ) (d : MethodId) → k < length numbers.now → (slice_index_or methods.items k d).0 ≡ slice_index_or numbers.now k d.0) }
{
    let mut methods = Vec::new(alloc);
    for number in numbers {
        methods.push(MethodId(*number))?;
    }
    Ok(methods)
}

fn targets_of(alloc: Global, found: &Found, c: CallId) -> Result<List<MethodId>, NoMemory>
    requires { IsShape found.now }
    ensures { IfOk result (λ ms. AreTargetsOf found.now c.0 ms) }
{
    let numbers = list(alloc, found, Place::Targets(c))?;
    let methods = as_methods(alloc, numbers.as_slice())?;
    Ok(List::from_vec(methods))
}

// Where each call may go in the folder.
fn all_targets(alloc: Global, found: &Found, calls: usize) -> Result<Vec<List<MethodId>>, NoMemory>
    requires shape { IsShape found.now }
    requires few { calls < 2 ^ 32 }
    ensures len { IfOk result (λ all. length all.items ≡ calls) }
    ensures each { IfOk result (λ all. IsTableOf (AreTargetsOf found.now) all.items) }
{
    let mut all = Vec::new(alloc);
    for c in 0..calls {
        let targets = targets_of(alloc, found, CallId(c as u32))?;
        all.push(targets)?;
    }
    Ok(all)
}

fn first_receiver(alloc: Global, alone: bool) -> Result<Vec<Option<SiteId>>, NoMemory>
    ensures { IfOk result (λ all. IsOrderedListOf ReceiverBefore all.items (IsReceiverUpTo alone [])) }
{
    let mut all = Vec::new(alloc);
    if alone {
        all.push(None)?;
        Ok(all)
    } else {
        Ok(all)
    }
}

fn as_receivers(
    alloc: Global,
    alone: bool,
    numbers: &[u32],
) -> Result<Vec<Option<SiteId>>, NoMemory>
    requires { AllPairs (λ a b. a < b) numbers.now }
    ensures { IfOk result (λ all. IsOrderedListOf ReceiverBefore all.items (IsReceiverUpTo alone numbers.now)) }
{
    let mut all = first_receiver(alloc, alone)?;
    for number in numbers {
        all.push(Some(SiteId(*number)))?;
    }
    Ok(all)
}

fn receivers_of(alloc: Global, found: &Found, c: CallId) -> Result<List<Option<SiteId>>, NoMemory>
    requires { IsShape found.now }
    ensures { IfOk result (λ os. AreReceiversOf found.now c.0 os) }
{
    let numbers = list(alloc, found, Place::Receivers(c))?;
    let alone = knows(found, Place::Static(c), 0);
    let receivers = as_receivers(alloc, alone, numbers.as_slice())?;
    Ok(List::from_vec(receivers))
}

// With which receivers each call may go outside.
fn all_receivers(
    alloc: Global,
    found: &Found,
    calls: usize,
) -> Result<Vec<List<Option<SiteId>>>, NoMemory>
    requires shape { IsShape found.now }
    requires few { calls < 2 ^ 32 }
    ensures len { IfOk result (λ all. length all.items ≡ calls) }
    ensures each { IfOk result (λ all. IsTableOf (AreReceiversOf found.now) all.items) }
{
    let mut all = Vec::new(alloc);
    for c in 0..calls {
        let receivers = receivers_of(alloc, found, CallId(c as u32))?;
        all.push(receivers)?;
    }
    Ok(all)
}

// Which methods may run.
fn all_reached(alloc: Global, found: &Found, methods: usize) -> Result<Vec<bool>, NoMemory>
    requires shape { IsShape found.now }
    requires few { methods < 2 ^ 32 }
    ensures len { IfOk result (λ all. length all.items ≡ methods) }
    ensures each { IfOk result (λ all. IsTableOf (IsReachedAt found.now) all.items) }
{
    let mut all = Vec::new(alloc);
    for m in 0..methods {
        let reached = knows(found, Place::Running, m as u32);
        all.push(reached)?;
    }
    Ok(all)
}

fn add_cells(
    found: &Found,
    object: SiteId,
    field: FieldId,
    numbers: &[u32],
    cells: &mut Vec<(SiteId, FieldId, SiteId)>,
) -> Result<(), NoMemory>
    requires numbers { IsOrderedListOf (λ a b. a < b) numbers.now (λ n. Knows found.now (At (Cell object field) n)) }
    requires before { AreCellsUpTo found.now object.0 field.0 cells.old.items }
    ensures { OnOk result (AreCellsUpTo found.now object.0 (field.0 + 1) cells.new.items) }
{
    for number in numbers {
        cells.push((object, field, SiteId(*number)))?;
    }
    Ok(())
}

fn add_field(
    alloc: Global,
    found: &Found,
    object: SiteId,
    field: FieldId,
    cells: &mut Vec<(SiteId, FieldId, SiteId)>,
) -> Result<(), NoMemory>
    requires shape { IsShape found.now }
    requires before { AreCellsUpTo found.now object.0 field.0 cells.old.items }
    ensures { OnOk result (AreCellsUpTo found.now object.0 (field.0 + 1) cells.new.items) }
{
    let numbers = list(alloc, found, Place::Cell(object, field))?;
    add_cells(found, object, field, numbers.as_slice(), cells)
}

fn add_slots(
    alloc: Global,
    found: &Found,
    object: SiteId,
    slots: &[Slot],
    cells: &mut Vec<(SiteId, FieldId, SiteId)>,
) -> Result<(), NoMemory>
    requires shape { IsShape found.now }
    requires slots { slots.now ≡ slots_in found.now.places.cells.items object.0 }
    requires before { AreCellsUpTo found.now object.0 0 cells.old.items }
    ensures { OnOk result (AreCellsUpTo found.now (object.0 + 1) 0 cells.new.items) }
{
    for slot in slots {
        add_field(alloc, found, object, slot.field, cells)?;
    }
    Ok(())
}

fn add_site(
    alloc: Global,
    found: &Found,
    object: SiteId,
    cells: &mut Vec<(SiteId, FieldId, SiteId)>,
) -> Result<(), NoMemory>
    requires shape { IsShape found.now }
    requires within { object.0 < length found.now.places.cells.items }
    requires before { AreCellsUpTo found.now object.0 0 cells.old.items }
    ensures { OnOk result (AreCellsUpTo found.now (object.0 + 1) 0 cells.new.items) }
{
    let slots = found.places.cells[object.0 as usize].as_slice();
    add_slots(alloc, found, object, slots, cells)
}

// What each field of each site may be.
fn all_cells(alloc: Global, found: &Found) -> Result<Vec<(SiteId, FieldId, SiteId)>, NoMemory>
    requires { IsShape found.now }
    ensures { IfOk result (λ cells. AreCells found.now cells.items) }
{
    let mut cells = Vec::new(alloc);
    for object in 0..found.places.cells.len() {
        add_site(alloc, found, SiteId(object as u32), &mut cells)?;
    }
    Ok(cells)
}

fn as_solution(
    sites: Vec<List<SiteId>>,
    targets: Vec<List<MethodId>>,
    outside: Vec<List<Option<SiteId>>>,
    cells: Vec<(SiteId, FieldId, SiteId)>,
    reached: Vec<bool>,
) -> Solution
    ensures sites { result.sites ≡ sites.items }
    ensures targets { result.targets ≡ targets.items }
    ensures outside { result.outside ≡ outside.items }
    ensures cells { result.cells ≡ cells.items }
    ensures reached { result.reached ≡ reached.items }
{
    Solution {
        sites: List::from_vec(sites),
        targets: List::from_vec(targets),
        outside: List::from_vec(outside),
        cells: List::from_vec(cells),
        reached: List::from_vec(reached),
    }
}

/// The solution that was found.
pub fn read(alloc: Global, system: &System, found: &Found) -> Result<Solution, NoMemory>
    requires small { IsSmall system.now }
    requires shape { IsShape found.now }
    requires exact { IsExact system.now found.now }
    ensures { IfOk result (λ sol. IsSolutionOf system.now sol) }
{
    let calls = system.calls.items().len();
    let methods = system.methods.items().len();
    let sites = all_sites(alloc, found, system.vars)?;
    let targets = all_targets(alloc, found, calls)?;
    let outside = all_receivers(alloc, found, calls)?;
    let cells = all_cells(alloc, found)?;
    let reached = all_reached(alloc, found, methods)?;
    Ok(as_solution(sites, targets, outside, cells, reached))
}
