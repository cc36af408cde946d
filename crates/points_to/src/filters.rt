// Which sites a filter by a class passes.
ghost use Rattle.std.specs.Prelude.{◌≡◌, ◌⊎◌, ◌↔◌, ◌<◌, ◌≤◌, ◌^◌, ◌+◌, ℕ, true, IsTrue, IfOk, OnOk, Some, length, slice_get};
ghost use Rattle.dep_form.specs.declared.system.System.{System};
ghost use Rattle.points_to.specs.Bits.{IsMember, row_of};
ghost use Rattle.points_to.specs.Indexes.{AreBelow, AreMasks, IsKept, IsMask, IsMaskBelow};

use crate::row::{add, has};
use crate::rows::put_rows;
use dep_form::rules::{Constraint, Rule, SiteInfo};
use dep_form::system::System;
use slicer_ids::ids::{ClassId, NoMemory};
use std::alloc::Global;

fn widen(alloc: Global, rows: &mut Vec<Vec<u64>>, number: usize) -> Result<(), NoMemory>
    ensures same { OnOk result ((c : ℕ) → row_of rows.new.items c ≡ row_of rows.old.items c) }
    ensures len { OnOk result (number < length rows.new.items) }
{
    while rows.len() <= number {
        rows.push(Vec::new(alloc))?;
    }
    Ok(())
}

fn add_below(
    alloc: Global,
    rows: &mut Vec<Vec<u64>>,
    below: ClassId,
    above: ClassId,
) -> Result<(), NoMemory>
    ensures { OnOk result ((c d : ℕ) → IsMember (row_of rows.new.items c) d ↔ (IsMember (row_of rows.old.items c) d ⊎ ((c ≡ above.0) × (d ≡ below.0)))) }
{
    let number = above.0 as usize;
    widen(alloc, rows, number)?;
    put_rows(rows, number, below.0)?;
    Ok(())
}

/// By class, the row of its subclasses.
pub fn below(alloc: Global, subclasses: &[(ClassId, ClassId)]) -> Result<Vec<Vec<u64>>, NoMemory>
    ensures { IfOk result (λ rows. AreBelow subclasses.now rows.items) }
{
    let mut rows = Vec::new(alloc);
    for pair in subclasses {
        add_below(alloc, &mut rows, pair.0, pair.1)?;
    }
    Ok(rows)
}

fn has_below(below: &[Vec<u64>], class: ClassId, keep: ClassId) -> bool
    ensures { IsTrue result ↔ IsMember (row_of below.now keep.0) class.0 }
{
    let number = keep.0 as usize;
    if number < below.len() {
        has(below[number].as_slice(), class.0)
    } else {
        false
    }
}

fn is_kept(below: &[Vec<u64>], info: SiteInfo, keep: ClassId) -> bool
    ensures { IsTrue result ↔ IsKept below.now info keep }
{
    if info.array {
        false
    } else {
        match info.class {
            None => true,
            Some(class) => has_below(below, class, keep),
        }
    }
}

fn add_if(row: &mut Vec<u64>, kept: bool, number: u32) -> Result<(), NoMemory>
    ensures { OnOk result ((n : ℕ) → IsMember row.new.items n ↔ (IsMember row.old.items n ⊎ ((kept ≡ true) × (n ≡ number)))) }
{
    if kept {
        add(row, number)?;
        Ok(())
    } else {
        Ok(())
    }
}

fn add_known(
    system: &System,
    below: &[Vec<u64>],
    keep: ClassId,
    number: u32,
    info: SiteInfo,
    row: &mut Vec<u64>,
) -> Result<(), NoMemory>
    requires below { AreBelow system.now.subclasses below.now }
    requires site { slice_get system.now.sites number ≡ Some info }
    requires before { IsMaskBelow system.now keep number row.old.items }
    ensures { OnOk result (IsMaskBelow system.now keep (number + 1) row.new.items) }
{
    let kept = is_kept(below, info, keep);
    add_if(row, kept, number)
}

fn add_site(
    system: &System,
    below: &[Vec<u64>],
    keep: ClassId,
    number: u32,
    row: &mut Vec<u64>,
) -> Result<(), NoMemory>
    requires below { AreBelow system.now.subclasses below.now }
    requires before { IsMaskBelow system.now keep number row.old.items }
    ensures { OnOk result (IsMaskBelow system.now keep (number + 1) row.new.items) }
{
    match system.sites.items().get(number as usize) {
        None => Ok(()),
        Some(info) => add_known(system, below, keep, number, *info, row),
    }
}

/// The row of the sites that a filter by a class passes.
pub fn mask_of(
    alloc: Global,
    system: &System,
    below: &[Vec<u64>],
    keep: ClassId,
) -> Result<Vec<u64>, NoMemory>
    requires below { AreBelow system.now.subclasses below.now }
    requires few { length system.now.sites < 2 ^ 32 }
    ensures { IfOk result (λ mask. IsMask system.now keep mask.items) }
{
    let mut row = Vec::new(alloc);
    let count = system.sites.items().len();
    for number in 0..count {
        add_site(system, below, keep, number as u32, &mut row)?;
    }
    Ok(row)
}

fn widen_masks(masks: &mut Vec<Option<Vec<u64>>>, class: usize) -> Result<(), NoMemory>
    ensures same { OnOk result ((s : System) → AreMasks s masks.old.items → AreMasks s masks.new.items) }
    ensures len { OnOk result (class < length masks.new.items) }
{
    while masks.len() <= class {
        masks.push(None)?;
    }
    Ok(())
}

fn add_mask(
    alloc: Global,
    system: &System,
    below: &[Vec<u64>],
    masks: &mut Vec<Option<Vec<u64>>>,
    keep: ClassId,
) -> Result<(), NoMemory>
    requires below { AreBelow system.now.subclasses below.now }
    requires few { length system.now.sites < 2 ^ 32 }
    requires masks { AreMasks system.now masks.old.items }
    ensures { OnOk result (AreMasks system.now masks.new.items) }
{
    let number = keep.0 as usize;
    widen_masks(masks, number)?;
    if masks[number].is_none() {
        let mask = mask_of(alloc, system, below, keep)?;
        masks[number] = Some(mask);
    }
    Ok(())
}

fn add_of(
    alloc: Global,
    system: &System,
    below: &[Vec<u64>],
    masks: &mut Vec<Option<Vec<u64>>>,
    constraint: Constraint,
) -> Result<(), NoMemory>
    requires below { AreBelow system.now.subclasses below.now }
    requires few { length system.now.sites < 2 ^ 32 }
    requires masks { AreMasks system.now masks.old.items }
    ensures { OnOk result (AreMasks system.now masks.new.items) }
{
    match constraint.rule {
        Rule::Copy {
            keep: Some(class),
            ..
        } => add_mask(alloc, system, below, masks, class),
        _ => Ok(()),
    }
}

/// By class, the row of the sites that the filter passes, where a constraint has that filter.
pub fn masks(
    alloc: Global,
    system: &System,
    below: &[Vec<u64>],
) -> Result<Vec<Option<Vec<u64>>>, NoMemory>
    requires below { AreBelow system.now.subclasses below.now }
    requires few { length system.now.sites < 2 ^ 32 }
    ensures { IfOk result (λ masks. AreMasks system.now masks.items) }
{
    let mut masks = Vec::new(alloc);
    for constraint in system.constraints.items() {
        add_of(alloc, system, below, &mut masks, *constraint)?;
    }
    Ok(masks)
}
