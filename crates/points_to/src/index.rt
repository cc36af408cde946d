// Tables made once of a system, in which the rules look up.
ghost use Rattle.std.specs.Prelude.{◌≡◌, ◌↔◌, ℕ, Contains, IfOk, IfSome};
ghost use Rattle.slicer_ids.specs.declared.ids.MethodId.{MethodId};
ghost use Rattle.points_to.specs.declared.groups.Select.{Select};
ghost use Rattle.points_to.specs.Indexes.{IsIndexOf, IsMask, IsSmall};

use crate::filters::{below, masks};
use crate::groups::{Select, group, selected};
use dep_form::system::System;
use slicer_ids::ids::{ClassId, NoMemory};
use std::alloc::Global;

/// By class: what it selects, in the order of signatures; the row of its subclasses; the row of the sites that a filter by it
/// passes, where a constraint has that filter.
#[derive(Drop)]
pub struct Index {
    pub groups: Vec<Vec<Select>>,
    pub below: Vec<Vec<u64>>,
    pub masks: Vec<Option<Vec<u64>>>,
}

/// The tables of a system. It takes the selected methods times a logarithm, and the sites once for each class that filters.
pub fn make_index(alloc: Global, system: &System) -> Result<Index, NoMemory>
    requires { IsSmall system.now }
    ensures { IfOk result (λ index. IsIndexOf system.now index) }
{
    let groups = group(alloc, system.selects.items())?;
    let below = below(alloc, system.subclasses.items())?;
    let masks = masks(alloc, system, below.as_slice())?;
    Ok(Index {
        groups,
        below,
        masks,
    })
}

/// What a class selects for a signature.
pub fn selects<'a>(
    system: &System,
    index: &'a Index,
    class: ClassId,
    signature: u32,
) -> &'a [Select]
    requires { IsIndexOf system.now index.now }
    ensures { (x : Select) → Contains result.now x ↔ (Contains system.now.selects (x.signature, class, x.target) × (x.signature ≡ signature)) }
{
    let number = class.0 as usize;
    if number < index.groups.len() {
        selected(index.groups[number].as_slice(), signature)
    } else {
        &[]
    }
}

/// The sites that a filter by a class passes, where they are to hand.
pub fn mask<'a>(system: &System, index: &'a Index, keep: ClassId) -> Option<&'a [u64]>
    requires { IsIndexOf system.now index.now }
    ensures { IfSome result (λ mask. IsMask system.now keep mask.now) }
{
    let number = keep.0 as usize;
    if number < index.masks.len() {
        match &index.masks[number] {
            Some(mask) => Some(mask.as_slice()),
            None => None,
        }
    } else {
        None
    }
}
