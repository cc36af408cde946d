// The numbers of locations that one of some methods has.
ghost use Rattle.std.specs.Prelude.{◌≡◌, ◌<◌, ◌↔◌, ◌++◌, Contains, IfOk, OnOk, Some, length, slice_get};
ghost use Rattle.slicer_ids.specs.Sets.{IsOrderedListOf};
ghost use Rattle.slicer_ids.specs.declared.ids.LocId.{LocId};
ghost use Rattle.slicer_ids.specs.declared.ids.MethodId.{MethodId};
ghost use Rattle.worklists.specs.Growth.{FromOne};
ghost use Rattle.mod_ref.specs.Gains.{Gains};
ghost use Rattle.method_facts.specs.Numbers.{HasNumber, LocBefore};

use slicer_ids::ids::{LocId, MethodId, NoMemory};
use slicer_ids::list::List;
use std::alloc::Global;

// As many numbers are gathered before the first time that those that stand twice are taken out.
const FIRST: usize = 1024;

/// The list of a method.
pub fn list_of(lists: &[List<LocId>], m: MethodId) -> &[LocId]
    requires { m.0 < length lists.now }
    ensures { slice_get lists.now m.0 ≡ Some result.now }
{
    lists[m.0 as usize].items()
}

// The list of a method, or an empty one where there is none.
fn numbers_of(lists: &[List<LocId>], m: MethodId) -> &[LocId]
    ensures { (n : LocId) → Contains result.now n ↔ HasNumber lists.now m n }
{
    match lists.get(m.0 as usize) {
        Some(list) => list.items(),
        None => &[],
    }
}

// Puts a list behind another.
fn append(all: &mut Vec<LocId>, list: &[LocId]) -> Result<(), NoMemory>
    ensures { OnOk result (all.new.items ≡ all.old.items ++ list.now) }
{
    match all.extend_from_slice(list) {
        Ok(()) => Ok(()),
        Err(_) => Err(NoMemory),
    }
}

// Puts the numbers in order, and takes out what stands twice.
fn tidy(all: &mut Vec<LocId>)
    ensures { (n : LocId) → Contains all.new.items n ↔ Contains all.old.items n }
{
    all.sort_unstable();
    all.dedup();
}

fn tidy_if_full(all: &mut Vec<LocId>, full: usize) -> usize
    ensures { (n : LocId) → Contains all.new.items n ↔ Contains all.old.items n }
{
    if all.len() < full {
        return full;
    }
    tidy(all);
    all.len().saturating_mul(2).max(FIRST)
}

// Adds what the list of a method has.
fn add_list(
    lists: &[List<LocId>],
    m: MethodId,
    all: &mut Vec<LocId>,
    full: usize,
) -> Result<usize, NoMemory>
    ensures { OnOk result (Gains all.old.items all.new.items (HasNumber lists.now m)) }
{
    let list = numbers_of(lists, m);
    append(all, list)?;
    Ok(tidy_if_full(all, full))
}

// What the lists of these methods have, some of it perhaps twice.
fn gather(
    alloc: Global,
    lists: &[List<LocId>],
    methods: &[MethodId],
) -> Result<Vec<LocId>, NoMemory>
    ensures { IfOk result (λ all. (n : LocId) → Contains all.items n ↔ FromOne (HasNumber lists.now) methods.now n) }
{
    let mut all = Vec::new(alloc);
    let mut full = FIRST;
    for m in methods {
        full = add_list(lists, *m, &mut all, full)?;
    }
    Ok(all)
}

/// The numbers that stand in the list of one of these methods, in order and once each. What stands twice is taken out each time
/// that the list has doubled, so that it has at most twice as many numbers as there are, and one list more.
pub fn in_any(
    alloc: Global,
    lists: &[List<LocId>],
    methods: &[MethodId],
) -> Result<Vec<LocId>, NoMemory>
    ensures { IfOk result (λ all. IsOrderedListOf LocBefore all.items (FromOne (HasNumber lists.now) methods.now)) }
{
    let mut all = gather(alloc, lists, methods)?;
    all.sort_unstable();
    all.dedup();
    Ok(all)
}
