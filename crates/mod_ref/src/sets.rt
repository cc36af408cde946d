// By method, the numbers of the locations that it, or a method that its calls lead to, defines or uses.
ghost use Rattle.std.specs.Prelude.{◌≡◌, ◌<◌, ◌≤◌, ◌^◌, ◌↔◌, ℕ, [], All, Contains, IfOk, OnOk, IsTrue, length};
ghost use Rattle.slicer_ids.specs.declared.ids.LocId.{LocId};
ghost use Rattle.slicer_ids.specs.declared.ids.MethodId.{MethodId};
ghost use Rattle.worklists.specs.Growth.{FromOne};
ghost use Rattle.mod_ref.specs.Gains.{Gains};
ghost use Rattle.mod_ref.specs.Rows.{AreSetsBelow, ListsGain, Rises, list_of, row_of};

use crate::leading::find_leading;
use slicer_ids::ids::{LocId, MethodId, NoMemory};
use slicer_ids::list::List;
use std::alloc::Global;
use std::mem;
use worklist::Worklist;

// Adds a number that isn't below any in the list, unless it is there.
fn push_once(list: &mut Vec<LocId>, number: LocId) -> Result<(), NoMemory>
    requires rises { Rises list.old.items }
    requires below { All (λ (n : LocId). n.0 ≤ number.0) list.old.items }
    ensures rises { OnOk result (Rises list.new.items) }
    ensures gain { OnOk result (Gains list.old.items list.new.items (λ n. n ≡ number)) }
{
    let len = list.len();
    if len > 0 && list[len - 1].0 == number.0 {
        return Ok(());
    }
    list.push(number)?;
    Ok(())
}

fn add_to(
    alloc: Global,
    lists: &mut Vec<List<LocId>>,
    m: usize,
    number: LocId,
) -> Result<(), NoMemory>
    requires m { m < length lists.old.items }
    requires rises { (k : ℕ) → Rises (list_of lists.old.items k) }
    requires below { All (λ (n : LocId). n.0 ≤ number.0) (list_of lists.old.items m) }
    ensures len { OnOk result (length lists.new.items ≡ length lists.old.items) }
    ensures rises { OnOk result ((k : ℕ) → Rises (list_of lists.new.items k)) }
    ensures gain { OnOk result (ListsGain lists.old.items lists.new.items (λ k n. (m ≡ k) × (n ≡ number))) }
{
    let mut list = mem::replace(&mut lists[m], List::from_vec(Vec::new(alloc))).into_vec();
    push_once(&mut list, number)?;
    lists[m] = List::from_vec(list);
    Ok(())
}

fn add_number(
    alloc: Global,
    lists: &mut Vec<List<LocId>>,
    methods: &[usize],
    number: LocId,
) -> Result<(), NoMemory>
    requires methods { All (λ m. m < length lists.old.items) methods.now }
    requires rises { (k : ℕ) → Rises (list_of lists.old.items k) }
    requires below { (k : ℕ) → All (λ (n : LocId). n.0 ≤ number.0) (list_of lists.old.items k) }
    ensures len { OnOk result (length lists.new.items ≡ length lists.old.items) }
    ensures rises { OnOk result ((k : ℕ) → Rises (list_of lists.new.items k)) }
    ensures gain { OnOk result (ListsGain lists.old.items lists.new.items (λ k. FromOne (λ m n. (m ≡ k) × (n ≡ number)) methods.now)) }
{
    for m in methods {
        add_to(alloc, lists, *m, number)?;
    }
    Ok(())
}

fn no_lists(alloc: Global, count: usize) -> Result<Vec<List<LocId>>, NoMemory>
    ensures len { IfOk result (λ lists. length lists.items ≡ count) }
    ensures none { IfOk result (λ lists. (k : ℕ) → list_of lists.items k ≡ []) }
{
    let mut lists = Vec::new(alloc);
    for _made in 0..count {
        lists.push(List::from_vec(Vec::new(alloc)))?;
    }
    Ok(lists)
}

/// By method, the numbers of the rows with a method to which calls lead from it, in order. Each number is carried back from the
/// methods of its row along the callers: one step for each method that gets it, and one for each caller of such a method.
pub fn sets(
    alloc: Global,
    callers: &[Vec<MethodId>],
    sources: &[Vec<MethodId>],
) -> Result<Vec<List<LocId>>, NoMemory>
    requires callers { (k : ℕ) → All (λ (m : MethodId). m.0 < length callers.now) (row_of callers.now k) }
    requires sources { (k : ℕ) → All (λ (m : MethodId). m.0 < length callers.now) (row_of sources.now k) }
    requires few { length sources.now < 2 ^ 32 }
    ensures { IfOk result (λ lists. AreSetsBelow callers.now sources.now lists.items (length sources.now)) }
{
    let mut lists = no_lists(alloc, callers.len())?;
    let mut found = Worklist::new(alloc, callers.len())?;
    for number in 0..sources.len() {
        find_leading(callers, sources[number].as_slice(), &mut found)?;
        add_number(
            alloc,
            &mut lists,
            found.items.as_slice(),
            LocId(number as u32),
        )?;
        found.clear();
    }
    Ok(lists)
}
