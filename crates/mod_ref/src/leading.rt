// From which methods calls lead to some methods.
ghost use Rattle.std.specs.Prelude.{◌≡◌, ◌<◌, ◌↔◌, ℕ, [], All, Contains, OnOk, length};
ghost use Rattle.slicer_ids.specs.declared.ids.MethodId.{MethodId};
ghost use Rattle.worklists.specs.Growth.{Grows};
ghost use Rattle.worklist.specs.Worklists.{IsWorklist};
ghost use Rattle.mod_ref.specs.Rows.{LeadsInto, method, row_of};

use slicer_ids::ids::{MethodId, NoMemory};
use worklist::Worklist;

fn add_all(methods: &[MethodId], found: &mut Worklist) -> Result<(), NoMemory>
    requires within { All (λ (m : MethodId). m.0 < length found.old.marks.items) methods.now }
    requires set { IsWorklist found.old.marks.items found.old.items.items }
    ensures set { OnOk result (IsWorklist found.new.marks.items found.new.items.items) }
    ensures size { length found.new.marks.items ≡ length found.old.marks.items }
    ensures grown { OnOk result (Grows found.old.items.items found.new.items.items (λ n. Contains methods.now (method n))) }
{
    for m in methods {
        found.add(m.0 as usize)?;
    }
    Ok(())
}

/// Finds the methods from which calls lead to one of some methods, these among them. It takes one step for each method found,
/// and one for each of its callers.
pub fn find_leading(
    callers: &[Vec<MethodId>],
    targets: &[MethodId],
    found: &mut Worklist,
) -> Result<(), NoMemory>
    requires callers { (k : ℕ) → All (λ (m : MethodId). m.0 < length callers.now) (row_of callers.now k) }
    requires targets { All (λ (m : MethodId). m.0 < length callers.now) targets.now }
    requires size { length found.old.marks.items ≡ length callers.now }
    requires set { IsWorklist found.old.marks.items found.old.items.items }
    requires none { found.old.items.items ≡ [] }
    ensures set { OnOk result (IsWorklist found.new.marks.items found.new.items.items) }
    ensures size { length found.new.marks.items ≡ length found.old.marks.items }
    ensures found { OnOk result ((n : ℕ) → Contains found.new.items.items n ↔ LeadsInto callers.now targets.now (method n)) }
{
    add_all(targets, found)?;
    let mut next = 0;
    while next < found.items.len() {
        let number = found.items[next];
        add_all(callers[number].as_slice(), found)?;
        next += 1;
    }
    Ok(())
}
