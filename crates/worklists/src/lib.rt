//! Worklists: a list of all that was found, each item once, of which the first `next` were taken up. The words say what a call
//! adds; the lemmas say that a list in which all was taken up is closed under the rules, for rules of one and of two premises and
//! for items of any type.
#![tactic(auto)]

ghost use Rattle.std.specs.Prelude.{◌≡◌, ◌+◌, length, OnOk, OnErr};
ghost use Rattle.worklists.specs.Growth.{Grows};

use slicer_ids::ids::NoMemory;

/// Adds an item at the end. After want of memory the list is as it was.
pub fn add<T: Drop>(items: &mut Vec<T>, item: T) -> Result<(), NoMemory>
    ensures grown { OnOk result (Grows items.old.items items.new.items (λ x. x ≡ item)) }
    ensures longer { OnOk result (length items.new.items ≡ length items.old.items + 1) }
    ensures unchanged { OnErr result (items.new.items ≡ items.old.items) }
{
    match items.push(item) {
        Ok(()) => Ok(()),
        Err(_) => Err(NoMemory),
    }
}
