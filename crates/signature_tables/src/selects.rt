// What classes select for signatures.
ghost use Rattle.std.specs.Prelude.{◌≡◌, ◌<◌, ◌+◌, ◌^◌, ◌++◌, ◌∷◌, [], map, length, slice_get, ℕ, List, Option, Some, None, IfOk, OnOk};
ghost use Rattle.hierarchy.specs.Selections.{IsSelection};
ghost use Rattle.signature_tables.specs.TextPairs.{pair_of};
ghost use Rattle.signature_tables.specs.Selections.{AreChoicesUpTo, AreChoices};

use crate::texts::Texts;
use hierarchy::{Hierarchy, Select};
use slicer_ids::ids::{ClassId, MethodId, NoMemory};
use slicer_ids::list::List;
use std::alloc::Global;

// Adds a choice.
fn push(
    choices: &mut Vec<(u32, ClassId, Option<MethodId>)>,
    signature: u32,
    class: u32,
    method: Option<MethodId>,
) -> Result<(), NoMemory>
    ensures { OnOk result (choices.new.items ≡ choices.old.items ++ (signature, record { 0 = class }, method) ∷ []) }
{
    match choices.push((signature, ClassId(class), method)) {
        Ok(()) => Ok(()),
        Err(_) => Err(NoMemory),
    }
}

// What a class selects for a signature.
fn select(h: &Hierarchy, signatures: &[Texts<'_>], signature: u32, class: u32) -> Select
    requires signature { signature < length signatures.now }
    requires class { class < length h.now }
    ensures { (nd : List ℕ × List ℕ) → slice_get (map pair_of signatures.now) signature ≡ Some nd → IsSelection h.now class nd.0 nd.1 result }
{
    let texts = &signatures[signature as usize];
    h.select(ClassId(class), texts.name, texts.descriptor)
}

// Adds what a class selects for a signature.
fn push_select(
    h: &Hierarchy,
    signatures: &[Texts<'_>],
    signature: u32,
    class: u32,
    choices: &mut Vec<(u32, ClassId, Option<MethodId>)>,
) -> Result<(), NoMemory>
    requires signature { signature < length signatures.now }
    requires class { class < length h.now }
    requires choices { AreChoicesUpTo h.now (map pair_of signatures.now) signature class choices.old.items }
    ensures { OnOk result (AreChoicesUpTo h.now (map pair_of signatures.now) signature (class + 1) choices.new.items) }
{
    match select(h, signatures, signature, class) {
        Select::Folder(method) => push(choices, signature, class, Some(method)),
        Select::Abstract => push(choices, signature, class, None),
        Select::Outside => Ok(()),
    }
}

// Adds what the classes select for a signature.
fn push_signature(
    h: &Hierarchy,
    signatures: &[Texts<'_>],
    signature: u32,
    count: u32,
    choices: &mut Vec<(u32, ClassId, Option<MethodId>)>,
) -> Result<(), NoMemory>
    requires signature { signature < length signatures.now }
    requires count { count ≡ length h.now }
    requires choices { AreChoicesUpTo h.now (map pair_of signatures.now) signature 0 choices.old.items }
    ensures { OnOk result (AreChoicesUpTo h.now (map pair_of signatures.now) (signature + 1) 0 choices.new.items) }
{
    for class in 0..count {
        push_select(h, signatures, signature, class, choices)?;
    }
    Ok(())
}

/// For each signature the classes that select a method of the folder, in order, with the method; none for one that is
/// abstract. Asks each class for each signature.
pub fn selects(
    alloc: Global,
    h: &Hierarchy,
    signatures: &[Texts<'_>],
) -> Result<List<(u32, ClassId, Option<MethodId>)>, NoMemory>
    requires classes { length h.now < 2 ^ 32 }
    requires few { length signatures.now < 2 ^ 32 }
    ensures { IfOk result (AreChoices h.now (map pair_of signatures.now)) }
{
    let classes = h.classes().len() as u32;
    let count = signatures.len() as u32;
    let mut choices = Vec::new(alloc);
    for signature in 0..count {
        push_signature(h, signatures, signature, classes, &mut choices)?;
    }
    Ok(List::from_vec(choices))
}
