// The tables of types, with their order tested: their own contract says what is in them, and not in which order.
ghost use Rattle.std.specs.Prelude.{◌≡◌, ◌↔◌, ◌<◌, ◌^◌, IsTrue, AllPairs, length, map, IfOk};
ghost use Rattle.slicer_ids.specs.Sets.{IsOrderedListOf};
ghost use Rattle.program_form.specs.Programs.{Program};
ghost use Rattle.program_form.specs.Systems.{ForeignBefore};
ghost use Rattle.constraint_form.specs.Signatures.{IsSignature};
ghost use Rattle.constraint_form.specs.ConstraintSystems.{AreTypes};
ghost use Rattle.signature_tables.specs.Pairs.{ClassesBefore};
ghost use Rattle.signature_tables.specs.Programs.{IsOfClasses};
ghost use Rattle.signature_tables.specs.Selections.{ChoiceBefore};
ghost use Rattle.signature_tables.specs.TextPairs.{pair_of};

use hierarchy::Hierarchy;
use signature_tables::texts::Texts;
use signature_tables::type_tables::{TypeTables, type_tables};
use slicer_ids::ids::{ClassId, MethodId, NoMemory};
use std::alloc::Global;

type Choice = (u32, ClassId, Option<MethodId>);

// Whether one pair of classes comes before another.
fn comes_before(a: (ClassId, ClassId), b: (ClassId, ClassId)) -> bool
    ensures { IsTrue result ↔ ClassesBefore a b }
{
    a.0.0 < b.0.0 || (a.0.0 == b.0.0 && a.1.0 < b.1.0)
}

// Whether one choice does.
fn is_chosen_before(a: Choice, b: Choice) -> bool
    ensures { IsTrue result ↔ ChoiceBefore a b }
{
    a.0 < b.0 || (a.0 == b.0 && a.1.0 < b.1.0)
}

// Whether pairs of classes are in order.
fn pairs_rise(pairs: &[(ClassId, ClassId)]) -> bool
    ensures { IsTrue result → AllPairs ClassesBefore pairs.now }
{
    for i in 1..pairs.len() {
        if !comes_before(pairs[i - 1], pairs[i]) {
            return false;
        }
    }
    true
}

// Whether choices are in order.
fn choices_rise(choices: &[Choice]) -> bool
    ensures { IsTrue result → AllPairs ChoiceBefore choices.now }
{
    for i in 1..choices.len() {
        if !is_chosen_before(choices[i - 1], choices[i]) {
            return false;
        }
    }
    true
}

/// The tables of types of the classes of a program, in order. They always are; other ones would be answered with want of memory.
pub(crate) fn types_in_order(
    alloc: Global,
    h: &Hierarchy,
    signatures: &[Texts<'_>],
) -> Result<TypeTables, NoMemory>
    requires classes { length h.now < 2 ^ 32 }
    requires few { length signatures.now < 2 ^ 32 }
    ensures types { IfOk result (λ t. (p : Program) → IsOfClasses h.now p → IsOrderedListOf ForeignBefore (map pair_of signatures.now) (IsSignature p) → AreTypes p t.subclasses t.selects) }
    ensures subclasses { IfOk result (λ t. AllPairs ClassesBefore t.subclasses) }
    ensures selects { IfOk result (λ t. AllPairs ChoiceBefore t.selects) }
{
    let types = type_tables(alloc, h, signatures)?;
    if !pairs_rise(types.subclasses.items()) {
        return Err(NoMemory);
    }
    if !choices_rise(types.selects.items()) {
        return Err(NoMemory);
    }
    Ok(types)
}
