// What a call of a method outside the folder reads and writes.
ghost use Rattle.std.specs.Prelude.{◌≡◌, ◌<◌, ◌≤◌, ◌++◌, ◌∷◌, ◌||◌, [], length, false, slice_index_or, IfOk, OnOk};
ghost use Rattle.slicer_ids.specs.Sets.{IsOrderedListOf};
ghost use Rattle.dep_form.specs.Outside.{IsOutsideRule, IsChanged, IsFilled, IsWritten};
ghost use Rattle.outside_model.specs.Arguments.{IsFrom};

use dep_form::call_site::CallSite;
use dep_form::rules::OutsideRule;
use slicer_ids::ids::NoMemory;
use slicer_ids::list::List;
use std::alloc::Global;

/// Which arguments of an outside call are read, written and changed, by number, in order. The receiver of an instance call
/// has number 0.
///
/// All reference arguments are read. An instance call writes its further arguments into the state of its receiver, where
/// it has one, and into the elements of the array sites of its further references; a static call writes all its arguments
/// into the states of its references. It takes four bytes an argument at most, and time linear in the arguments.
pub fn outside_rule(alloc: Global, c: &CallSite) -> Result<OutsideRule, NoMemory>
    ensures { IfOk result (IsOutsideRule c.now.instance c.now.references) }
{
    let references = c.references.items();
    Ok(OutsideRule {
        reads: numbers(alloc, references, 0, false)?,
        written: written(alloc, c.instance, references)?,
        states: changed(alloc, c.instance, references)?,
        arrays: filled(alloc, c.instance, references)?,
    })
}

// The arguments that are written: all but a receiver.
fn written(alloc: Global, instance: bool, references: &[bool]) -> Result<List<u8>, NoMemory>
    requires { length references.now ≤ 256 }
    ensures { IfOk result (λ r. IsOrderedListOf (λ i j. i < j) r (IsWritten instance references.now)) }
{
    if instance {
        numbers(alloc, references, 1, true)
    } else {
        numbers(alloc, references, 0, true)
    }
}

// The arguments into the states of whose sites they are written.
fn changed(alloc: Global, instance: bool, references: &[bool]) -> Result<List<u8>, NoMemory>
    requires { length references.now ≤ 256 }
    ensures { IfOk result (λ r. IsOrderedListOf (λ i j. i < j) r (IsChanged instance references.now)) }
{
    if !instance {
        return numbers(alloc, references, 0, false);
    }
    let mut states = Vec::new(alloc);
    if references.len() > 1 {
        push(&mut states, 0)?;
    }
    Ok(List::from_vec(states))
}

// The arguments into the elements of whose array sites they are written.
fn filled(alloc: Global, instance: bool, references: &[bool]) -> Result<List<u8>, NoMemory>
    requires { length references.now ≤ 256 }
    ensures { IfOk result (λ r. IsOrderedListOf (λ i j. i < j) r (IsFilled instance references.now)) }
{
    if instance {
        numbers(alloc, references, 1, false)
    } else {
        Ok(List::from_vec(Vec::new(alloc)))
    }
}

// The arguments from a number on: all of them, or the references alone.
fn numbers(
    alloc: Global,
    references: &[bool],
    first: usize,
    all: bool,
) -> Result<List<u8>, NoMemory>
    requires { length references.now ≤ 256 }
    ensures { IfOk result (λ r. IsOrderedListOf (λ i j. i < j) r (IsFrom references.now first all)) }
{
    let mut numbers = Vec::new(alloc);
    for i in first..references.len() {
        if is_kept(references, i, all) {
            push(&mut numbers, i as u8)?;
        }
    }
    Ok(List::from_vec(numbers))
}

// Whether an argument is a reference, or all are wanted.
fn is_kept(references: &[bool], i: usize, all: bool) -> bool
    requires { i < length references.now }
    ensures { result ≡ (all || slice_index_or references.now i false) }
{
    all || references[i]
}

// Adds a number at the end.
fn push(numbers: &mut Vec<u8>, number: u8) -> Result<(), NoMemory>
    ensures { OnOk result (numbers.new.items ≡ numbers.old.items ++ number ∷ []) }
{
    numbers.push(number)?;
    Ok(())
}
