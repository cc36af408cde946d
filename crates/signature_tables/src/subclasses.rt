// Which classes are subclasses of which.
ghost use Rattle.std.specs.Prelude.{◌≡◌, ◌<◌, ◌+◌, ◌^◌, ◌++◌, ◌∷◌, [], length, IfOk, OnOk};
ghost use Rattle.slicer_ids.specs.Sets.{IsOrderedListOf};
ghost use Rattle.signature_tables.specs.Pairs.{ClassesBefore, IsSubPair, IsSubPairUpTo};

use hierarchy::Hierarchy;
use slicer_ids::ids::{ClassId, NoMemory};
use slicer_ids::list::List;
use std::alloc::Global;

// Adds a pair.
fn push(pairs: &mut Vec<(ClassId, ClassId)>, a: u32, b: u32) -> Result<(), NoMemory>
    ensures { OnOk result (pairs.new.items ≡ pairs.old.items ++ (record { 0 = a }, record { 0 = b }) ∷ []) }
{
    match pairs.push((ClassId(a), ClassId(b))) {
        Ok(()) => Ok(()),
        Err(_) => Err(NoMemory),
    }
}

// Adds the pair of two classes, where the first is a subclass of the second.
fn push_sub(
    h: &Hierarchy,
    a: u32,
    b: u32,
    pairs: &mut Vec<(ClassId, ClassId)>,
) -> Result<(), NoMemory>
    requires a { a < length h.now }
    requires b { b < length h.now }
    requires listed { IsOrderedListOf ClassesBefore pairs.old.items (IsSubPairUpTo h.now a b) }
    ensures { OnOk result (IsOrderedListOf ClassesBefore pairs.new.items (IsSubPairUpTo h.now a (b + 1))) }
{
    if h.is_sub(ClassId(a), ClassId(b)) {
        push(pairs, a, b)
    } else {
        Ok(())
    }
}

// Adds the pairs of a class.
fn push_class(
    h: &Hierarchy,
    count: u32,
    a: u32,
    pairs: &mut Vec<(ClassId, ClassId)>,
) -> Result<(), NoMemory>
    requires count { count ≡ length h.now }
    requires a { a < count }
    requires listed { IsOrderedListOf ClassesBefore pairs.old.items (IsSubPairUpTo h.now a 0) }
    ensures { OnOk result (IsOrderedListOf ClassesBefore pairs.new.items (IsSubPairUpTo h.now (a + 1) 0)) }
{
    for b in 0..count {
        push_sub(h, a, b, pairs)?;
    }
    Ok(())
}

/// All pairs of a class and one that it is a subclass of, in order; each class is a subclass of itself. Takes a step for
/// each pair of classes.
pub fn subclasses(alloc: Global, h: &Hierarchy) -> Result<List<(ClassId, ClassId)>, NoMemory>
    requires few { length h.now < 2 ^ 32 }
    ensures { IfOk result (λ pairs. IsOrderedListOf ClassesBefore pairs (IsSubPair h.now)) }
{
    let count = h.classes().len() as u32;
    let mut pairs = Vec::new(alloc);
    for a in 0..count {
        push_class(h, count, a, &mut pairs)?;
    }
    Ok(List::from_vec(pairs))
}
