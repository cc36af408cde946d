// The classes that each class names, as numbers.
ghost use Rattle.std.specs.Prelude.{◌≡◌, ◌<◌, ◌^◌, ℕ, List, [], ◌∷◌, ◌++◌, length, All, Some, IfOk, OnOk, MatchOption};
ghost use Rattle.class_form.specs.Classes.{AreInOrder, IsNamed};
ghost use Rattle.class_form.specs.Numbers.{IsNamedClass};
ghost use Rattle.digraph.specs.Graphs.{IsGraph};
ghost use Rattle.hierarchy.specs.Names.{IsByName, LeadsTo, Leading, indices_of, AreEdges};

use crate::sorted::find_class;
use class_form::class_file::ClassFile;
use slicer_ids::ids::NoMemory;
use std::alloc::Global;

/// Which classes, each in the order of a search.
#[derive(Clone, Copy)]
pub enum Above {
    Interfaces,
    /// Interfaces, then the superclass.
    Parents,
}

/// The class of the folder that an index of a class's constant pool names; none where that is no class of the folder.
pub fn class_named(classes: &[ClassFile], class: &ClassFile, index: u16) -> Option<u32>
    requires few { length classes.now < 2 ^ 32 }
    requires named { All IsNamedClass classes.now }
    requires sorted { IsByName classes.now }
    ensures { MatchOption result ((c : ℕ) → LeadsTo classes.now class.now index c → ⊥) (λ c. LeadsTo classes.now class.now index c) }
{
    match class.pool.class(index) {
        Some(name) => find_class(classes, name),
        None => None,
    }
}

// Adds the class that an index names.
fn push_named(
    classes: &[ClassFile],
    class: &ClassFile,
    index: u16,
    row: &mut Vec<u32>,
) -> Result<(), NoMemory>
    requires few { length classes.now < 2 ^ 32 }
    requires named { All IsNamedClass classes.now }
    requires sorted { IsByName classes.now }
    ensures { OnOk result ((indices : List ℕ) → Leading classes.now class.now indices row.old.items → Leading classes.now class.now (indices ++ index ∷ []) row.new.items) }
{
    let Some(c) = class_named(classes, class, index) else {
        return Ok(());
    };
    match row.push(c) {
        Ok(()) => Ok(()),
        Err(_) => Err(NoMemory),
    }
}

// The interfaces of a class.
fn interfaces_of(
    alloc: Global,
    classes: &[ClassFile],
    class: &ClassFile,
) -> Result<Vec<u32>, NoMemory>
    requires few { length classes.now < 2 ^ 32 }
    requires named { All IsNamedClass classes.now }
    requires sorted { IsByName classes.now }
    ensures { IfOk result (λ row. Leading classes.now class.now class.now.interfaces row.items) }
{
    let mut row = Vec::new(alloc);
    let interfaces = class.interfaces.items();
    for index in interfaces {
        push_named(classes, class, *index, &mut row)?;
    }
    Ok(row)
}

// The interfaces and the superclass of a class.
fn parents_of(alloc: Global, classes: &[ClassFile], class: &ClassFile) -> Result<Vec<u32>, NoMemory>
    requires few { length classes.now < 2 ^ 32 }
    requires named { All IsNamedClass classes.now }
    requires sorted { IsByName classes.now }
    ensures { IfOk result (λ row. Leading classes.now class.now (class.now.interfaces ++ class.now.super_class ∷ []) row.items) }
{
    let mut row = interfaces_of(alloc, classes, class)?;
    push_named(classes, class, class.super_class, &mut row)?;
    Ok(row)
}

// The classes that a class names.
fn row_of(
    alloc: Global,
    above: Above,
    classes: &[ClassFile],
    class: &ClassFile,
) -> Result<Vec<u32>, NoMemory>
    requires few { length classes.now < 2 ^ 32 }
    requires named { All IsNamedClass classes.now }
    requires sorted { IsByName classes.now }
    ensures { IfOk result (λ row. Leading classes.now class.now (indices_of above class.now) row.items) }
{
    match above {
        Above::Interfaces => interfaces_of(alloc, classes, class),
        Above::Parents => parents_of(alloc, classes, class),
    }
}

// Adds a row.
fn push_row(rows: &mut Vec<Vec<u32>>, row: Vec<u32>) -> Result<(), NoMemory>
    ensures { OnOk result (rows.new.items ≡ rows.old.items ++ row ∷ []) }
{
    match rows.push(row) {
        Ok(()) => Ok(()),
        Err(_) => Err(NoMemory),
    }
}

/// The classes that each class names.
pub fn edges(alloc: Global, above: Above, classes: &[ClassFile]) -> Result<Vec<Vec<u32>>, NoMemory>
    requires few { length classes.now < 2 ^ 32 }
    requires named { All IsNamedClass classes.now }
    requires sorted { IsByName classes.now }
    ensures { IfOk result (λ rows. AreEdges above classes.now rows.items) }
{
    let mut rows = Vec::new(alloc);
    for class in classes {
        let row = row_of(alloc, above, classes, class)?;
        push_row(&mut rows, row)?;
    }
    Ok(rows)
}
