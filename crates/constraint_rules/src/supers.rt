// A class and its superclasses.
ghost use Rattle.std.specs.Prelude.{◌≡◌, ◌↔◌, ◌++◌, ◌∷◌, [], ℕ, Contains, IfOk, OnOk};
ghost use Rattle.slicer_ids.specs.declared.ids.ClassId.{ClassId};
ghost use Rattle.class_form.specs.Classes.{IsClass, IsSuper};
ghost use Rattle.program_form.specs.Programs.{Program};
ghost use Rattle.signature_tables.specs.Programs.{IsOfClasses};
ghost use Rattle.constraint_rules.specs.One.{IsOne};
ghost use Rattle.constraint_rules.specs.Supers.{IsFromFirst};

use class_form::class_file::ClassFile;
use hierarchy::Hierarchy;
use slicer_ids::ids::{ClassId, NoMemory};
use std::alloc::Global;

// The direct superclass that the file of a class names, where it is of the folder.
fn super_in(h: &Hierarchy, file: &ClassFile) -> Option<ClassId>
    ensures { (p : Program) (c : ℕ) → IsOfClasses h.now p → IsClass p.classes c file.now → IsOne (λ (d : ClassId). IsSuper p.classes c d.0) result }
{
    match file.pool.class(file.super_class) {
        Some(name) => h.find_class(name),
        None => None,
    }
}

/// The direct superclass of a class, where both are of the folder.
pub(crate) fn super_of(h: &Hierarchy, class: ClassId) -> Option<ClassId>
    ensures { (p : Program) → IsOfClasses h.now p → IsOne (λ (d : ClassId). IsSuper p.classes class.0 d.0) result }
{
    match h.classes().get(class.0 as usize) {
        Some(file) => super_in(h, file),
        None => None,
    }
}

// Adds a class.
fn push(class: ClassId, classes: &mut Vec<ClassId>) -> Result<(), NoMemory>
    ensures { OnOk result (classes.new.items ≡ classes.old.items ++ class ∷ []) }
{
    match classes.push(class) {
        Ok(()) => Ok(()),
        Err(_) => Err(NoMemory),
    }
}

/// A class and its superclasses in the folder, upwards; none where there is no class. A list that is longer than that of all
/// classes, which no hierarchy has, is answered with want of memory.
pub(crate) fn upwards(
    alloc: Global,
    h: &Hierarchy,
    first: Option<ClassId>,
) -> Result<Vec<ClassId>, NoMemory>
    ensures { IfOk result (λ classes. (p : Program) → IsOfClasses h.now p → (c : ClassId) → Contains classes.items c ↔ IsFromFirst p.classes first c) }
{
    let mut classes = Vec::new(alloc);
    let mut next = first;
    while let Some(class) = next {
        if classes.len() > h.classes().len() {
            return Err(NoMemory);
        }
        push(class, &mut classes)?;
        next = super_of(h, class);
    }
    Ok(classes)
}
