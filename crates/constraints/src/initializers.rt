// The class initializers of a program.
ghost use Rattle.std.specs.Prelude.{◌≡◌, ◌↔◌, AllPairs, IsTrue, IfOk, OnOk, IfSome, IfNone, length, map, slice_get, None};
ghost use Rattle.std.specs.Prelude.{Some};
ghost use Rattle.class_form.specs.Pools.{utf_at};
ghost use Rattle.class_form.specs.Resolution.{clinit_name};
ghost use Rattle.class_form.specs.Numbers.{AreMethods};
ghost use Rattle.hierarchy.specs.Places.{declared_at};
ghost use Rattle.program_form.specs.Programs.{Program};
ghost use Rattle.signature_tables.specs.Programs.{IsOfClasses};
ghost use Rattle.variable_tables.specs.Growth.{GrowsInOrder};
ghost use Rattle.constraint_rules.specs.Settings.{AreInitializers};
ghost use Rattle.constraints.specs.Initializers.{FromNumbers, IsInitializerAt, IsInitializerIn, IsNumberedAt, IsNumbered, ClassRises};

use class_form::class_file::{ClassFile, Member};
use hierarchy::Hierarchy;
use slicer_ids::ids::{ClassId, MethodId, NoMemory};
use std::alloc::Global;

// Whether a name is that of initializers (JVMS SE 7, 2.9).
fn is_clinit(name: &[u8]) -> bool
    ensures { IsTrue result ↔ (name.now ≡ clinit_name) }
{
    name == b"<clinit>".as_slice()
}

// Whether the text at an index is.
fn is_named_so(file: &ClassFile, name: u16) -> bool
    ensures { IsTrue result ↔ (utf_at file.now.pool name ≡ Some clinit_name) }
{
    match file.pool.utf(name) {
        Some(text) => is_clinit(text),
        None => false,
    }
}

// The method of a class at an index.
fn member_at(members: &[Member], index: u16) -> Option<&Member>
    ensures found { IfSome result (λ x. slice_get members.now index ≡ Some x.now) }
    ensures missed { IfNone result (slice_get members.now index ≡ None) }
{
    members.get(index as usize)
}

// Whether it is its initializer.
fn is_initializer(file: &ClassFile, index: u16) -> bool
    ensures { IsTrue result ↔ IsInitializerAt file.now index }
{
    match member_at(file.methods.items(), index) {
        Some(member) => is_named_so(file, member.name),
        None => false,
    }
}

// The class of a number.
fn class_at(classes: &[ClassFile], class: ClassId) -> Option<&ClassFile>
    ensures found { IfSome result (λ k. slice_get classes.now class.0 ≡ Some k.now) }
    ensures missed { IfNone result (slice_get classes.now class.0 ≡ None) }
{
    classes.get(class.0 as usize)
}

// Whether the method at a place is an initializer.
fn is_there(h: &Hierarchy, place: (ClassId, u16)) -> bool
    ensures { IsTrue result ↔ IsInitializerIn h.now place }
{
    match class_at(h.classes(), place.0) {
        Some(file) => is_initializer(file, place.1),
        None => false,
    }
}

// Adds the method of a number, where the one at its place is an initializer.
fn push_there(
    h: &Hierarchy,
    place: (ClassId, u16),
    number: u32,
    found: &mut Vec<(ClassId, MethodId)>,
) -> Result<(), NoMemory>
    ensures { OnOk result (GrowsInOrder ClassRises found.old.items found.new.items (IsNumberedAt h.now place number)) }
{
    if !is_there(h, place) {
        return Ok(());
    }
    found.push((place.0, MethodId(number)))?;
    Ok(())
}

// The place of a number.
fn place_at(places: &[(ClassId, u16)], number: u32) -> Option<(ClassId, u16)>
    ensures { result ≡ slice_get places.now number }
{
    places.get(number as usize).copied()
}

// Adds the method of a number, where it is an initializer.
fn push_method(
    h: &Hierarchy,
    places: &[(ClassId, u16)],
    number: u32,
    found: &mut Vec<(ClassId, MethodId)>,
) -> Result<(), NoMemory>
    ensures { OnOk result (GrowsInOrder ClassRises found.old.items found.new.items (IsNumbered h.now places.now number)) }
{
    match place_at(places, number) {
        Some(place) => push_there(h, place, number, found),
        None => Ok(()),
    }
}

// Adds those of so many methods.
fn push_methods(
    h: &Hierarchy,
    places: &[(ClassId, u16)],
    count: u32,
    found: &mut Vec<(ClassId, MethodId)>,
) -> Result<(), NoMemory>
    requires { AreMethods h.now (map declared_at places.now) }
    ensures { OnOk result (GrowsInOrder ClassRises found.old.items found.new.items (FromNumbers h.now places.now count)) }
{
    for number in 0..count {
        push_method(h, places, number, found)?;
    }
    Ok(())
}

/// The class initializers, in order of their methods and so of their classes.
pub(crate) fn initializers(
    alloc: Global,
    h: &Hierarchy,
    root: MethodId,
) -> Result<Vec<(ClassId, MethodId)>, NoMemory>
    requires { (p : Program) × IsOfClasses h.now p × (root.0 ≡ length p.methods) }
    ensures all { IfOk result (λ xs. (p : Program) → IsOfClasses h.now p → AreInitializers p xs.items) }
    ensures order { IfOk result (λ xs. AllPairs ClassRises xs.items) }
{
    let mut found = Vec::new(alloc);
    push_methods(h, h.method_places(), root.0, &mut found)?;
    Ok(found)
}
