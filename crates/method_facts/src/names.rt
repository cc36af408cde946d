// Which methods initialize their classes, and which answer something.
ghost use Rattle.std.specs.Prelude.{◌≡◌, ◌-◌, ◌↔◌, IsTrue, Some, length, slice_get};
ghost use Rattle.class_form.specs.Resolution.{clinit_name};
ghost use Rattle.hierarchy.specs.Places.{descriptor_in, name_in, text_bytes, texts_at};
ghost use Rattle.hierarchy.specs.declared.members.Kind.TheVariants.{Method};
ghost use Rattle.program_form.specs.Programs.{Program};
ghost use Rattle.program_code.specs.Codes.{IsProgramOfCode};
ghost use Rattle.constraint_form.specs.Asked.{IsReadProgram};
ghost use Rattle.fact_form.specs.NodeNumbers.{IsAnswering};
ghost use Rattle.method_facts.specs.Entering.{IsInitializerOf};

use class_form::class_file::ClassFile;
use class_form::pool::Pool;
use hierarchy::tree::Hierarchy;
use slicer_ids::ids::{ClassId, MethodId};

// The text at an index, or no bytes where there is none.
fn text(pool: &Pool, index: u16) -> &[u8]
    ensures { result.now ≡ text_bytes pool.now index }
{
    match pool.utf(index) {
        Some(text) => text,
        None => &[],
    }
}

// The name of a method of a class.
fn name_of(class: &ClassFile, place: u16) -> &[u8]
    ensures { result.now ≡ name_in Method class.now place }
{
    match class.methods.items().get(place as usize) {
        Some(member) => text(&class.pool, member.name),
        None => &[],
    }
}

// The name of the method at a place.
fn name_at(classes: &[ClassFile], place: (ClassId, u16)) -> &[u8]
    ensures { result.now ≡ (texts_at Method classes.now place).name }
{
    match classes.get(place.0.0 as usize) {
        Some(class) => name_of(class, place.1),
        None => &[],
    }
}

fn place_of(places: &[(ClassId, u16)], m: MethodId) -> Option<(ClassId, u16)>
    ensures { result ≡ slice_get places.now m.0 }
{
    match places.get(m.0 as usize) {
        Some(place) => Some(*place),
        None => None,
    }
}

fn is_clinit(name: &[u8]) -> bool
    ensures { IsTrue result ↔ (name.now ≡ clinit_name) }
{
    name == b"<clinit>".as_slice()
}

/// Whether the method of this number initializes its class.
pub fn is_initializer(h: &Hierarchy, m: MethodId) -> bool
    ensures { IsTrue result ↔ IsInitializerOf h.now m }
{
    match place_of(h.method_places(), m) {
        Some(place) => is_clinit(name_at(h.classes(), place)),
        None => false,
    }
}

// The descriptor of a method of a class.
fn descriptor_of(class: &ClassFile, place: u16) -> &[u8]
    ensures { result.now ≡ descriptor_in Method class.now place }
{
    match class.methods.items().get(place as usize) {
        Some(member) => text(&class.pool, member.descriptor),
        None => &[],
    }
}

// The descriptor of the method at a place.
fn descriptor_at(classes: &[ClassFile], place: (ClassId, u16)) -> &[u8]
    ensures { result.now ≡ (texts_at Method classes.now place).descriptor }
{
    match classes.get(place.0.0 as usize) {
        Some(class) => descriptor_of(class, place.1),
        None => &[],
    }
}

fn final_byte(bytes: &[u8]) -> Option<u8>
    ensures { result ≡ slice_get bytes.now (length bytes.now - 1) }
{
    match bytes.last() {
        Some(b) => Some(*b),
        None => None,
    }
}

// Whether a descriptor ends as that of a method without a result.
fn is_void(descriptor: &[u8]) -> bool
    ensures { IsTrue result ↔ (slice_get descriptor.now (length descriptor.now - 1) ≡ Some 86) }
{
    match final_byte(descriptor) {
        Some(b) => b == b'V',
        None => false,
    }
}

/// Whether the method of this number has a result (JVMS SE 7, 4.3.3).
pub fn is_answering(h: &Hierarchy, m: MethodId) -> bool
    ensures { (p : Program) → p.classes ≡ h.now → IsReadProgram p → IsProgramOfCode p → IsTrue result ↔ IsAnswering p m }
{
    match place_of(h.method_places(), m) {
        Some(place) => !is_void(descriptor_at(h.classes(), place)),
        None => false,
    }
}
