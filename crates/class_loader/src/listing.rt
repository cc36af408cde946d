// The bodies of methods, by number.
ghost use Rattle.std.specs.Prelude.{◌≡◌, ◌<◌, ◌^◌, ℕ, All, IfOk, OnOk, Some, length, map, slice_get};
ghost use Rattle.slicer_ids.specs.declared.ids.ClassId.{ClassId};
ghost use Rattle.class_form.specs.Classes.{IsClass, AreInOrder};
ghost use Rattle.class_form.specs.Numbers.{AreMethods};
ghost use Rattle.class_form.specs.declared.class_file.Member.{Member};
ghost use Rattle.body_form.specs.Bodies.{IsBodyOf};
ghost use Rattle.hierarchy.specs.Places.{declared_at};
ghost use Rattle.body_rules.specs.Methods.{IsCoded};
ghost use Rattle.class_loader.specs.Sound.{IsSoundClass, AreBodiesOf};
ghost use Rattle.class_loader.specs.Below.{AreBodiesBelow, AddsCode, AddsBody, AddsBodyAt};

use crate::code::code_of;
use class_form::body::Body;
use class_form::class_file::{ClassFile, CodeBody};
use hierarchy::Hierarchy;
use method_body::read_body;
use slicer_ids::ids::{ClassId, MethodId, NoMemory};
use std::alloc::Global;

/// The body of the code of each method of a hierarchy that has code, in order of method: with the hierarchy's classes, methods
/// and fields they make a program. The error is want of memory; a hierarchy with 2^32 methods has it too.
///
/// Takes the time of reading each code (`method_body::read_body`).
pub fn bodies(alloc: Global, h: &Hierarchy) -> Result<Vec<Body>, NoMemory>
    requires { All IsSoundClass h.now }
    ensures { IfOk result (λ v. AreBodiesOf h.now v.items) }
{
    with_places(alloc, h.classes(), h.method_places())
}

fn with_places(
    alloc: Global,
    classes: &[ClassFile],
    places: &[(ClassId, u16)],
) -> Result<Vec<Body>, NoMemory>
    requires ordered { AreInOrder classes.now }
    requires sound { All IsSoundClass classes.now }
    requires methods { AreMethods classes.now (map declared_at places.now) }
    ensures { IfOk result (λ v. AreBodiesOf classes.now v.items) }
{
    if places.len() >= 0x1_0000_0000 {
        return Err(NoMemory);
    }
    let all = listed(alloc, classes, places)?;
    Ok(all)
}

fn listed(
    alloc: Global,
    classes: &[ClassFile],
    places: &[(ClassId, u16)],
) -> Result<Vec<Body>, NoMemory>
    requires few { length places.now < 2 ^ 32 }
    requires sound { All IsSoundClass classes.now }
    requires methods { AreMethods classes.now (map declared_at places.now) }
    ensures { IfOk result (λ v. AreBodiesBelow classes.now (map declared_at places.now) v.items (length places.now)) }
{
    let mut all = Vec::new(alloc);
    for number in 0..places.len() {
        add_body_at(alloc, classes, places, number, &mut all)?;
    }
    Ok(all)
}

// Adds the body of the method of a number, where it has code.
fn add_body_at(
    alloc: Global,
    classes: &[ClassFile],
    places: &[(ClassId, u16)],
    number: usize,
    all: &mut Vec<Body>,
) -> Result<(), NoMemory>
    requires few { length places.now < 2 ^ 32 }
    requires sound { All IsSoundClass classes.now }
    requires methods { AreMethods classes.now (map declared_at places.now) }
    requires number { number < length places.now }
    ensures { OnOk result (AddsBodyAt classes.now places.now number all.old.items all.new.items) }
{
    let place = place_at(places, number);
    let class = class_at(classes, places, number);
    let method = MethodId(number as u32);
    add_body(alloc, class, place.1 as usize, method, all)?;
    Ok(())
}

fn place_at(places: &[(ClassId, u16)], number: usize) -> (ClassId, u16)
    requires { number < length places.now }
    ensures { slice_get places.now number ≡ Some result }
{
    places[number]
}

// The class of the method of a number.
fn class_at<'a>(classes: &'a [ClassFile], places: &[(ClassId, u16)], number: usize) -> &'a ClassFile
    requires methods { AreMethods classes.now (map declared_at places.now) }
    requires number { number < length places.now }
    ensures { (p : ClassId × ℕ) → slice_get places.now number ≡ Some p → IsClass classes.now p.0.0 result.now }
{
    let place = place_at(places, number);
    &classes[place.0.0 as usize]
}

// Adds the body of the method at a place of a class, where it has code.
fn add_body(
    alloc: Global,
    class: &ClassFile,
    place: usize,
    number: MethodId,
    all: &mut Vec<Body>,
) -> Result<(), NoMemory>
    requires class { IsSoundClass class.now }
    requires place { place < length class.now.methods }
    ensures { OnOk result (AddsBody class.now place number all.old.items all.new.items) }
{
    match code_of(&class.methods.items()[place]) {
        Some(code) => add_code(alloc, class, place, number, code, all),
        None => Ok(()),
    }
}

// Adds the body of the code of the method at a place, which is this.
fn add_code(
    alloc: Global,
    class: &ClassFile,
    place: usize,
    number: MethodId,
    code: &CodeBody,
    all: &mut Vec<Body>,
) -> Result<(), NoMemory>
    requires class { IsSoundClass class.now }
    requires place { place < length class.now.methods }
    requires code { (m : Member) × IsCoded class.now place m code.now }
    ensures { OnOk result (AddsCode class.now place number code.now all.old.items all.new.items) }
{
    let body = body_of(alloc, class, place, number, code)?;
    all.push(body)?;
    Ok(())
}

// The body of the code of the method at a place, which is this.
fn body_of(
    alloc: Global,
    class: &ClassFile,
    place: usize,
    number: MethodId,
    code: &CodeBody,
) -> Result<Body, NoMemory>
    requires class { IsSoundClass class.now }
    requires place { place < length class.now.methods }
    requires code { (m : Member) × IsCoded class.now place m code.now }
    ensures { IfOk result (λ b. (m : Member) × IsCoded class.now place m code.now × IsBodyOf class.now.pool number m code.now b) }
{
    let method = &class.methods.items()[place];
    // The code has a body, so that nothing but memory can be wanting.
    match read_body(alloc, number, &class.pool, method, code) {
        Ok(body) => Ok(body),
        Err(_) => Err(NoMemory),
    }
}
