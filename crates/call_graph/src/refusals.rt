// The first statement that is reached and refused.
ghost use Rattle.std.specs.Prelude.{◌≡◌, ◌↔◌, ◌<◌, false, All, Some, Contains, IsTrue, length, map, slice_get};
ghost use Rattle.slicer_ids.specs.declared.ids.MethodId.{MethodId};
ghost use Rattle.class_form.specs.declared.class_file.Attribute.{Attribute};
ghost use Rattle.class_form.specs.declared.class_file.CodeBody.{CodeBody};
ghost use Rattle.class_form.specs.declared.class_file.Content.TheVariants.{Code};
ghost use Rattle.class_form.specs.declared.class_file.Member.{Member};
ghost use Rattle.dep_form.specs.Constraints.{IsCallSite};
ghost use Rattle.dep_form.specs.Solutions.{IsSolutionOf};
ghost use Rattle.class_form.specs.ClassRules.{IsClassFile};
ghost use Rattle.hierarchy.specs.Places.{declared_at};
ghost use Rattle.program_form.specs.Programs.{Program};
ghost use Rattle.program_form.specs.Systems.{IsSystemOf};
ghost use Rattle.program_code.specs.Codes.{IsProgramOfCode};
ghost use Rattle.call_graph.specs.Refusals.{IsFirst, IsRefused, RefusedBefore, rank_of};
ghost use Rattle.call_graph.specs.ByNumber.{HasByteAt, HasNativeFlag, IsDynamicAt, IsDynamicIn, IsFirstOf, IsKind, IsLeastKind, RefusedBy, RefusedBySome};

use class_form::class_file::{Attribute, ClassFile, Content};
use dep_form::call_site::CallSite;
use dep_form::solution::Solution;
use dep_form::system::System;
use hierarchy::Hierarchy;
use slicer_ids::ids::{ClassId, MethodId, Statement};

/// Why a statement is refused.
#[derive(Clone, Copy, PartialEq, Eq, Debug)]
pub enum RefusedKind {
    /// It may call a native method of a class of the folder.
    Native,
    /// It is an invokedynamic (JVMS SE 7, 6.5).
    Dynamic,
    /// It calls a method of reflection; the number of the rule.
    Reflection(u8),
}

/// A statement that is refused.
#[derive(Clone, Copy, PartialEq, Eq, Debug)]
pub struct Refused {
    pub kind: RefusedKind,
    pub place: Statement,
}

// The order of kinds.
fn rank_of(kind: RefusedKind) -> u16
    ensures { result ≡ rank_of kind }
{
    match kind {
        RefusedKind::Native => 0,
        RefusedKind::Dynamic => 1,
        RefusedKind::Reflection(number) => number as u16 + 2,
    }
}

// By method, program counter and kind.
fn is_before(a: Refused, b: Refused) -> bool
    ensures { IsTrue result ↔ RefusedBefore a b }
{
    if a.place.method.0 != b.place.method.0 {
        return a.place.method.0 < b.place.method.0;
    }
    if a.place.pc != b.place.pc {
        return a.place.pc < b.place.pc;
    }
    rank_of(a.kind) < rank_of(b.kind)
}

fn first_of(a: Option<Refused>, b: Option<Refused>) -> Option<Refused>
    ensures { IsFirstOf a b result }
{
    let Some(one) = a else {
        return b;
    };
    let Some(other) = b else {
        return a;
    };
    if is_before(other, one) { b } else { a }
}

fn is_native(system: &System, m: MethodId) -> bool
    ensures { IsTrue result ↔ HasNativeFlag system.now m }
{
    match system.methods.items().get(m.0 as usize) {
        None => false,
        Some(method) => method.native,
    }
}

fn has_native(system: &System, targets: &[MethodId]) -> bool
    ensures { IsTrue result ↔ ((m : MethodId) × Contains targets.now m × HasNativeFlag system.now m) }
{
    for target in targets {
        if is_native(system, *target) {
            return true;
        }
    }
    false
}

fn has_byte(content: &Content, pc: u16, op: u8) -> bool
    ensures { IsTrue result ↔ ((c : CodeBody) × (content.now ≡ Code c) × (slice_get c.code pc ≡ Some op)) }
{
    match content {
        Content::Other(_) => false,
        Content::Code(body) => match body.code.bytes().get(pc as usize) {
            None => false,
            Some(byte) => *byte == op,
        },
    }
}

fn has_byte_among(attributes: &[Attribute], pc: u16, op: u8) -> bool
    ensures { IsTrue result ↔ ((a : Attribute) × Contains attributes.now a × HasByteAt pc op a) }
{
    for attribute in attributes {
        if has_byte(&attribute.content, pc, op) {
            return true;
        }
    }
    false
}

fn is_dynamic_in(class: &ClassFile, index: u16, pc: u16) -> bool
    ensures { IsTrue result ↔ ((m : Member) × (slice_get class.now.methods index ≡ Some m) × ((a : Attribute) × Contains m.attributes a × HasByteAt pc 186 a)) }
{
    match class.methods.items().get(index as usize) {
        None => false,
        Some(method) => has_byte_among(method.attributes.items(), pc, 186),
    }
}

fn is_dynamic_at(classes: &[ClassFile], place: (ClassId, u16), pc: u16) -> bool
    ensures { IsTrue result ↔ IsDynamicIn classes.now (declared_at place) pc }
{
    match classes.get(place.0.0 as usize) {
        None => false,
        Some(class) => is_dynamic_in(class, place.1, pc),
    }
}

// Whether the instruction of a statement is invokedynamic.
fn is_dynamic(classes: &[ClassFile], places: &[(ClassId, u16)], t: Statement) -> bool
    ensures { IsTrue result ↔ IsDynamicAt classes.now (map declared_at places.now) t }
{
    match places.get(t.method.0 as usize) {
        None => false,
        Some(place) => is_dynamic_at(classes, *place, t.pc),
    }
}

fn reflection_of(refused: Option<u8>) -> Option<RefusedKind>
    ensures { IsLeastKind (IsKind false false refused) result }
{
    match refused {
        None => None,
        Some(number) => Some(RefusedKind::Reflection(number)),
    }
}

// The least kind by which a call at a statement is refused.
fn kind_of(native: bool, dynamic: bool, refused: Option<u8>) -> Option<RefusedKind>
    ensures { IsLeastKind (IsKind native dynamic refused) result }
{
    if native {
        Some(RefusedKind::Native)
    } else if dynamic {
        Some(RefusedKind::Dynamic)
    } else {
        reflection_of(refused)
    }
}

fn refused_at(place: Statement, native: bool, dynamic: bool, refused: Option<u8>) -> Option<Refused>
    ensures { IsFirst (λ r. (r.place ≡ place) × IsKind native dynamic refused r.kind) result }
{
    match kind_of(native, dynamic, refused) {
        None => None,
        Some(kind) => Some(Refused { kind, place }),
    }
}

fn targets_at(solution: &Solution, number: usize) -> &[MethodId]
    requires { number < length solution.now.targets }
    ensures { slice_get solution.now.targets number ≡ Some result.now }
{
    solution.targets.items()[number].items()
}

fn is_reached(solution: &Solution, m: MethodId) -> bool
    requires { m.0 < length solution.now.reached }
    ensures { slice_get solution.now.reached m.0 ≡ Some result }
{
    solution.reached(m)
}

/// The classes of a folder, where their methods stand, and what was found of them.
#[derive(Clone, Copy)]
struct Scene<'a> {
    classes: &'a [ClassFile],
    places: &'a [(ClassId, u16)],
    system: &'a System,
    solution: &'a Solution,
}

// The first refusal of the call of a number, at its place.
fn refused_there(
    scene: &Scene<'_>,
    number: usize,
    call: &CallSite,
    place: Statement,
) -> Option<Refused>
    requires solved { IsSolutionOf scene.now.system.now scene.now.solution.now }
    requires site { IsCallSite scene.now.system.now (record { 0 = number }) call.now }
    requires place { call.now.place ≡ Some place }
    ensures { IsFirst (RefusedBy scene.now.classes.now (map declared_at scene.now.places.now) scene.now.system.now (record { 0 = number })) result }
{
    if !is_reached(scene.solution, place.method) {
        return None;
    }
    let native = has_native(scene.system, targets_at(scene.solution, number));
    let dynamic = is_dynamic(scene.classes, scene.places, place);
    refused_at(place, native, dynamic, call.refused)
}

fn refused_call(scene: &Scene<'_>, number: usize, call: &CallSite) -> Option<Refused>
    requires solved { IsSolutionOf scene.now.system.now scene.now.solution.now }
    requires site { IsCallSite scene.now.system.now (record { 0 = number }) call.now }
    ensures { IsFirst (RefusedBy scene.now.classes.now (map declared_at scene.now.places.now) scene.now.system.now (record { 0 = number })) result }
{
    match call.place {
        None => None,
        Some(place) => refused_there(scene, number, call, place),
    }
}

fn call_at(system: &System, number: usize) -> &CallSite
    requires { number < length system.now.calls }
    ensures { IsCallSite system.now (record { 0 = number }) result.now }
{
    &system.calls.items()[number]
}

fn first_refused(scene: &Scene<'_>) -> Option<Refused>
    requires { IsSolutionOf scene.now.system.now scene.now.solution.now }
    ensures { IsFirst (RefusedBySome scene.now.classes.now (map declared_at scene.now.places.now) scene.now.system.now) result }
{
    let mut first = None;
    for number in 0..scene.system.calls.items().len() {
        let next = refused_call(scene, number, call_at(scene.system, number));
        first = first_of(first, next);
    }
    first
}

/// The first statement of a reached method, by method and program counter, that is refused: a call that may go to a native method
/// of a class of the folder, an invokedynamic, or a call of reflection; of several reasons at one statement the first of these.
/// Takes no memory, and looks at each call once.
///
/// It is said of each program whose system is handed in, where the classes keep the rules of class files and the bodies are those of
/// their code.
pub fn refused_reached(h: &Hierarchy, s: &System, sol: &Solution) -> Option<Refused>
    requires { IsSolutionOf s.now sol.now }
    ensures { (p : Program) → p.classes ≡ h.now → All IsClassFile p.classes → IsProgramOfCode p → IsSystemOf p s.now → IsFirst (IsRefused p) result }
{
    let scene = Scene {
        classes: h.classes(),
        places: h.method_places(),
        system: s,
        solution: sol,
    };
    first_refused(&scene)
}
