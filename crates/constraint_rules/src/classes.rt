// Constraints of classes that are initialized.
ghost use Rattle.std.specs.Prelude.{◌≡◌, ◌⊎◌, ◌↔◌, ◌≤◌, List, Some, IsTrue, OnOk, AllPairs, Contains, length, true, false};
ghost use Rattle.std.specs.List.Sorted.{IsPartitionPoint};
ghost use Rattle.std.proofs.Common.{ltb, leb};
ghost use Rattle.worklists.specs.Growth.{Grows};
ghost use Rattle.class_form.specs.Opcodes.{IsNew, IsStaticCall, IsGetStatic, IsPutStatic};
ghost use Rattle.slicer_ids.specs.declared.ids.ClassId.{ClassId};
ghost use Rattle.slicer_ids.specs.declared.ids.FieldId.{FieldId};
ghost use Rattle.slicer_ids.specs.declared.ids.MethodId.{MethodId};
ghost use Rattle.dep_form.specs.declared.system.System.{System};
ghost use Rattle.program_form.specs.Programs.{Program, Initializes};
ghost use Rattle.program_form.specs.Facts.{NeedsClass};
ghost use Rattle.constraint_form.specs.Variables.{Meaning};
ghost use Rattle.signature_tables.specs.Programs.{IsOfClasses};
ghost use Rattle.constraint_rules.specs.One.{IsOne};
ghost use Rattle.constraint_rules.specs.Forms.{EnterOf};
ghost use Rattle.constraint_rules.specs.Naming.{key_in};
ghost use Rattle.constraint_rules.specs.Needs.{IsClassOfField, IsClassFound, IsClassMade, IsClassOfStatic, IsClassCalled, IsListedOf, ComesBefore};
ghost use Rattle.constraint_rules.specs.Settings.{IsSetting, IsPlaced, AreReady, place_of};
ghost use Rattle.constraint_rules.specs.Statements.{Initializing};

use crate::calls::class_of;
use crate::forms::push_enter;
use crate::naming::{Reference, named_field, named_member};
use crate::supers::upwards;
use crate::tables::{Reachable, Tables};
use dep_form::rules::Rule;
use hierarchy::Hierarchy;
use slicer_ids::ids::{ClassId, FieldId, MethodId, NoMemory};
use std::alloc::Global;

fn is_new(op: u8) -> bool
    ensures { IsTrue result ↔ IsNew op }
{
    op == 187
}

fn is_static_field(op: u8) -> bool
    ensures { IsTrue result ↔ (IsGetStatic op ⊎ IsPutStatic op) }
{
    op == 178 || op == 179
}

fn is_static_call(op: u8) -> bool
    ensures { IsTrue result ↔ IsStaticCall op }
{
    op == 184
}

// The class that declares a field.
fn class_of_field(h: &Hierarchy, field: FieldId) -> Option<ClassId>
    ensures { (p : Program) → IsOfClasses h.now p → IsOne (IsClassOfField p field) result }
{
    match h.field_places().get(field.0 as usize) {
        Some(place) => Some(place.0),
        None => None,
    }
}

// The class that declares a field that was found.
fn class_of_found(h: &Hierarchy, found: Option<FieldId>) -> Option<ClassId>
    ensures { (p : Program) → IsOfClasses h.now p → IsOne (λ (c : ClassId). (f : FieldId) × (found ≡ Some f) × IsClassOfField p f c) result }
{
    match found {
        Some(field) => class_of_field(h, field),
        None => None,
    }
}

// The class of the static field that the instruction names.
fn class_of_static(t: &Tables<'_>, x: &Reachable<'_>) -> Option<ClassId>
    ensures { (p : Program) (s : System) (names : List Meaning) → IsSetting t.now p s names → IsPlaced p x.now → IsOne (IsClassOfStatic p (place_of x.now)) result }
{
    match named_field(t, x) {
        Some(found) => class_of_found(t.h, found),
        None => None,
    }
}

// The class of the method that the search for a reference finds.
fn class_found(h: &Hierarchy, r: Reference<'_>) -> Option<ClassId>
    ensures { (p : Program) → IsOfClasses h.now p → IsOne (IsClassFound p (key_in r.entry)) result }
{
    match h.find_method(r.class, r.name, r.descriptor) {
        Some(method) => class_of(h, method),
        None => None,
    }
}

// The class of the method that the instruction names.
fn class_called(t: &Tables<'_>, x: &Reachable<'_>) -> Option<ClassId>
    ensures { (p : Program) (s : System) (names : List Meaning) → IsSetting t.now p s names → IsPlaced p x.now → IsOne (IsClassCalled p (place_of x.now)) result }
{
    match named_member(x) {
        Some(r) => class_found(t.h, r),
        None => None,
    }
}

// The class that an instruction makes an object of.
fn class_made(t: &Tables<'_>, x: &Reachable<'_>) -> Option<ClassId>
    ensures { (p : Program) (s : System) (names : List Meaning) → IsSetting t.now p s names → IsPlaced p x.now → IsOne (IsClassMade p (place_of x.now)) result }
{
    match x.file.pool.class(x.instr.index) {
        Some(name) => t.h.find_class(name),
        None => None,
    }
}

/// The class that the instruction makes run its initializers.
pub(crate) fn needed(t: &Tables<'_>, x: &Reachable<'_>) -> Option<ClassId>
    ensures { (p : Program) (s : System) (names : List Meaning) → IsSetting t.now p s names → IsPlaced p x.now → IsOne (λ (c : ClassId). NeedsClass p (place_of x.now) c.0) result }
{
    if is_new(x.instr.op) {
        return class_made(t, x);
    }
    if is_static_field(x.instr.op) {
        return class_of_static(t, x);
    }
    if is_static_call(x.instr.op) {
        return class_called(t, x);
    }
    None
}

// How many initializers are of an earlier class.
fn count_before(initializers: &[(ClassId, MethodId)], class: ClassId) -> usize
    requires { AllPairs ComesBefore initializers.now }
    ensures bound { result ≤ length initializers.now }
    ensures point { IsPartitionPoint (λ (x : ClassId × MethodId). ltb x.0.0 class.0 ≡ true) (λ (x : ClassId × MethodId). ltb x.0.0 class.0 ≡ false) initializers.now result }
{
    initializers.partition_point(|entry| entry.0.0 < class.0)
}

// How many are of the class or an earlier one.
fn count_through(initializers: &[(ClassId, MethodId)], class: ClassId) -> usize
    requires { AllPairs ComesBefore initializers.now }
    ensures bound { result ≤ length initializers.now }
    ensures point { IsPartitionPoint (λ (x : ClassId × MethodId). leb x.0.0 class.0 ≡ true) (λ (x : ClassId × MethodId). leb x.0.0 class.0 ≡ false) initializers.now result }
{
    initializers.partition_point(|entry| entry.0.0 <= class.0)
}

// The initializers of a class, of those in order of their classes.
fn initializers_of(initializers: &[(ClassId, MethodId)], class: ClassId) -> &[(ClassId, MethodId)]
    requires { AllPairs ComesBefore initializers.now }
    ensures { (x : ClassId × MethodId) → Contains result.now x ↔ (Contains initializers.now x × (x.0.0 ≡ class.0)) }
{
    let low = count_before(initializers, class);
    let high = count_through(initializers, class);
    &initializers[low..high]
}

// Adds that initializers are reached.
fn push_all(initializers: &[(ClassId, MethodId)], rules: &mut Vec<Rule>) -> Result<(), NoMemory>
    ensures { OnOk result (Grows rules.old.items rules.new.items (EnterOf (λ m. (x : ClassId × MethodId) × Contains initializers.now x × (m ≡ x.1)))) }
{
    for entry in initializers {
        push_enter(entry.1, rules)?;
    }
    Ok(())
}

// Adds that the initializers of a class are reached.
fn push_of_class(
    initializers: &[(ClassId, MethodId)],
    class: ClassId,
    rules: &mut Vec<Rule>,
) -> Result<(), NoMemory>
    requires { AllPairs ComesBefore initializers.now }
    ensures { OnOk result (Grows rules.old.items rules.new.items (EnterOf (IsListedOf initializers.now class))) }
{
    push_all(initializers_of(initializers, class), rules)
}

// Adds that the initializers of classes are reached.
fn push_of_classes(
    initializers: &[(ClassId, MethodId)],
    classes: &[ClassId],
    rules: &mut Vec<Rule>,
) -> Result<(), NoMemory>
    requires { AllPairs ComesBefore initializers.now }
    ensures { OnOk result (Grows rules.old.items rules.new.items (EnterOf (λ m. (c : ClassId) × Contains classes.now c × IsListedOf initializers.now c m))) }
{
    for class in classes {
        push_of_class(initializers, *class, rules)?;
    }
    Ok(())
}

/// Adds that the initializers of a class and of its superclasses are reached, where there is a class.
pub(crate) fn push_initializers(
    alloc: Global,
    t: &Tables<'_>,
    class: Option<ClassId>,
    rules: &mut Vec<Rule>,
) -> Result<(), NoMemory>
    requires { AreReady t.now }
    ensures { (p : Program) (s : System) (names : List Meaning) → IsSetting t.now p s names → OnOk result (Grows rules.old.items rules.new.items (EnterOf (λ m. (c : ClassId) × (class ≡ Some c) × Initializes p c.0 m))) }
{
    let classes = upwards(alloc, t.h, class)?;
    push_of_classes(t.initializers, classes.as_slice(), rules)
}

/// Adds that the initializers are reached of the class that the instruction needs, and of its superclasses.
pub(crate) fn push_initializing(
    alloc: Global,
    t: &Tables<'_>,
    x: &Reachable<'_>,
    rules: &mut Vec<Rule>,
) -> Result<(), NoMemory>
    requires { AreReady t.now }
    ensures { (p : Program) (s : System) (names : List Meaning) → IsSetting t.now p s names → IsPlaced p x.now → OnOk result (Grows rules.old.items rules.new.items (Initializing p s names (place_of x.now))) }
{
    push_initializers(alloc, t, needed(t, x), rules)
}
