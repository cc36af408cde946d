// Constraints of calls.
ghost use Rattle.std.specs.Prelude.{◌≡◌, ◌≢◌, ◌⊎◌, ◌↔◌, ℕ, List, Some, None, Contains, IsTrue, IfOk, slice_get};
ghost use Rattle.class_form.specs.Opcodes.{IsCall, IsStaticCall, IsSpecialCall, IsVirtualCall};
ghost use Rattle.class_form.specs.Classes.{Declared, IsClass, IsProperSuper, HasSuperFlag, IsAbstract};
ghost use Rattle.class_form.specs.Resolution.{FindsMethod, SpecialCalls, CallsSuper, init_name};
ghost use Rattle.class_form.specs.declared.class_file.ClassFile.{ClassFile};
ghost use Rattle.class_form.specs.declared.class_file.Member.{Member};
ghost use Rattle.slicer_ids.specs.declared.ids.ClassId.{ClassId};
ghost use Rattle.slicer_ids.specs.declared.ids.MethodId.{MethodId};
ghost use Rattle.dep_form.specs.declared.system.System.{System};
ghost use Rattle.dep_form.specs.Orders.{statement_cmp};
ghost use Rattle.hierarchy.specs.Places.{declared_at};
ghost use Rattle.program_form.specs.Programs.{Program, ClassOf};
ghost use Rattle.program_form.specs.Statements.{NamesMember};
ghost use Rattle.program_form.specs.Facts.{GoesTo, IsNotFound};
ghost use Rattle.program_form.specs.Systems.{CallNumber};
ghost use Rattle.constraint_form.specs.Variables.{Meaning};
ghost use Rattle.constraint_form.specs.Signatures.{SignatureNumber};
ghost use Rattle.signature_tables.specs.Programs.{IsOfClasses};
ghost use Rattle.constraint_rules.specs.One.{IsOne, IsFound};
ghost use Rattle.constraint_rules.specs.Forms.{OutsideOf, VirtualOf};
ghost use Rattle.constraint_rules.specs.Settings.{IsSetting, IsPlaced, AreReady, place_of};
ghost use Rattle.constraint_rules.specs.Statements.{Calling, GoingOutside, Selecting, IsSignatureAt};
ghost use Rattle.constraint_rules.specs.Naming.{key_in};
ghost use Rattle.constraint_rules.specs.Calls.{IsAbstractAt, IsAbstractNumber, IsConcreteNumber, IsNumberOf, IsMethodFound, IsCalledBy};

use crate::forms::direct_of;
use crate::naming::{Reference, named_member};
use crate::numbers::statement_of;
use crate::supers::{super_of, upwards};
use crate::tables::{Reachable, Tables};
use class_form::class_file::ClassFile;
use dep_form::rules::{Rule, Var};
use hierarchy::Hierarchy;
use signature_tables::texts;
use slicer_ids::ids::{CallId, ClassId, MethodId, NoMemory, Statement};
use std::alloc::Global;
use std::cmp::Ordering;

// How the statement of an entry stands to another.
fn compare(entry: &(Statement, Var), place: Statement) -> Ordering
    ensures { result ≡ statement_cmp entry.now.0 place }
{
    entry.0.cmp(&place)
}

/// The number of the statement's call.
pub(crate) fn call_number(t: &Tables<'_>, x: &Reachable<'_>) -> Option<CallId>
    requires { AreReady t.now }
    ensures { (p : Program) (s : System) (names : List Meaning) → IsSetting t.now p s names → IsOne (CallNumber s (place_of x.now)) result }
{
    let place = statement_of(x);
    let exceptions = t.variables.exceptions.items();
    match exceptions.binary_search_by(|entry| compare(entry, place)) {
        Ok(k) => Some(CallId(k as u32)),
        Err(_) => None,
    }
}

// Whether flags have the one of abstract methods (JVMS SE 7, table 4.6-A).
fn has_abstract_flag(flags: u16) -> bool
    ensures { IsTrue result ↔ IsAbstract flags }
{
    flags & 0x0400 != 0
}

// Whether the method at a place of a class file is abstract.
fn is_abstract_in(file: &ClassFile, index: u16) -> bool
    ensures { IsTrue result ↔ ((m : Member) × (slice_get file.now.methods index ≡ Some m) × IsAbstract m.flags) }
{
    match file.methods.items().get(index as usize) {
        None => false,
        Some(member) => has_abstract_flag(member.flags),
    }
}

// .. at a place of class files.
fn is_abstract_at(classes: &[ClassFile], place: (ClassId, u16)) -> bool
    ensures { IsTrue result ↔ IsAbstractAt classes.now (declared_at place) }
{
    match classes.get(place.0.0 as usize) {
        None => false,
        Some(file) => is_abstract_in(file, place.1),
    }
}

// Whether the folder has the method of this number, and that is abstract.
fn is_abstract(h: &Hierarchy, method: MethodId) -> bool
    ensures { (p : Program) → IsOfClasses h.now p → IsTrue result ↔ IsAbstractNumber p method }
{
    match h.method_places().get(method.0 as usize) {
        Some(place) => is_abstract_at(h.classes(), *place),
        None => false,
    }
}

// The method, where it isn't abstract.
fn concrete(h: &Hierarchy, method: MethodId) -> Option<MethodId>
    ensures { (p : Program) (m : MethodId) → IsOfClasses h.now p → (result ≡ Some m) ↔ ((method ≡ m) × IsConcreteNumber p m) }
{
    if is_abstract(h, method) {
        return None;
    }
    Some(method)
}

// The method that was found, where it isn't abstract.
fn concrete_of(h: &Hierarchy, found: Option<MethodId>) -> Option<MethodId>
    ensures { (p : Program) (m : MethodId) → IsOfClasses h.now p → (result ≡ Some m) ↔ ((found ≡ Some m) × IsConcreteNumber p m) }
{
    match found {
        Some(method) => concrete(h, method),
        None => None,
    }
}

/// The class of a method.
pub(crate) fn class_of(h: &Hierarchy, method: MethodId) -> Option<ClassId>
    ensures { (p : Program) → IsOfClasses h.now p → IsOne (λ (c : ClassId). (d : Declared) × (slice_get p.methods method.0 ≡ Some d) × (d.class ≡ c.0)) result }
{
    match h.method_places().get(method.0 as usize) {
        Some(place) => Some(place.0),
        None => None,
    }
}

/// The method that a reference leads to.
pub(crate) fn find(h: &Hierarchy, r: Reference<'_>) -> Option<MethodId>
    ensures { (p : Program) → IsOfClasses h.now p → IsOne (IsNumberOf p (IsMethodFound p (key_in r.entry))) result }
{
    h.find_method(r.class, r.name, r.descriptor)
}

// Whether a class is among some.
fn is_among(classes: &[ClassId], class: ClassId) -> bool
    ensures { IsTrue result ↔ Contains classes.now class }
{
    classes.contains(&class)
}

// Whether a class has the other one as a superclass that isn't itself.
fn has_super(alloc: Global, h: &Hierarchy, class: ClassId, above: ClassId) -> Result<bool, NoMemory>
    ensures { IfOk result (λ yes. (p : Program) → IsOfClasses h.now p → IsTrue yes ↔ IsProperSuper p.classes class.0 above.0) }
{
    let supers = upwards(alloc, h, super_of(h, class))?;
    Ok(is_among(supers.as_slice(), above))
}

// Whether flags have the one for special calls of a superclass's methods (JVMS SE 7, table 4.1-A).
fn has_super_flag(flags: u16) -> bool
    ensures { IsTrue result ↔ HasSuperFlag flags }
{
    flags & 0x0020 != 0
}

// Whether the name is that of constructors.
fn is_init(name: &[u8]) -> bool
    ensures { IsTrue result ↔ (name.now ≡ init_name) }
{
    name == b"<init>".as_slice()
}

// Whether the file of a class has the flag that its special calls may be of a superclass's methods, and the name is no constructor's.
fn may_call_super(file: &ClassFile, name: &[u8]) -> bool
    ensures { IsTrue result ↔ (HasSuperFlag file.now.flags × (name.now ≢ init_name)) }
{
    has_super_flag(file.flags) && !is_init(name)
}

// Whether an invokespecial of a class calls a superclass's method, where it finds this one (JVMS SE 7, 6.5).
fn calls_super(
    alloc: Global,
    h: &Hierarchy,
    file: &ClassFile,
    current: ClassId,
    r: Reference<'_>,
    found: MethodId,
) -> Result<bool, NoMemory>
    ensures { IfOk result (λ yes. (p : Program) (d : Declared) → IsOfClasses h.now p → IsClass p.classes current.0 file.now → slice_get p.methods found.0 ≡ Some d → IsTrue yes ↔ CallsSuper p.classes current.0 (key_in r.entry) d) }
{
    if !may_call_super(file, r.name) {
        return Ok(false);
    }
    match class_of(h, found) {
        Some(class) => has_super(alloc, h, current, class),
        None => Ok(false),
    }
}

// The method that a search from the direct superclass finds.
fn find_above(h: &Hierarchy, file: &ClassFile, r: Reference<'_>) -> Option<MethodId>
    ensures { (p : Program) (c : ℕ) (f : Declared) → IsOfClasses h.now p → IsClass p.classes c file.now → CallsSuper p.classes c (key_in r.entry) f → IsMethodFound p (key_in r.entry) f → IsOne (IsNumberOf p (SpecialCalls p.classes c (key_in r.entry))) result }
{
    match file.pool.class(file.super_class) {
        Some(class) => h.find_method(class, r.name, r.descriptor),
        None => None,
    }
}

// The method that an invokespecial calls, where it finds this one.
fn special_of(
    alloc: Global,
    h: &Hierarchy,
    file: &ClassFile,
    current: ClassId,
    r: Reference<'_>,
    found: MethodId,
) -> Result<Option<MethodId>, NoMemory>
    ensures { IfOk result (λ o. (p : Program) → IsOfClasses h.now p → IsClass p.classes current.0 file.now → IsNumberOf p (IsMethodFound p (key_in r.entry)) found → IsOne (IsNumberOf p (SpecialCalls p.classes current.0 (key_in r.entry))) o) }
{
    if calls_super(alloc, h, file, current, r, found)? {
        Ok(find_above(h, file, r))
    } else {
        Ok(Some(found))
    }
}

// The method that an invokespecial calls (JVMS SE 7, 6.5).
fn special(
    alloc: Global,
    h: &Hierarchy,
    file: &ClassFile,
    current: ClassId,
    r: Reference<'_>,
) -> Result<Option<MethodId>, NoMemory>
    ensures { IfOk result (λ o. (p : Program) → IsOfClasses h.now p → IsClass p.classes current.0 file.now → IsOne (IsNumberOf p (SpecialCalls p.classes current.0 (key_in r.entry))) o) }
{
    match find(h, r) {
        Some(found) => special_of(alloc, h, file, current, r, found),
        None => Ok(None),
    }
}

// The method that the instruction calls, where it is a special call.
fn special_at(
    alloc: Global,
    t: &Tables<'_>,
    x: &Reachable<'_>,
    r: Reference<'_>,
) -> Result<Option<MethodId>, NoMemory>
    ensures { IfOk result (λ o. (p : Program) (s : System) (names : List Meaning) → IsSetting t.now p s names → IsPlaced p x.now → IsOne (IsNumberOf p (λ d. (c : ℕ) × (k : ClassFile) × ClassOf p x.now.body.now.method c k × SpecialCalls p.classes c (key_in r.entry) d)) o) }
{
    match class_of(t.h, x.body.method) {
        Some(current) => special(alloc, t.h, x.file, current, r),
        None => Ok(None),
    }
}

fn is_static_call(op: u8) -> bool
    ensures { IsTrue result ↔ IsStaticCall op }
{
    op == 184
}

fn is_special_call(op: u8) -> bool
    ensures { IsTrue result ↔ IsSpecialCall op }
{
    op == 183
}

// The method that the instruction calls by this reference, where it is a static or special call.
fn found_by(
    alloc: Global,
    t: &Tables<'_>,
    x: &Reachable<'_>,
    r: Reference<'_>,
) -> Result<Option<MethodId>, NoMemory>
    ensures { IfOk result (λ o. (p : Program) (s : System) (names : List Meaning) → IsSetting t.now p s names → IsPlaced p x.now → NamesMember p (place_of x.now) (key_in r.entry) → IsOne (IsNumberOf p (IsCalledBy p (place_of x.now))) o) }
{
    if is_static_call(x.instr.op) {
        return Ok(find(t.h, r));
    }
    if is_special_call(x.instr.op) {
        return special_at(alloc, t, x, r);
    }
    Ok(None)
}

// The method that the instruction calls, where it is a static or special call, abstract or not.
fn called(alloc: Global, t: &Tables<'_>, x: &Reachable<'_>) -> Result<Option<MethodId>, NoMemory>
    ensures { IfOk result (λ o. (p : Program) (s : System) (names : List Meaning) → IsSetting t.now p s names → IsPlaced p x.now → IsOne (IsNumberOf p (IsCalledBy p (place_of x.now))) o) }
{
    match named_member(x) {
        Some(r) => found_by(alloc, t, x, r),
        None => Ok(None),
    }
}

/// The method of the folder to which a static or special call goes.
pub(crate) fn target(
    alloc: Global,
    t: &Tables<'_>,
    x: &Reachable<'_>,
) -> Result<Option<MethodId>, NoMemory>
    ensures { IfOk result (λ found. (p : Program) (s : System) (names : List Meaning) → IsSetting t.now p s names → IsPlaced p x.now → IsOne (GoesTo p (place_of x.now)) found) }
{
    let found = called(alloc, t, x)?;
    Ok(concrete_of(t.h, found))
}

fn is_call(op: u8) -> bool
    ensures { IsTrue result ↔ IsCall op }
{
    matches!(op, 182..=186)
}

/// That a static or special call goes to the method that it finds.
pub(crate) fn calling(
    alloc: Global,
    t: &Tables<'_>,
    x: &Reachable<'_>,
) -> Result<Option<Rule>, NoMemory>
    requires { AreReady t.now }
    ensures { IfOk result (λ rule. (p : Program) (s : System) (names : List Meaning) → IsSetting t.now p s names → IsPlaced p x.now → IsOne (Calling p s names (place_of x.now)) rule) }
{
    if !is_call(x.instr.op) {
        return Ok(None);
    }
    let found = target(alloc, t, x)?;
    Ok(direct_of(call_number(t, x), found))
}

fn is_direct(op: u8) -> bool
    ensures { IsTrue result ↔ (IsStaticCall op ⊎ IsSpecialCall op) }
{
    op == 184 || op == 183
}

fn is_virtual(op: u8) -> bool
    ensures { IsTrue result ↔ IsVirtualCall op }
{
    op == 182 || op == 185
}

// Whether nothing was found.
fn is_none(found: Option<MethodId>) -> bool
    ensures { IsTrue result ↔ (found ≡ None) }
{
    match found {
        Some(_) => false,
        None => true,
    }
}

// Whether the search for a reference finds no method.
fn finds_none(h: &Hierarchy, r: Reference<'_>) -> bool
    ensures { (p : Program) → IsOfClasses h.now p → IsTrue result ↔ FindsMethod p.classes (key_in r.entry) None }
{
    is_none(h.find_method(r.class, r.name, r.descriptor))
}

// Whether the method that the instruction names isn't found.
fn is_not_found(t: &Tables<'_>, x: &Reachable<'_>) -> bool
    ensures { (p : Program) (s : System) (names : List Meaning) → IsSetting t.now p s names → IsPlaced p x.now → IsTrue result ↔ IsNotFound p (place_of x.now) }
{
    match named_member(x) {
        Some(r) => finds_none(t.h, r),
        None => false,
    }
}

// That a call goes outside.
fn outside_of(call: Option<CallId>) -> Option<Rule>
    ensures { IsOne (OutsideOf (IsFound call)) result }
{
    match call {
        Some(call) => Some(Rule::OutsideDirect { call }),
        None => None,
    }
}

/// That a static or special call goes outside, where its method isn't found.
pub(crate) fn going_outside(t: &Tables<'_>, x: &Reachable<'_>) -> Option<Rule>
    requires { AreReady t.now }
    ensures { (p : Program) (s : System) (names : List Meaning) → IsSetting t.now p s names → IsPlaced p x.now → IsOne (GoingOutside p s names (place_of x.now)) result }
{
    if !is_direct(x.instr.op) {
        return None;
    }
    if !is_not_found(t, x) {
        return None;
    }
    outside_of(call_number(t, x))
}

// The number of the name and descriptor of the method that a virtual call names.
fn signature(t: &Tables<'_>, x: &Reachable<'_>) -> Option<u32>
    requires { AreReady t.now }
    ensures { (p : Program) (s : System) (names : List Meaning) → IsSetting t.now p s names → IsPlaced p x.now → IsOne (IsSignatureAt p (place_of x.now)) result }
{
    match named_member(x) {
        Some(r) => signature_of(t, r),
        None => None,
    }
}

// .. of this name and descriptor.
fn signature_of(t: &Tables<'_>, r: Reference<'_>) -> Option<u32>
    requires { AreReady t.now }
    ensures { (p : Program) (s : System) (names : List Meaning) → IsSetting t.now p s names → IsOne (SignatureNumber p (key_in r.entry)) result }
{
    match texts::place_of(t.signatures, r.name, r.descriptor) {
        Some(place) => Some(place as u32),
        None => None,
    }
}

// That a call goes to what the class of its receiver selects.
fn virtual_of(call: Option<CallId>, signature: Option<u32>) -> Option<Rule>
    ensures { IsOne (VirtualOf (IsFound call) (IsFound signature)) result }
{
    let Some(call) = call else {
        return None;
    };
    let Some(signature) = signature else {
        return None;
    };
    Some(Rule::Virtual { call, signature })
}

/// That a virtual call goes to what the class of its receiver selects.
pub(crate) fn selecting(t: &Tables<'_>, x: &Reachable<'_>) -> Option<Rule>
    requires { AreReady t.now }
    ensures { (p : Program) (s : System) (names : List Meaning) → IsSetting t.now p s names → IsPlaced p x.now → IsOne (Selecting p s names (place_of x.now)) result }
{
    if !is_virtual(x.instr.op) {
        return None;
    }
    virtual_of(call_number(t, x), signature(t, x))
}
