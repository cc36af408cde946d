// The constant that an instruction names.
ghost use Rattle.std.specs.Prelude.{◌≡◌, ◌≢◌, ◌↔◌, ◌<◌, ℕ, List, Some, None, IsTrue, IfOk, IfErr, MatchOption};
ghost use Rattle.class_form.specs.Opcodes.{IsCall, IsSpecialCall};
ghost use Rattle.class_form.specs.Pools.{class_at, named_at};
ghost use Rattle.class_form.specs.Resolution.{init_name, clinit_name};
ghost use Rattle.class_form.specs.Instructions.{FieldAt, CallAt, LeadsToType, NamesConstant, HasConstant, IsAllowed, brackets, is_of_kind, is_one_slot, is_two_slots, is_field, is_method, is_interface_method, is_dynamic, is_class, kind_of};
ghost use Rattle.class_form.specs.declared.code_error.CodeError.TheVariants.{NoMemory};
ghost use Rattle.class_form.specs.declared.opcode.ConstantKind.TheVariants.{Field, Method, Class};
ghost use Rattle.class_form.specs.declared.types.FieldType.{FieldType};
ghost use Rattle.class_form.specs.declared.types.MethodType.{MethodType};
ghost use Rattle.bytecode.specs.Parts.{Describes};

use crate::descriptors::{self, Described};
use crate::keys::brackets;
use class_form::code_error::CodeError;
use class_form::opcode::{ConstantKind, Form};
use class_form::pool::{Constant, Pool};
use class_form::types::{FieldType, MethodType};
use std::alloc::Global;

const NEW: u8 = 187;

const INVOKEVIRTUAL: u8 = 182;

const INVOKESPECIAL: u8 = 183;

const INVOKEDYNAMIC: u8 = 186;

/// The types of the constant that an instruction names; none where it may not name what is there.
pub(crate) fn described(
    alloc: Global,
    pool: &Pool,
    op: u8,
    index: u16,
    form: Form,
) -> Result<Option<Described>, CodeError>
    ensures right { IfOk result (λ o. MatchOption o (HasConstant pool.now op index form → ⊥) (λ d. HasConstant pool.now op index form × Describes pool.now index (kind_of form) d)) }
    ensures memory { IfErr result (λ e. e ≡ NoMemory) }
{
    match kind_of(form) {
        Some(kind) => described_as(alloc, pool, op, index, kind),
        None => Ok(Some(Described::Nothing)),
    }
}

// The kind of constant that an instruction names.
fn kind_of(form: Form) -> Option<ConstantKind>
    ensures { result ≡ kind_of form }
{
    match form {
        Form::ShortIndex(kind) => Some(kind),
        Form::Index(kind) => Some(kind),
        Form::LongIndex(kind) => Some(kind),
        Form::Dimensions => Some(ConstantKind::Class),
        _ => None,
    }
}

// The types of a constant of a kind.
fn described_as(
    alloc: Global,
    pool: &Pool,
    op: u8,
    index: u16,
    kind: ConstantKind,
) -> Result<Option<Described>, CodeError>
    ensures right { IfOk result (λ o. MatchOption o (NamesConstant pool.now op index kind → ⊥) (λ d. NamesConstant pool.now op index kind × Describes pool.now index (Some kind) d)) }
    ensures memory { IfErr result (λ e. e ≡ NoMemory) }
{
    match pool.constant(index) {
        Some(constant) => {
            if is_of_kind(kind, constant) && is_allowed(pool, op, index) {
                types_of(alloc, pool, index, kind)
            } else {
                Ok(None)
            }
        }
        None => Ok(None),
    }
}

fn is_of_kind(kind: ConstantKind, constant: &Constant) -> bool
    ensures { result ≡ is_of_kind kind constant.now }
{
    match kind {
        ConstantKind::OneSlot => is_one_slot(constant),
        ConstantKind::TwoSlots => is_two_slots(constant),
        ConstantKind::Field => is_field(constant),
        ConstantKind::Method => is_method(constant),
        ConstantKind::InterfaceMethod => is_interface_method(constant),
        ConstantKind::Dynamic => is_dynamic(constant),
        ConstantKind::Class => is_class(constant),
    }
}

fn is_one_slot(constant: &Constant) -> bool
    ensures { result ≡ is_one_slot constant.now }
{
    match constant {
        Constant::Integer(_) => true,
        Constant::Float(_) => true,
        Constant::Text(_) => true,
        Constant::Class(_) => true,
        Constant::Handle(_, _) => true,
        Constant::MethodType(_) => true,
        _ => false,
    }
}

fn is_two_slots(constant: &Constant) -> bool
    ensures { result ≡ is_two_slots constant.now }
{
    match constant {
        Constant::Long(_) => true,
        Constant::Double(_) => true,
        _ => false,
    }
}

fn is_field(constant: &Constant) -> bool
    ensures { result ≡ is_field constant.now }
{
    match constant {
        Constant::Field(_, _) => true,
        _ => false,
    }
}

fn is_method(constant: &Constant) -> bool
    ensures { result ≡ is_method constant.now }
{
    match constant {
        Constant::Method(_, _) => true,
        _ => false,
    }
}

fn is_interface_method(constant: &Constant) -> bool
    ensures { result ≡ is_interface_method constant.now }
{
    match constant {
        Constant::InterfaceMethod(_, _) => true,
        _ => false,
    }
}

fn is_dynamic(constant: &Constant) -> bool
    ensures { result ≡ is_dynamic constant.now }
{
    match constant {
        Constant::Dynamic(_, _) => true,
        _ => false,
    }
}

fn is_class(constant: &Constant) -> bool
    ensures { result ≡ is_class constant.now }
{
    match constant {
        Constant::Class(_) => true,
        _ => false,
    }
}

// Whether the instruction may name the constant: `new` makes no array, nothing calls a class initializer, and only
// `invokespecial` calls a constructor.
fn is_allowed(pool: &Pool, op: u8, index: u16) -> bool
    ensures { IsTrue result ↔ IsAllowed pool.now op index }
{
    if op == NEW {
        return is_no_array(pool, index);
    }
    if INVOKEVIRTUAL <= op && op <= INVOKEDYNAMIC {
        return may_call(pool, op, index);
    }
    true
}

fn is_no_array(pool: &Pool, index: u16) -> bool
    ensures { IsTrue result ↔ ((text : List ℕ) → class_at pool.now index ≡ Some text → brackets text ≡ 0) }
{
    match pool.class(index) {
        Some(text) => brackets(text) == 0,
        None => true,
    }
}

fn may_call(pool: &Pool, op: u8, index: u16) -> bool
    ensures { IsTrue result ↔ ((name : List ℕ) (descriptor : List ℕ) → named_at pool.now index ≡ Some (name, descriptor) → (name ≢ clinit_name) × (name ≡ init_name → IsSpecialCall op)) }
{
    match pool.name_and_descriptor(index) {
        Some((name, _)) => may_call_named(name, op),
        None => true,
    }
}

fn may_call_named(name: &[u8], op: u8) -> bool
    ensures { IsTrue result ↔ ((name.now ≢ clinit_name) × (name.now ≡ init_name → IsSpecialCall op)) }
{
    if name == b"<clinit>".as_slice() {
        return false;
    }
    if name == b"<init>".as_slice() {
        return op == INVOKESPECIAL;
    }
    true
}

// The types of a constant of its kind.
fn types_of(
    alloc: Global,
    pool: &Pool,
    index: u16,
    kind: ConstantKind,
) -> Result<Option<Described>, CodeError>
    ensures right { IfOk result (λ o. MatchOption o (LeadsToType pool.now index kind → ⊥) (λ d. LeadsToType pool.now index kind × Describes pool.now index (Some kind) d)) }
    ensures memory { IfErr result (λ e. e ≡ NoMemory) }
{
    match kind {
        ConstantKind::OneSlot => Ok(Some(Described::Nothing)),
        ConstantKind::TwoSlots => Ok(Some(Described::Nothing)),
        ConstantKind::Field => type_of_field(alloc, pool, index),
        ConstantKind::Method => type_of_call(alloc, pool, index),
        ConstantKind::InterfaceMethod => type_of_call(alloc, pool, index),
        ConstantKind::Dynamic => type_of_call(alloc, pool, index),
        ConstantKind::Class => Ok(type_of_class(pool, index)),
    }
}

fn type_of_class(pool: &Pool, index: u16) -> Option<Described>
    ensures { MatchOption result (LeadsToType pool.now index Class → ⊥) (λ d. LeadsToType pool.now index Class) }
{
    match pool.class(index) {
        Some(_) => Some(Described::Nothing),
        None => None,
    }
}

fn type_of_field(alloc: Global, pool: &Pool, index: u16) -> Result<Option<Described>, CodeError>
    ensures right { IfOk result (λ o. MatchOption o (LeadsToType pool.now index Field → ⊥) (λ d. LeadsToType pool.now index Field × Describes pool.now index (Some Field) d)) }
    ensures memory { IfErr result (λ e. e ≡ NoMemory) }
{
    match field_at(alloc, pool, index)? {
        Some(field) => Ok(Some(Described::Field(field))),
        None => Ok(None),
    }
}

fn field_at(alloc: Global, pool: &Pool, index: u16) -> Result<Option<FieldType>, CodeError>
    ensures right { IfOk result (λ o. MatchOption o ((t : FieldType) → FieldAt pool.now index t → ⊥) (FieldAt pool.now index)) }
    ensures memory { IfErr result (λ e. e ≡ NoMemory) }
{
    match pool.descriptor(index) {
        Some(bytes) => descriptors::field(alloc, bytes),
        None => Ok(None),
    }
}

fn type_of_call(alloc: Global, pool: &Pool, index: u16) -> Result<Option<Described>, CodeError>
    ensures right { IfOk result (λ o. MatchOption o (LeadsToType pool.now index Method → ⊥) (λ d. LeadsToType pool.now index Method × Describes pool.now index (Some Method) d)) }
    ensures memory { IfErr result (λ e. e ≡ NoMemory) }
{
    match call_at(alloc, pool, index)? {
        Some(method) => Ok(Some(Described::Call(method))),
        None => Ok(None),
    }
}

fn call_at(alloc: Global, pool: &Pool, index: u16) -> Result<Option<MethodType>, CodeError>
    ensures right { IfOk result (λ o. MatchOption o ((m : MethodType) → CallAt pool.now index m → ⊥) (CallAt pool.now index)) }
    ensures memory { IfErr result (λ e. e ≡ NoMemory) }
{
    match pool.descriptor(index) {
        Some(bytes) => descriptors::method(alloc, bytes),
        None => Ok(None),
    }
}
