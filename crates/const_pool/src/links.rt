// The rules on what the indices of constants lead to.
ghost use Rattle.std.specs.Prelude.{◌≡◌, ◌&&◌, ◌+◌, ◌<◌, ◌^◌, length};
ghost use Rattle.std.specs.List.{flat_map};
ghost use Rattle.byte_form.specs.Places.{State};
ghost use Rattle.byte_form.specs.Reading.{Gives};
ghost use Rattle.class_form.specs.Pools.{constant_at};
ghost use Rattle.class_form.specs.Spelling.{spell_constant};
ghost use Rattle.class_form.specs.PoolReading.{is_utf, is_class, is_name_and_type, is_reference, has_kinds, names_field, names_method, has_texts, read_links};
ghost use Rattle.const_pool.specs.Texts.{AreKindsOf, IsKinds};

use crate::texts::TextKinds;
use byte_form::error::ItemError;
use class_form::pool::{Constant, Pool};

/// Whether a text stands at the index.
pub fn is_utf(pool: &Pool, i: u16) -> bool
    ensures { result ≡ is_utf (constant_at pool.now i) }
{
    matches!(pool.constant(i), Some(Constant::Utf8(_)))
}

/// Whether a class stands at the index.
pub fn is_class(pool: &Pool, i: u16) -> bool
    ensures { result ≡ is_class (constant_at pool.now i) }
{
    matches!(pool.constant(i), Some(Constant::Class(_)))
}

fn is_name_and_type(pool: &Pool, i: u16) -> bool
    ensures { result ≡ is_name_and_type (constant_at pool.now i) }
{
    matches!(pool.constant(i), Some(Constant::NameAndType(_, _)))
}

// Whether an index is of the kind that a method handle's kind wants.
fn is_reference(pool: &Pool, kind: u8, i: u16) -> bool
    ensures { result ≡ is_reference kind (constant_at pool.now i) }
{
    match pool.constant(i) {
        Some(Constant::Field(_, _)) => 1 <= kind && kind <= 4,
        Some(Constant::Method(_, _)) => 5 <= kind && kind <= 8,
        Some(Constant::InterfaceMethod(_, _)) => kind == 9,
        _ => false,
    }
}

fn is_class_and_name(pool: &Pool, class: u16, rest: u16) -> bool
    ensures { result ≡ (is_class (constant_at pool.now class) && is_name_and_type (constant_at pool.now rest)) }
{
    is_class(pool, class) && is_name_and_type(pool, rest)
}

/// Whether a constant's indices are of their kinds.
pub fn has_kinds(pool: &Pool, constant: &Constant) -> bool
    ensures { result ≡ has_kinds pool.now constant.now }
{
    match constant {
        Constant::Class(i) | Constant::Text(i) | Constant::MethodType(i) => is_utf(pool, *i),
        Constant::Field(class, rest) => is_class_and_name(pool, *class, *rest),
        Constant::Method(class, rest) => is_class_and_name(pool, *class, *rest),
        Constant::InterfaceMethod(class, rest) => is_class_and_name(pool, *class, *rest),
        Constant::NameAndType(name, descriptor) => is_utf(pool, *name) && is_utf(pool, *descriptor),
        Constant::Handle(kind, i) => is_reference(pool, *kind, *i),
        Constant::Dynamic(_, rest) => is_name_and_type(pool, *rest),
        _ => true,
    }
}

/// What the text at an index is.
pub fn kinds_at(pool: &Pool, kinds: &[TextKinds], i: u16) -> TextKinds
    requires { AreKindsOf pool.now kinds.now }
    ensures { IsKinds pool.now i result }
{
    if i == 0 {
        return TextKinds::NONE;
    }
    match kinds.get(i as usize - 1) {
        Some(found) => *found,
        None => TextKinds::NONE,
    }
}

// Whether an unqualified name and a field type stand at the index.
fn names_field(pool: &Pool, kinds: &[TextKinds], i: u16) -> bool
    requires { AreKindsOf pool.now kinds.now }
    ensures { result ≡ names_field pool.now (constant_at pool.now i) }
{
    match pool.constant(i) {
        Some(Constant::NameAndType(name, descriptor)) => {
            kinds_at(pool, kinds, *name).unqualified && kinds_at(pool, kinds, *descriptor).field
        }
        _ => false,
    }
}

// Whether a method name and a method type stand at the index.
fn names_method(pool: &Pool, kinds: &[TextKinds], i: u16) -> bool
    requires { AreKindsOf pool.now kinds.now }
    ensures { result ≡ names_method pool.now (constant_at pool.now i) }
{
    match pool.constant(i) {
        Some(Constant::NameAndType(name, descriptor)) => {
            kinds_at(pool, kinds, *name).method_name
                && kinds_at(pool, kinds, *descriptor).slots.is_some()
        }
        _ => false,
    }
}

/// Whether a constant's texts are of their kinds.
pub fn has_texts(pool: &Pool, kinds: &[TextKinds], constant: &Constant) -> bool
    requires { AreKindsOf pool.now kinds.now }
    ensures { result ≡ has_texts pool.now constant.now }
{
    match constant {
        Constant::Class(name) => kinds_at(pool, kinds, *name).class,
        Constant::Field(_, rest) => names_field(pool, kinds, *rest),
        Constant::Method(_, rest) => names_method(pool, kinds, *rest),
        Constant::InterfaceMethod(_, rest) => names_method(pool, kinds, *rest),
        Constant::NameAndType(name, descriptor) => {
            let descriptor = kinds_at(pool, kinds, *descriptor);
            kinds_at(pool, kinds, *name).unqualified
                && (descriptor.field || descriptor.slots.is_some())
        }
        Constant::MethodType(descriptor) => kinds_at(pool, kinds, *descriptor).slots.is_some(),
        Constant::Dynamic(_, rest) => names_method(pool, kinds, *rest),
        _ => true,
    }
}

/// How many bytes a constant takes, with its tag.
pub fn spelled_len(constant: &Constant) -> usize
    ensures { result ≡ length (spell_constant constant.now) }
{
    match constant {
        Constant::Utf8(text) => 3 + text.bytes().len(),
        Constant::Class(_) | Constant::Text(_) | Constant::MethodType(_) => 3,
        Constant::Handle(_, _) => 4,
        Constant::Long(_) | Constant::Double(_) => 9,
        Constant::Second => 0,
        _ => 5,
    }
}

/// The first constant that an index or a text makes wrong; the first constant stands at an offset.
pub fn links(pool: &Pool, kinds: &[TextKinds], first: u32) -> Result<(), ItemError>
    requires kinds { AreKindsOf pool.now kinds.now }
    requires fits { first + length (flat_map spell_constant pool.now.constants) < 2 ^ 32 }
    ensures { (s : State) → Gives (λ x. tt) result s (read_links pool.now first pool.now.constants s) }
{
    let mut at = first as usize;
    for constant in pool.constants.items() {
        if !has_kinds(pool, constant) {
            return Err(ItemError::Broken {
                rule: 4,
                at: at as u32,
            });
        }
        if !has_texts(pool, kinds, constant) {
            return Err(ItemError::Broken {
                rule: 5,
                at: at as u32,
            });
        }
        at += spelled_len(constant);
    }
    Ok(())
}
