// How types are named.
ghost use Rattle.std.specs.Prelude.{◌≡◌, ◌++◌, ◌∷◌, [], IfOk, OnOk, replicate};
ghost use Rattle.class_form.specs.Types.{constant_text};
ghost use Rattle.class_form.specs.declared.types.BaseType.TheVariants.{Class, Primitive};
ghost use Rattle.text_tables.specs.SiteTexts.{layer};

use class_form::types::{BaseType, FieldType};
use slicer_ids::ids::NoMemory;
use slicer_ids::name::Name;
use std::alloc::Global;

fn push(bytes: &mut Vec<u8>, byte: u8) -> Result<(), NoMemory>
    ensures { OnOk result (bytes.new.items ≡ bytes.old.items ++ byte ∷ []) }
{
    match bytes.push(byte) {
        Ok(()) => Ok(()),
        Err(_) => Err(NoMemory),
    }
}

fn append(bytes: &mut Vec<u8>, more: &[u8]) -> Result<(), NoMemory>
    ensures { OnOk result (bytes.new.items ≡ bytes.old.items ++ more.now) }
{
    match bytes.extend_from_slice(more) {
        Ok(()) => Ok(()),
        Err(_) => Err(NoMemory),
    }
}

// A bracket for each dimension.
fn brackets(alloc: Global, dims: u8) -> Result<Vec<u8>, NoMemory>
    ensures { IfOk result (λ bytes. bytes.items ≡ replicate dims 91) }
{
    let bytes = Vec::from_elem(alloc, b'[', dims as usize)?;
    Ok(bytes)
}

/// The descriptor of the arrays of so many dimensions of a class.
pub fn class_descriptor(alloc: Global, dims: u8, name: &[u8]) -> Result<Name, NoMemory>
    ensures { IfOk result (λ x. x ≡ replicate dims 91 ++ 76 ∷ name.now ++ 59 ∷ []) }
{
    let mut bytes = brackets(alloc, dims)?;
    push(&mut bytes, b'L')?;
    append(&mut bytes, name)?;
    push(&mut bytes, b';')?;
    Ok(Name::from_vec(bytes))
}

// The name of a class, or the descriptor of its arrays.
fn class_text(alloc: Global, dims: u8, name: &[u8]) -> Result<Name, NoMemory>
    ensures { IfOk result (λ x. x ≡ constant_text (record { dims = dims; base = Class name.now })) }
{
    if dims == 0 {
        Name::from_bytes(alloc, name)
    } else {
        class_descriptor(alloc, dims, name)
    }
}

// The letter of a primitive type after a bracket for each dimension.
fn primitive_descriptor(alloc: Global, dims: u8, letter: u8) -> Result<Name, NoMemory>
    ensures { IfOk result (λ x. x ≡ replicate dims 91 ++ letter ∷ []) }
{
    let mut bytes = brackets(alloc, dims)?;
    push(&mut bytes, letter)?;
    Ok(Name::from_vec(bytes))
}

// A letter, or the descriptor of the arrays of a primitive type.
fn primitive_text(alloc: Global, dims: u8, letter: u8) -> Result<Name, NoMemory>
    ensures { IfOk result (λ x. x ≡ constant_text (record { dims = dims; base = Primitive letter })) }
{
    primitive_descriptor(alloc, dims, letter)
}

// A type as Class constants name it.
fn type_text(alloc: Global, dims: u8, base: &BaseType) -> Result<Name, NoMemory>
    ensures { IfOk result (λ x. x ≡ constant_text (record { dims = dims; base = base.now })) }
{
    match base {
        BaseType::Primitive(letter) => primitive_text(alloc, dims, *letter),
        BaseType::Class(name) => class_text(alloc, dims, name.bytes()),
    }
}

/// The type without its outer dimensions.
pub fn layer_text(alloc: Global, t: &FieldType, k: u8) -> Result<Name, NoMemory>
    ensures { IfOk result (λ x. x ≡ constant_text (layer t.now k)) }
{
    let dims = t.dims.saturating_sub(k);
    type_text(alloc, dims, &t.base)
}
