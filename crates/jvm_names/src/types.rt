// Types from their descriptors.
ghost use Rattle.std.specs.Prelude.{◌≡◌, ◌<◌, ◌^◌, ◌++◌, ◌∷◌, ◌==◌, ℕ, List, Option, not, length};
ghost use Rattle.std.specs.List.{prefix_len};
ghost use Rattle.class_form.specs.declared.types.BaseType.{BaseType};
ghost use Rattle.class_form.specs.declared.types.FieldType.{FieldType};
ghost use Rattle.class_form.specs.Names.{IsClassName};
ghost use Rattle.class_form.specs.Types.{IsBase, IsType, IsFieldType, IsMethodType, spell_base, spell_type};
ghost use Rattle.class_form.specs.Prefixes.{IsFieldDescriptor, IsMethodDescriptor};
ghost use Rattle.jvm_names.specs.Reading.{Reads, ClassInFront, BaseInFront, TypeInFront, StartsWithArguments, ArgumentsInFront, IsOutcome, Makes};

use crate::descriptor::{Place, State};
use crate::error::NameError;
use crate::kinds::fault;
use class_form::types::{BaseType, FieldType, MethodType};
use slicer_ids::list::List;
use slicer_ids::name::Name;
use std::alloc::Global;

/// How many dimensions the bytes begin with.
fn dimensions(bytes: &[u8]) -> usize
    ensures { result ≡ prefix_len (λ b. b == 91) bytes.now }
{
    let mut count = 0;
    for byte in bytes {
        if *byte != b'[' {
            return count;
        }
        count += 1;
    }
    count
}

/// How many bytes come before the first `;`.
fn name_len(bytes: &[u8]) -> usize
    ensures { result ≡ prefix_len (λ b. not (b == 59)) bytes.now }
{
    let mut count = 0;
    for byte in bytes {
        if *byte == b';' {
            return count;
        }
        count += 1;
    }
    count
}

/// The name of a class that the bytes begin with, and what follows its `;`.
fn class_in_front<'a>(alloc: Global, bytes: &'a [u8]) -> Result<(Name, &'a [u8]), NameError>
    requires { (name : List ℕ) × (rest : List ℕ) × IsClassName name × (bytes.now ≡ name ++ 59 ∷ rest) }
    ensures { ClassInFront bytes.now result }
{
    let (name, rest) = bytes.split_at(name_len(bytes));
    let name = Name::from_bytes(alloc, name)?;
    let (_, rest) = rest.split_at(1);
    Ok((name, rest))
}

/// The base type that the bytes begin with, and what follows it.
fn base_in_front<'a>(alloc: Global, bytes: &'a [u8]) -> Result<(BaseType, &'a [u8]), NameError>
    requires { (base : BaseType) × (rest : List ℕ) × IsBase base × (bytes.now ≡ spell_base base ++ rest) }
    ensures { BaseInFront bytes.now result }
{
    let (letter, rest) = bytes.split_at(1);
    if letter[0] != b'L' {
        return Ok((BaseType::Primitive(letter[0]), rest));
    }
    let (name, rest) = class_in_front(alloc, rest)?;
    Ok((BaseType::Class(name), rest))
}

/// The type that the bytes begin with, and what follows it.
fn type_in_front<'a>(alloc: Global, bytes: &'a [u8]) -> Result<(FieldType, &'a [u8]), NameError>
    requires { (t : FieldType) × (rest : List ℕ) × IsType t × (bytes.now ≡ spell_type t ++ rest) }
    ensures { TypeInFront bytes.now result }
{
    let (brackets, rest) = bytes.split_at(dimensions(bytes));
    let (base, rest) = base_in_front(alloc, rest)?;
    let dims = brackets.len() as u8;
    Ok((FieldType { dims, base }, rest))
}

/// The types of the arguments that stand before the first `)`, and what follows it.
fn arguments_in_front<'a>(
    alloc: Global,
    bytes: &'a [u8],
) -> Result<(List<FieldType>, &'a [u8]), NameError>
    requires { StartsWithArguments bytes.now }
    ensures { ArgumentsInFront bytes.now result }
{
    let mut arguments = Vec::new(alloc);
    let mut rest = bytes;
    while rest[0] != b')' {
        let (argument, after) = type_in_front(alloc, rest)?;
        arguments.push(argument)?;
        rest = after;
    }
    let (_, rest) = rest.split_at(1);
    Ok((List::from_vec(arguments), rest))
}

/// The type of which the bytes are the descriptor.
fn whole_type(alloc: Global, bytes: &[u8]) -> Result<FieldType, NameError>
    requires { IsFieldDescriptor bytes.now }
    ensures { Makes IsFieldType bytes.now result }
{
    let (found, _rest) = type_in_front(alloc, bytes)?;
    Ok(found)
}

/// The result of a method, of which the bytes are the descriptor; none for `V`.
fn outcome(alloc: Global, bytes: &[u8]) -> Result<Option<FieldType>, NameError>
    requires { (r : Option FieldType) × IsOutcome bytes.now r }
    ensures { Makes IsOutcome bytes.now result }
{
    if bytes[0] == b'V' {
        return Ok(None);
    }
    let outcome = whole_type(alloc, bytes)?;
    Ok(Some(outcome))
}

/// The method type of which the bytes are the descriptor.
fn method_from(alloc: Global, bytes: &[u8]) -> Result<MethodType, NameError>
    requires { IsMethodDescriptor bytes.now }
    ensures { Makes IsMethodType bytes.now result }
{
    let (_, rest) = bytes.split_at(1);
    let (arguments, rest) = arguments_in_front(alloc, rest)?;
    let result = outcome(alloc, rest)?;
    Ok(MethodType { arguments, result })
}

/// The type of which the bytes, fewer than 2^32, are the descriptor (JVMS SE 7 4.3.2), with at most 255 dimensions. Linear in the bytes.
///
/// # Errors
/// `Malformed` where they are the descriptor of no type, with the length of the longest prefix of them with which the descriptor of some
/// type begins; `NoMemory` where there was no memory for the type.
pub fn field_type(alloc: Global, bytes: &[u8]) -> Result<FieldType, NameError>
    requires { length bytes.now < 2 ^ 32 }
    ensures { Reads IsFieldType bytes.now result }
{
    match fault(State::InType(Place::Alone, 0), bytes) {
        Some(at) => Err(NameError::Malformed(at as u32)),
        None => whole_type(alloc, bytes),
    }
}

/// The method type of which the bytes, fewer than 2^32, are the descriptor (JVMS SE 7 4.3.3), whose arguments take at most 255 slots
/// without the receiver's. Linear in the bytes.
///
/// # Errors
/// `Malformed` where they are the descriptor of no method type, with the length of the longest prefix of them with which the descriptor of
/// some method type begins; `NoMemory` where there was no memory for the method type.
pub fn method_type(alloc: Global, bytes: &[u8]) -> Result<MethodType, NameError>
    requires { length bytes.now < 2 ^ 32 }
    ensures { Reads IsMethodType bytes.now result }
{
    match fault(State::Open, bytes) {
        Some(at) => Err(NameError::Malformed(at as u32)),
        None => method_from(alloc, bytes),
    }
}
