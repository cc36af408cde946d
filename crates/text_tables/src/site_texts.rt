// The texts of sites, by the instructions that make them.
ghost use Rattle.std.specs.Prelude.{◌≡◌, ◌∷◌, ◌+◌, [], ℕ, List, Some, IfOk, drop, option_map, option_and_then, slice_get, unwrap_or};
ghost use Rattle.class_form.specs.Types.{IsFieldType, IsMethodType, NamesType, constant_text};
ghost use Rattle.class_form.specs.declared.types.FieldType.{FieldType};
ghost use Rattle.class_form.specs.declared.types.MethodType.{MethodType};
ghost use Rattle.class_form.specs.Pools.{class_at, constant_at};
ghost use Rattle.jvm_names.specs.declared.error.NameError.TheVariants.{NoMemory as NoRoom};
ghost use Rattle.program_form.specs.Sites.{class_of_constant, element_letter};
ghost use Rattle.text_tables.specs.SiteTexts.{IsAnswerText, IsArrayText, IsDimensionText, IsElementsText, IsFieldText, IsLoadedText, IsText, layer, maker_of};

use crate::kinds::{Maker, maker_of};
use crate::spelling::{class_descriptor, layer_text};
use class_form::body::Instr;
use class_form::pool::{Constant, Pool};
use class_form::types::FieldType;
use jvm_names::{NameError, field_type, is_class_name, method_type};
use slicer_ids::ids::NoMemory;
use slicer_ids::name::Name;
use std::alloc::Global;

/// No text.
pub fn no_text(alloc: Global) -> Result<Name, NoMemory> {
    Ok(Name::from_vec(Vec::new(alloc)))
}

// The class of the object that a constant makes when it is loaded.
fn class_of(constant: &Constant) -> Option<&'static [u8]>
    ensures { option_map (λ c. c.now) result ≡ class_of_constant constant.now }
{
    match constant {
        Constant::Text(_) => Some(b"java/lang/String"),
        Constant::Class(_) => Some(b"java/lang/Class"),
        Constant::Handle(_, _) => Some(b"java/lang/invoke/MethodHandle"),
        Constant::MethodType(_) => Some(b"java/lang/invoke/MethodType"),
        _ => None,
    }
}

fn class_of_index(pool: &Pool, index: u16) -> Option<&'static [u8]>
    ensures { option_map (λ c. c.now) result ≡ option_and_then class_of_constant (constant_at pool.now index) }
{
    match pool.constant(index) {
        Some(constant) => class_of(constant),
        None => None,
    }
}

fn loaded_text(alloc: Global, pool: &Pool, index: u16) -> Result<Name, NoMemory>
    ensures { IfOk result (λ x. (y : List ℕ) → IsLoadedText pool.now index y → x ≡ y) }
{
    match class_of_index(pool, index) {
        Some(name) => Name::from_bytes(alloc, name),
        None => no_text(alloc),
    }
}

fn object_text(alloc: Global, pool: &Pool, index: u16) -> Result<Name, NoMemory>
    ensures { IfOk result (λ x. (y : List ℕ) → class_at pool.now index ≡ Some y → x ≡ y) }
{
    match pool.class(index) {
        Some(name) => Name::from_bytes(alloc, name),
        None => no_text(alloc),
    }
}

fn byte_at(bytes: &[u8], k: usize) -> Option<u8>
    ensures { result ≡ slice_get bytes.now k }
{
    match bytes.get(k) {
        Some(byte) => Some(*byte),
        None => None,
    }
}

fn byte_or_none(bytes: &[u8], k: usize) -> u8
    ensures { result ≡ unwrap_or (slice_get bytes.now k) 0 }
{
    match byte_at(bytes, k) {
        Some(byte) => byte,
        None => 0,
    }
}

// The letter of an element type.
fn letter_of(code: u8) -> u8
    ensures { result ≡ element_letter code }
{
    let place = code.saturating_sub(4);
    byte_or_none(b"ZCFDBSIJ", place as usize)
}

// An array of elements of a primitive type.
fn primitives(alloc: Global, code: u8) -> Result<Name, NoMemory>
    ensures { IfOk result (λ x. x ≡ 91 ∷ element_letter code ∷ []) }
{
    let mut bytes = Vec::new(alloc);
    bytes.push(b'[')?;
    bytes.push(letter_of(code))?;
    Ok(Name::from_vec(bytes))
}

/// The text of an array of elements of a primitive type, whose code stands after the opcode.
pub fn elements_text(alloc: Global, code: &[u8], pc: u16) -> Result<Name, NoMemory>
    ensures { IfOk result (λ x. (y : List ℕ) → IsElementsText code.now pc y → x ≡ y) }
{
    match byte_at(code, pc as usize + 1) {
        Some(element) => primitives(alloc, element),
        None => no_text(alloc),
    }
}

// One more dimension before the descriptor of an array.
fn bracketed(alloc: Global, text: &[u8]) -> Result<Name, NoMemory>
    ensures { IfOk result (λ x. x ≡ 91 ∷ text.now) }
{
    let mut bytes = Vec::new(alloc);
    bytes.push(b'[')?;
    bytes.extend_from_slice(text)?;
    Ok(Name::from_vec(bytes))
}

// The array of the type that a text names.
fn array_of(alloc: Global, text: &[u8]) -> Result<Name, NoMemory>
    ensures { IfOk result (λ x. (t : FieldType) → NamesType text.now t → x ≡ constant_text (record { dims = t.dims + 1; base = t.base })) }
{
    if is_class_name(text) {
        class_descriptor(alloc, 1, text)
    } else {
        bracketed(alloc, text)
    }
}

fn array_text(alloc: Global, pool: &Pool, index: u16) -> Result<Name, NoMemory>
    ensures { IfOk result (λ x. (y : List ℕ) → IsArrayText pool.now index y → x ≡ y) }
{
    match pool.class(index) {
        Some(text) => array_of(alloc, text),
        None => no_text(alloc),
    }
}

// The bytes without so many at their front.
fn without(bytes: &[u8], k: u8) -> &[u8]
    ensures { result.now ≡ drop k bytes.now }
{
    let k = k as usize;
    if k < bytes.len() { &bytes[k..] } else { &[] }
}

fn dimension_text(alloc: Global, pool: &Pool, index: u16, k: u8) -> Result<Name, NoMemory>
    ensures { IfOk result (λ x. (y : List ℕ) → IsDimensionText pool.now index k y → x ≡ y) }
{
    match pool.class(index) {
        Some(text) => Name::from_bytes(alloc, without(text, k)),
        None => no_text(alloc),
    }
}

// What there is where a descriptor wasn't read: no text, unless there is no memory.
fn unread(alloc: Global, error: NameError) -> Result<Name, NoMemory>
    ensures { IfOk result (λ x. error ≡ NoRoom → ⊥) }
{
    match error {
        NameError::NoMemory => Err(NoMemory),
        NameError::Malformed(_) => no_text(alloc),
    }
}

// Texts of 2^32 bytes or more, which no class file has, are never read.
fn field_layer(alloc: Global, descriptor: &[u8], k: u8) -> Result<Name, NoMemory>
    ensures { IfOk result (λ x. (t : FieldType) → IsFieldType descriptor.now t → x ≡ constant_text (layer t k)) }
{
    if descriptor.len() >= 0x1_0000_0000 {
        return Err(NoMemory);
    }
    match field_type(alloc, descriptor) {
        Ok(t) => layer_text(alloc, &t, k),
        Err(e) => unread(alloc, e),
    }
}

fn field_text(alloc: Global, pool: &Pool, index: u16, k: u8) -> Result<Name, NoMemory>
    ensures { IfOk result (λ x. (y : List ℕ) → IsFieldText pool.now index k y → x ≡ y) }
{
    match pool.descriptor(index) {
        Some(descriptor) => field_layer(alloc, descriptor, k),
        None => no_text(alloc),
    }
}

fn result_layer(alloc: Global, answered: &Option<FieldType>, k: u8) -> Result<Name, NoMemory>
    ensures { IfOk result (λ x. (t : FieldType) → answered.now ≡ Some t → x ≡ constant_text (layer t k)) }
{
    match answered {
        Some(t) => layer_text(alloc, t, k),
        None => no_text(alloc),
    }
}

fn method_layer(alloc: Global, descriptor: &[u8], k: u8) -> Result<Name, NoMemory>
    ensures { IfOk result (λ x. (m : MethodType) (t : FieldType) → IsMethodType descriptor.now m → m.result ≡ Some t → x ≡ constant_text (layer t k)) }
{
    if descriptor.len() >= 0x1_0000_0000 {
        return Err(NoMemory);
    }
    match method_type(alloc, descriptor) {
        Ok(m) => result_layer(alloc, &m.result, k),
        Err(e) => unread(alloc, e),
    }
}

fn answer_text(alloc: Global, pool: &Pool, index: u16, k: u8) -> Result<Name, NoMemory>
    ensures { IfOk result (λ x. (y : List ℕ) → IsAnswerText pool.now index k y → x ≡ y) }
{
    match pool.descriptor(index) {
        Some(descriptor) => method_layer(alloc, descriptor, k),
        None => no_text(alloc),
    }
}

/// The text of the site of this number that an instruction makes, of a class file with the pool and in the code.
pub fn made_text(
    alloc: Global,
    pool: &Pool,
    code: &[u8],
    instr: &Instr,
    k: u8,
) -> Result<Name, NoMemory>
    ensures { IfOk result (λ x. (y : List ℕ) → IsText (maker_of instr.now.op) pool.now code.now instr.now k y → x ≡ y) }
{
    match maker_of(instr.op) {
        Maker::Constant => loaded_text(alloc, pool, instr.index),
        Maker::Field => field_text(alloc, pool, instr.index, k),
        Maker::Call => answer_text(alloc, pool, instr.index, k),
        Maker::New => object_text(alloc, pool, instr.index),
        Maker::Elements => elements_text(alloc, code, instr.pc),
        Maker::Array => array_text(alloc, pool, instr.index),
        Maker::Dimensions => dimension_text(alloc, pool, instr.index, k),
        Maker::Other => no_text(alloc),
    }
}
