// The lines on refusals.
ghost use Rattle.std.specs.Prelude.{◌≡◌, ◌++◌, List, ℕ, IfOk, OnOk, Err, codes};
ghost use Rattle.std.specs.Fmt.{decimal};
ghost use Rattle.class_reader.specs.Errors.{FileFails};
ghost use Rattle.class_form.specs.FirstFaults.{ClassFault};
ghost use Rattle.class_form.specs.declared.class_file.ClassFile.{ClassFile};
ghost use Rattle.refusal_lines.specs.Refusals.{fault_text, file_refusal, code_text, method_refusal, limit_word, limit_refusal};

use crate::printing::{push_number, push_printed};
use class_form::code_error::CodeError;
use class_reader::ReadError;
use slicer_ids::ids::NoMemory;
use slicer_ids::limits::LimitKind;
use slicer_ids::name::Name;
use std::alloc::{AllocError, Global};

// A word and a number.
fn push_one(alloc: Global, text: &mut Vec<u8>, word: &[u8], number: u64) -> Result<(), AllocError>
    ensures { OnOk result (text.new.items ≡ text.old.items ++ (word.now ++ decimal number)) }
{
    text.extend_from_slice(word)?;
    push_number(alloc, text, number)
}

fn push_fault(alloc: Global, text: &mut Vec<u8>, error: ReadError) -> Result<(), AllocError>
    ensures memory { error ≡ ReadError.NoMemory → OnOk result ⊥ }
    ensures text { OnOk result ((fault : ClassFault) → FileFails {Y = ClassFile} error (Err fault) → text.new.items ≡ text.old.items ++ fault_text fault) }
{
    match error {
        ReadError::NoMemory => Err(AllocError),
        ReadError::NotClass => text.extend_from_slice(b"not a class file"),
        ReadError::Version(major) => push_one(alloc, text, b"version ", major as u64),
        ReadError::Truncated => text.extend_from_slice(b"truncated"),
        ReadError::Trailing(at) => push_one(alloc, text, b"trailing bytes at ", at as u64),
        ReadError::Broken { rule, at } => {
            push_one(alloc, text, b"broken rule ", rule as u64)?;
            push_one(alloc, text, b" at ", at as u64)
        }
    }
}

fn file_text(alloc: Global, path: &[u8], error: ReadError) -> Result<Vec<u8>, AllocError>
    ensures memory { error ≡ ReadError.NoMemory → OnOk result ⊥ }
    ensures text { IfOk result (λ v. (fault : ClassFault) → FileFails {Y = ClassFile} error (Err fault) → v.items ≡ file_refusal path.now fault) }
{
    let mut text = Vec::from_slice(alloc, b"refused ")?;
    text.extend_from_slice(path)?;
    text.push(b' ')?;
    push_fault(alloc, &mut text, error)?;
    Ok(text)
}

/// What is said of a file that is no class file, by its path, whose bytes are printed as they are. Want of memory as error is
/// answered so.
pub fn file_refusal(alloc: Global, path: &[u8], error: ReadError) -> Result<Name, NoMemory>
    ensures memory { error ≡ ReadError.NoMemory → OnOk result ⊥ }
    ensures line { IfOk result (λ line. (fault : ClassFault) → FileFails {Y = ClassFile} error (Err fault) → line ≡ file_refusal path.now fault) }
{
    match file_text(alloc, path, error) {
        Ok(text) => Ok(Name::from_vec(text)),
        Err(_) => Err(NoMemory),
    }
}

fn push_code(alloc: Global, text: &mut Vec<u8>, error: CodeError) -> Result<(), AllocError>
    ensures memory { error ≡ CodeError.NoMemory → OnOk result ⊥ }
    ensures text { OnOk result (text.new.items ≡ text.old.items ++ code_text error) }
{
    match error {
        CodeError::NoMemory => Err(AllocError),
        CodeError::Broken { rule, pc } => {
            push_one(alloc, text, b"code rule ", rule as u64)?;
            push_one(alloc, text, b" at pc ", pc as u64)
        }
        CodeError::Jsr(pc) => push_one(alloc, text, b"jsr at pc ", pc as u64),
    }
}

fn method_text(
    alloc: Global,
    path: &[u8],
    name: &[u8],
    descriptor: &[u8],
    error: CodeError,
) -> Result<Vec<u8>, AllocError>
    ensures memory { error ≡ CodeError.NoMemory → OnOk result ⊥ }
    ensures text { IfOk result (λ v. v.items ≡ method_refusal path.now name.now descriptor.now error) }
{
    let mut text = Vec::from_slice(alloc, b"refused ")?;
    text.extend_from_slice(path)?;
    text.extend_from_slice(b" method ")?;
    push_printed(&mut text, name)?;
    text.push(b' ')?;
    push_printed(&mut text, descriptor)?;
    text.push(b' ')?;
    push_code(alloc, &mut text, error)?;
    Ok(text)
}

/// What is said of a method whose code is refused, by the path of its file, its name and its descriptor. Want of memory as error
/// is answered so.
pub fn method_refusal(
    alloc: Global,
    path: &[u8],
    name: &[u8],
    descriptor: &[u8],
    error: CodeError,
) -> Result<Name, NoMemory>
    ensures memory { error ≡ CodeError.NoMemory → OnOk result ⊥ }
    ensures line { IfOk result (λ line. line ≡ method_refusal path.now name.now descriptor.now error) }
{
    match method_text(alloc, path, name, descriptor, error) {
        Ok(text) => Ok(Name::from_vec(text)),
        Err(_) => Err(NoMemory),
    }
}

fn limit_word(kind: LimitKind) -> &'static [u8]
    ensures { result.now ≡ limit_word kind }
{
    match kind {
        LimitKind::Depth => b"depth",
        LimitKind::Files => b"files",
        LimitKind::FileBytes => b"file-bytes",
        LimitKind::TotalBytes => b"total-bytes",
        LimitKind::Methods => b"methods",
        LimitKind::Sites => b"sites",
        LimitKind::Locations => b"locations",
        LimitKind::Nodes => b"nodes",
        LimitKind::MemoWords => b"memo-words",
    }
}

fn limit_text(alloc: Global, kind: LimitKind, count: u64) -> Result<Vec<u8>, AllocError>
    ensures { IfOk result (λ v. v.items ≡ limit_refusal kind count) }
{
    let mut text = Vec::from_slice(alloc, b"refused limit ")?;
    text.extend_from_slice(limit_word(kind))?;
    text.push(b' ')?;
    push_number(alloc, &mut text, count)?;
    Ok(text)
}

/// What is said where there are too many of something, with how many there are.
pub fn limit_refusal(alloc: Global, kind: LimitKind, count: u64) -> Result<Name, NoMemory>
    ensures { IfOk result (λ line. line ≡ limit_refusal kind count) }
{
    match limit_text(alloc, kind, count) {
        Ok(text) => Ok(Name::from_vec(text)),
        Err(_) => Err(NoMemory),
    }
}
