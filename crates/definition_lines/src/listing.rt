// The definitions of all slots of a class's methods.
ghost use Rattle.std.specs.Prelude.{◌≡◌, ◌<◌, ◌^◌, length};
ghost use Rattle.definition_lines.specs.declared.listing.ListError.TheVariants.{NoMemory};

use crate::lines::{Place, push_line};
use class_form::body::{Body, Point};
use class_form::class_file::{ClassFile, CodeBody, Content, Member};
use class_form::code_error::CodeError;
use class_reader::{ReadError, read_class};
use method_body::{is_readable, read_body};
use refusal_lines::push_printed;
use slicer_ids::ids::{MethodId, NoMemory};
use std::alloc::{AllocError, Global};
use thiserror::Error;

/// Why the definitions of a class are not listed.
#[derive(Clone, Copy, PartialEq, Eq, Debug, Error)]
pub enum ListError {
    #[error("no memory")]
    NoMemory,
    /// The file is no class file.
    #[error("{0}")]
    Refused(ReadError),
    /// The code of the method of this number has a fault.
    #[error("method {number}: {error}")]
    Code { number: u32, error: CodeError },
    /// The method of this number has no type, or too few locals, or no code.
    #[error("method {0} can't be read")]
    Unreadable(u32),
}

impl From<AllocError> for ListError {
    ghost from_gives = { λ _ e. e ≡ NoMemory };

    fn from(_: AllocError) -> ListError {
        ListError::NoMemory
    }
}

// A text of the pool, as it is printed; nothing where there is none.
fn push_text(text: &mut Vec<u8>, bytes: Option<&[u8]>) -> Result<(), AllocError> {
    match bytes {
        Some(bytes) => push_printed(text, bytes),
        None => Ok(()),
    }
}

// The class, the method and its type, as they are printed.
fn words_of(alloc: Global, class: &ClassFile, method: &Member) -> Result<Vec<u8>, AllocError> {
    let mut text = Vec::new(alloc);
    push_text(&mut text, class.pool.class(class.this_class))?;
    text.push(b' ')?;
    push_text(&mut text, class.pool.utf(method.name))?;
    text.push(b' ')?;
    push_text(&mut text, class.pool.utf(method.descriptor))?;
    Ok(text)
}

// The lines of an instruction: of each local, and of each slot that is on the stack before it.
fn push_point(
    alloc: Global,
    text: &mut Vec<u8>,
    method: &[u8],
    body: &Body,
    point: &Point,
) -> Result<(), AllocError> {
    let locals = body.shape.max_locals;
    for slot in 0..locals as u32 + point.depth as u32 {
        let place = Place {
            pc: point.pc,
            slot,
            locals,
        };
        let defs = body.reach.at(point.pc, slot);
        push_line(alloc, text, method, place, defs)?;
    }
    Ok(())
}

fn push_body(
    alloc: Global,
    text: &mut Vec<u8>,
    method: &[u8],
    body: &Body,
) -> Result<(), AllocError> {
    for point in body.shape.points.items() {
        push_point(alloc, text, method, body, point)?;
    }
    Ok(())
}

// The lines of a method with this code, which is the one of this number in its class.
fn push_code(
    alloc: Global,
    text: &mut Vec<u8>,
    class: &ClassFile,
    number: MethodId,
    method: &Member,
    code: &CodeBody,
) -> Result<(), ListError> {
    if !is_readable(&class.pool, method, code) {
        return Err(ListError::Unreadable(number.0));
    }
    let words = words_of(alloc, class, method)?;
    match read_body(alloc, number, &class.pool, method, code) {
        Ok(body) => push_body(alloc, text, &words, &body)?,
        Err(error) => return Err(ListError::Code {
            number: number.0,
            error,
        }),
    }
    Ok(())
}

fn push_method(
    alloc: Global,
    text: &mut Vec<u8>,
    class: &ClassFile,
    number: MethodId,
    method: &Member,
) -> Result<(), ListError> {
    for attribute in method.attributes.items() {
        if let Content::Code(code) = &attribute.content {
            push_code(alloc, text, class, number, method, code)?;
        }
    }
    Ok(())
}

fn lines_of_class(alloc: Global, class: &ClassFile) -> Result<Vec<u8>, ListError> {
    let mut text = Vec::new(alloc);
    let mut number = 0u32;
    for method in class.methods.items() {
        push_method(alloc, &mut text, class, MethodId(number), method)?;
        number = number.saturating_add(1);
    }
    Ok(text)
}

/// The lines of all methods with code of the class file that the bytes spell.
pub fn lines_of(alloc: Global, bytes: &[u8]) -> Result<Vec<u8>, ListError>
    requires { length bytes.now < 2 ^ 32 }
{
    match read_class(alloc, bytes) {
        Ok(class) => lines_of_class(alloc, &class),
        Err(error) => Err(ListError::Refused(error)),
    }
}
