// The code of methods: whether it has a body.
ghost use Rattle.std.specs.Prelude.{◌≡◌, ◌<◌, ℕ, List, IfSome, IfNone, IfOk, OnOk, Err, Some, length};
ghost use Rattle.class_form.specs.Classes.{HasCode};
ghost use Rattle.class_form.specs.ClassRules.{IsClassFile};
ghost use Rattle.class_form.specs.Pools.{utf_at};
ghost use Rattle.class_form.specs.declared.class_file.Member.{Member};
ghost use Rattle.class_form.specs.declared.class_file.CodeBody.{CodeBody};
ghost use Rattle.class_form.specs.declared.code_error.CodeError.{CodeError};
ghost use Rattle.body_form.specs.Bodies.{IsReadable, IsBodyOf, IsFirstFault};
ghost use Rattle.refusal_lines.specs.Refusals.{method_refusal};
ghost use Rattle.body_rules.specs.Methods.{IsCoded, HasBody, HaveBodies};
ghost use Rattle.body_rules.specs.Refused.{IsRefusedAt, IsBadLine};

use crate::error::ClassesError;
use class_form::body::Body;
use class_form::class_file::{ClassFile, CodeBody, Content, Member};
use class_form::code_error::CodeError;
use class_form::pool::Pool;
use method_body::read_body;
use refusal_lines::method_refusal;
use slicer_ids::ids::MethodId;
use std::alloc::Global;

/// The code of a method, where it has one.
pub fn code_of(method: &Member) -> Option<&CodeBody>
    ensures found { IfSome result (λ code. HasCode method.now code.now) }
    ensures missed { IfNone result ((code : CodeBody) → HasCode method.now code → ⊥) }
{
    for attribute in method.attributes.items() {
        if let Content::Code(code) = &attribute.content {
            return Some(code);
        }
    }
    None
}

// What is said of a method whose code is refused.
fn refusal_of(
    alloc: Global,
    path: &[u8],
    pool: &Pool,
    method: &Member,
    error: CodeError,
) -> ClassesError
    ensures { (line : List ℕ) → result ≡ ClassesError.Refused line → (name : List ℕ) × (descriptor : List ℕ) × (utf_at pool.now method.now.name ≡ Some name)
        × (utf_at pool.now method.now.descriptor ≡ Some descriptor) × (error ≡ CodeError.NoMemory → ⊥) × (line ≡ method_refusal path.now name descriptor error) }
{
    let Some(name) = pool.utf(method.name) else {
        return ClassesError::NoMemory;
    };
    let Some(descriptor) = pool.utf(method.descriptor) else {
        return ClassesError::NoMemory;
    };
    match method_refusal(alloc, path, name, descriptor, error) {
        Ok(line) => ClassesError::Refused(line),
        Err(_) => ClassesError::NoMemory,
    }
}

// The body of a method's code.
fn read_code(
    alloc: Global,
    path: &[u8],
    pool: &Pool,
    number: MethodId,
    method: &Member,
    code: &CodeBody,
) -> Result<Body, ClassesError>
    requires { IsReadable pool.now method.now code.now }
    ensures found { IfOk result (IsBodyOf pool.now number method.now code.now) }
    ensures refused { (line : List ℕ) → result ≡ Err (ClassesError.Refused line) → (name : List ℕ) × (descriptor : List ℕ) × (fault : CodeError) × (utf_at pool.now method.now.name ≡ Some name)
        × (utf_at pool.now method.now.descriptor ≡ Some descriptor) × IsFirstFault pool.now code.now fault × (line ≡ method_refusal path.now name descriptor fault) }
{
    match read_body(alloc, number, pool, method, code) {
        Ok(body) => Ok(body),
        Err(error) => Err(refusal_of(alloc, path, pool, method, error)),
    }
}

// Tries the code of the method at a place, which is this.
fn try_method(
    alloc: Global,
    path: &[u8],
    class: &ClassFile,
    place: usize,
    code: &CodeBody,
) -> Result<(), ClassesError>
    requires class { IsClassFile class.now }
    requires place { place < length class.now.methods }
    requires code { (m : Member) × IsCoded class.now place m code.now }
    ensures bodies { OnOk result ((m : Member) (code : CodeBody) → IsCoded class.now place m code → HasBody class.now place m code) }
    ensures refused { (line : List ℕ) → result ≡ Err (ClassesError.Refused line) → IsRefusedAt path.now class.now place line }
{
    let method = &class.methods.items()[place];
    let number = MethodId(place as u32);
    read_code(alloc, path, &class.pool, number, method, code)?;
    Ok(())
}

// Tries the code of the method at a place, where it has one.
fn try_place(
    alloc: Global,
    path: &[u8],
    class: &ClassFile,
    place: usize,
) -> Result<(), ClassesError>
    requires class { IsClassFile class.now }
    requires place { place < length class.now.methods }
    ensures bodies { OnOk result ((m : Member) (code : CodeBody) → IsCoded class.now place m code → HasBody class.now place m code) }
    ensures refused { (line : List ℕ) → result ≡ Err (ClassesError.Refused line) → IsRefusedAt path.now class.now place line }
{
    match code_of(&class.methods.items()[place]) {
        Some(code) => try_method(alloc, path, class, place, code),
        None => Ok(()),
    }
}

/// Reads the code of all methods, in their order.
pub fn try_bodies(alloc: Global, path: &[u8], class: &ClassFile) -> Result<(), ClassesError>
    requires { IsClassFile class.now }
    ensures bodies { OnOk result (HaveBodies class.now) }
    ensures refused { (line : List ℕ) → result ≡ Err (ClassesError.Refused line) → IsBadLine path.now class.now line }
{
    for place in 0..class.methods.items().len() {
        try_place(alloc, path, class, place)?;
    }
    Ok(())
}
