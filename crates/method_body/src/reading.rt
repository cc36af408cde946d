// The code of a method, read whole.
ghost use Rattle.std.specs.Prelude.{◌≡◌, ◌⊎◌, ℕ, List, length, Ok, Err, IfOk, IfErr};
ghost use Rattle.byte_form.specs.Places.{IsBytes};
ghost use Rattle.class_form.specs.ClassRules.{IsCodeLength};
ghost use Rattle.class_form.specs.Instructions.{Instrs, FirstCodeFault};
ghost use Rattle.class_form.specs.Shapes.{AreInstrsOf, AreArguments, Shaped, BreaksFirst};
ghost use Rattle.class_form.specs.Reaching.{IsFlow};
ghost use Rattle.class_form.specs.Reaches.{IsReachOf};
ghost use Rattle.class_form.specs.declared.body.Body.{Body};
ghost use Rattle.class_form.specs.declared.code_error.CodeError.{CodeError};
ghost use Rattle.class_form.specs.declared.code_error.CodeError.TheVariants.{NoMemory, Broken};
ghost use Rattle.body_form.specs.Bodies.{AreSlotsOf, IsReadable, IsBodyOf, IsFirstFault};

use crate::arguments::slots_of;
use bytecode::decode;
use class_form::body::{Body, Instr, Shape};
use class_form::class_file::{CodeBody, Member};
use class_form::code_error::CodeError;
use class_form::pool::Pool;
use class_form::reach::Reach;
use code_shape::shape;
use reaching_defs::reaching;
use slicer_ids::ids::MethodId;
use slicer_ids::list::List;
use std::alloc::Global;

// The instructions of a code, from its start to its end, or its first fault.
fn instructions(alloc: Global, pool: &Pool, code: &[u8]) -> Result<List<Instr>, CodeError>
    requires { IsCodeLength (length code.now) }
    ensures found { IfOk result (Instrs code.now pool.now) }
    ensures order { IfOk result (AreInstrsOf (length code.now)) }
    ensures refused { IfErr result (λ e. (e ≡ NoMemory) ⊎ FirstCodeFault code.now pool.now e) }
    ensures bytes { IsBytes code.now }
{
    match decode(alloc, code, pool) {
        Ok(instrs) => Ok(instrs),
        Err(error) => Err(error),
    }
}

// The shape of the code with the arguments of the method, or the first rule that is broken.
fn shaped(
    alloc: Global,
    pool: &Pool,
    method: &Member,
    code: &CodeBody,
    instrs: &[Instr],
) -> Result<Shape, CodeError>
    requires method { IsReadable pool.now method.now code.now }
    requires instrs { AreInstrsOf (length code.now.code) instrs.now }
    ensures shaped { IfOk result (λ s. (slots : List ℕ) × AreSlotsOf pool.now method.now slots × Shaped code.now instrs.now slots s) }
    ensures arguments { IfOk result (λ s. AreArguments code.now s.arguments) }
    ensures flow { IfOk result IsFlow }
    ensures refused { IfErr result (λ e. (e ≡ NoMemory) ⊎ ((rule pc : ℕ) × (e ≡ Broken rule pc) × BreaksFirst code.now instrs.now rule pc)) }
{
    let slots = slots_of(alloc, pool, method)?;
    match shape(alloc, code, instrs, slots.as_slice()) {
        Ok(shape) => Ok(shape),
        Err(error) => Err(error),
    }
}

// The definitions that reach the slots of a shape.
fn reached(alloc: Global, shape: &Shape) -> Result<Reach, CodeError>
    requires { IsFlow shape.now }
    ensures found { IfOk result (IsReachOf shape.now) }
    ensures memory { IfErr result (λ e. e ≡ NoMemory) }
{
    match reaching(alloc, shape) {
        Ok(reach) => Ok(reach),
        Err(_) => Err(CodeError::NoMemory),
    }
}

// The body, or a fault.
fn body_of(
    alloc: Global,
    number: MethodId,
    pool: &Pool,
    method: &Member,
    code: &CodeBody,
) -> Result<Body, CodeError>
    requires { IsReadable pool.now method.now code.now }
    ensures found { IfOk result (IsBodyOf pool.now number method.now code.now) }
    ensures refused { IfErr result (λ e. (e ≡ NoMemory) ⊎ IsFirstFault pool.now code.now e) }
    ensures bytes { IsBytes code.now.code }
    ensures order { IfOk result (λ b. AreInstrsOf (length code.now.code) b.instrs) }
    ensures arguments { IfOk result (λ b. AreArguments code.now b.shape.arguments) }
    ensures flow { IfOk result (λ b. IsFlow b.shape) }
{
    let instrs = instructions(alloc, pool, code.code.bytes())?;
    let shape = shaped(alloc, pool, method, code, instrs.items())?;
    let reach = reached(alloc, &shape)?;
    Ok(Body {
        method: number,
        instrs,
        shape,
        reach,
    })
}

/// The code of a method of this number, read: its instructions, its shape and the definitions that reach its slots
/// (JVMS SE 7, 4.9, 4.10.2 and chapter 6). The arguments stand in the first locals, the receiver's before the others; a static
/// method has none.
///
/// The code is refused at its first fault: that of its instructions, a broken rule from 1 to 5 or `Jsr`, or else the first broken
/// rule from 6 to 9 of its shape. It has one body or one first fault, and `NoMemory` is the one other answer.
///
/// It takes the time of `decode`, `shape` and `reaching` together.
pub fn read_body(
    alloc: Global,
    number: MethodId,
    pool: &Pool,
    method: &Member,
    code: &CodeBody,
) -> Result<Body, CodeError>
    requires { IsReadable pool.now method.now code.now }
    ensures found { IfOk result (IsBodyOf pool.now number method.now code.now) }
    ensures refused { IfErr result (λ e. (e ≡ NoMemory) ⊎ IsFirstFault pool.now code.now e) }

    // No other body, and no other fault.
    ensures only { (b : Body) → IsBodyOf pool.now number method.now code.now b → (result ≡ Ok b) ⊎ (result ≡ Err NoMemory) }
    ensures only_refused { (fault : CodeError) → IsFirstFault pool.now code.now fault → (result ≡ Err fault) ⊎ (result ≡ Err NoMemory) }

    // Of such a body, what those who go on with it ask.
    ensures order { IfOk result (λ b. AreInstrsOf (length code.now.code) b.instrs) }
    ensures arguments { IfOk result (λ b. AreArguments code.now b.shape.arguments) }
    ensures flow { IfOk result (λ b. IsFlow b.shape) }
{
    match body_of(alloc, number, pool, method, code) {
        Ok(body) => Ok(body),
        Err(error) => Err(error),
    }
}
