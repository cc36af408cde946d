// The shape of a method's code.
ghost use Rattle.std.specs.Prelude.{◌≡◌, ◌<◌, ◌≤◌, ◌⊎◌, ◌↔◌, ℕ, All, AllPairs, Contains, IfOk, IfErr, OnOk, Ok, Err, length};
ghost use Rattle.code_shape.specs.declared.covers.Cover.{Cover};
ghost use Rattle.code_shape.specs.Codes.{AreInOrder};
ghost use Rattle.code_shape.specs.Covers.{CoverBefore, IsCovered};
ghost use Rattle.class_form.specs.declared.body.Instr.{Instr};
ghost use Rattle.class_form.specs.declared.body.Point.{Point};
ghost use Rattle.class_form.specs.declared.body.Shape.{Shape};
ghost use Rattle.class_form.specs.Reaching.{IsFlow};
ghost use Rattle.class_form.specs.declared.code_error.CodeError.TheVariants.{NoMemory, Broken};
ghost use Rattle.class_form.specs.Shapes.{AreInstrsOf, AreArguments, HasLocal, IsReached, RunsOff, AreDepths, ArePoints, Shaped, BreaksFirst};
ghost use Rattle.code_shape.specs.Searches.{IsCode, IsDone, depth_in};

use crate::covers::{Cover, covers_of};
use crate::entries::check_entries;
use crate::locals::check_locals;
use crate::search::{Code, Search};
use class_form::body::{Instr, Point, Shape};
use class_form::class_file::CodeBody;
use class_form::code_error::CodeError;
use slicer_ids::list::List;
use std::alloc::Global;

fn covered(alloc: Global, body: &CodeBody, instrs: &[Instr]) -> Result<Vec<Cover>, CodeError>
    requires { AreInOrder instrs.now }
    ensures order { IfOk result (λ v. AllPairs CoverBefore v.items) }
    ensures members { IfOk result (λ v. (c : Cover) → Contains v.items c ↔ IsCovered body.now instrs.now c) }
    ensures err { IfErr result (λ e. e ≡ NoMemory) }
{
    match covers_of(alloc, body, instrs) {
        Ok(covers) => Ok(covers),
        Err(_) => Err(CodeError::NoMemory),
    }
}

fn searched(alloc: Global, code: &Code<'_>) -> Result<Search, CodeError>
    requires { IsCode code.now }
    ensures done { IfOk result (IsDone code.now) }
    ensures err { IfErr result (λ e. e ≡ NoMemory) }
{
    match code.search(alloc) {
        Ok(search) => Ok(search),
        Err(_) => Err(CodeError::NoMemory),
    }
}

fn pointed(alloc: Global, code: &Code<'_>, search: &Search) -> Result<Vec<Point>, CodeError>
    requires code { IsCode code.now }
    requires search { IsDone code.now search.now }
    requires locals { All (HasLocal code.now.body.now) code.now.instrs.now }
    requires ends { (i : Instr) → IsReached code.now.body.now code.now.instrs.now i → RunsOff code.now.body.now i → ⊥ }
    ensures points { IfOk result (λ v. ArePoints code.now.body.now code.now.instrs.now (depth_in code.now.instrs.now search.now.depths.items) v.items) }
    ensures err { IfErr result (λ e. e ≡ NoMemory) }
{
    match code.points(alloc, search) {
        Ok(points) => Ok(points),
        Err(_) => Err(CodeError::NoMemory),
    }
}

// The points of the code, or the first fault of its end and its depths.
fn points_of(alloc: Global, code: &Code<'_>) -> Result<Vec<Point>, CodeError>
    requires code { IsCode code.now }
    requires locals { All (HasLocal code.now.body.now) code.now.instrs.now }
    ensures ends { OnOk result ((i : Instr) → IsReached code.now.body.now code.now.instrs.now i → RunsOff code.now.body.now i → ⊥) }
    ensures points { IfOk result (λ v. (depth : ℕ → ℕ) × AreDepths code.now.body.now code.now.instrs.now depth × ArePoints code.now.body.now code.now.instrs.now depth v.items) }
    ensures refused { IfErr result (λ e. (e ≡ NoMemory) ⊎ ((rule pc : ℕ) × (e ≡ Broken rule pc) × BreaksFirst code.now.body.now code.now.instrs.now rule pc)) }
{
    let search = searched(alloc, code)?;
    code.check_end(&search)?;
    if !code.check_depths(&search) {
        return Err(CodeError::Broken { rule: 9, pc: 0 });
    }
    let points = pointed(alloc, code, &search)?;
    Ok(points)
}

fn copied(alloc: Global, arguments: &[u8]) -> Result<Vec<u8>, CodeError>
    ensures items { IfOk result (λ v. v.items ≡ arguments.now) }
    ensures err { IfErr result (λ e. e ≡ NoMemory) }
{
    match arguments.to_vec(alloc) {
        Ok(copy) => Ok(copy),
        Err(_) => Err(CodeError::NoMemory),
    }
}

// The shape, or a fault.
fn shape_of(
    alloc: Global,
    body: &CodeBody,
    instrs: &[Instr],
    arguments: &[u8],
) -> Result<Shape, CodeError>
    requires code { length body.now.code < 65536 }
    requires instrs { AreInstrsOf (length body.now.code) instrs.now }
    ensures shaped { IfOk result (Shaped body.now instrs.now arguments.now) }
    ensures refused { IfErr result (λ e. (e ≡ NoMemory) ⊎ ((rule pc : ℕ) × (e ≡ Broken rule pc) × BreaksFirst body.now instrs.now rule pc)) }
{
    check_entries(body, instrs)?;
    check_locals(body, instrs)?;
    let covers = covered(alloc, body, instrs)?;
    let code = Code {
        body,
        instrs,
        covers: covers.as_slice(),
    };
    let points = points_of(alloc, &code)?;
    let formals = copied(alloc, arguments)?;
    Ok(Shape {
        max_locals: body.max_locals,
        arguments: List::from_vec(formals),
        points: List::from_vec(points),
    })
}

/// The shape of a body with these instructions and this many slots for each argument: its reachable instructions in order, with the
/// depth of the stack before each, to where control goes on, the handlers that an exception may come to, and the slots that the
/// instruction uses, moves and makes (JVMS SE 7, 2.10, 4.9.2, 4.10.2 and 6.5).
///
/// Refused is the first rule that is broken: rule 6, where an entry of the exception table isn't at instructions, with the start of
/// the first such entry; rule 7, where a local isn't below the number of locals, at the first such instruction; rule 8, where control
/// may leave the code at its end, at the last instruction; and rule 9, where no depths fit together, at pc 0. Nothing else is refused;
/// in particular there is no `Jsr`.
///
/// It takes time for the instructions, the entries, and the pairs of an instruction and a handler that it has, times a logarithm.
pub fn shape(
    alloc: Global,
    body: &CodeBody,
    instrs: &[Instr],
    arguments: &[u8],
) -> Result<Shape, CodeError>
    requires code { length body.now.code < 65536 }
    requires instrs { AreInstrsOf (length body.now.code) instrs.now }
    requires arguments { AreArguments body.now arguments.now }
    ensures shaped { IfOk result (Shaped body.now instrs.now arguments.now) }
    ensures refused { IfErr result (λ e. (e ≡ NoMemory) ⊎ ((rule pc : ℕ) × (e ≡ Broken rule pc) × BreaksFirst body.now instrs.now rule pc)) }
    ensures only { (s : Shape) → Shaped body.now instrs.now arguments.now s → (result ≡ Ok s) ⊎ (result ≡ Err NoMemory) }
    ensures only_refused { (rule pc : ℕ) → BreaksFirst body.now instrs.now rule pc → (result ≡ Err (Broken rule pc)) ⊎ (result ≡ Err NoMemory) }
    ensures flow { IfOk result IsFlow }
{
    match shape_of(alloc, body, instrs, arguments) {
        Ok(shape) => Ok(shape),
        Err(error) => Err(error),
    }
}
