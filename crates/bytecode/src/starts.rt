// Jumps lead to where instructions begin.
ghost use Rattle.std.specs.Prelude.{◌≡◌, ◌⊎◌, ◌<◌, ◌↔◌, ℕ, List, All, Contains, replicate, false, IfOk, IfErr, OnOk, MatchBool, slice_index_or};
ghost use Rattle.class_form.specs.declared.code_error.CodeError.TheVariants.{NoMemory};
ghost use Rattle.bytecode.specs.Starts.{pcs, IsMarked, JumpsWell, MissesFirst};

use class_form::body::Instr;
use class_form::code_error::CodeError;
use std::alloc::Global;

/// Whether the jumps of all instructions lead to where one of them begins; else the first that has one that doesn't.
/// Takes time that is linear in the size of the code and the number of targets.
pub(crate) fn check_targets(alloc: Global, size: usize, instrs: &[Instr]) -> Result<(), CodeError>
    requires below { All (λ i. i.pc < size) instrs.now }
    ensures right { OnOk result (All (JumpsWell (pcs instrs.now)) instrs.now) }
    ensures refused { IfErr result (λ e. (e ≡ NoMemory) ⊎ MissesFirst (pcs instrs.now) instrs.now e) }
{
    let marks = marks_of(alloc, size, instrs)?;
    check_marked(marks.as_slice(), instrs)
}

// A mark at each place where an instruction begins.
fn marks_of(alloc: Global, size: usize, instrs: &[Instr]) -> Result<Vec<bool>, CodeError>
    requires below { All (λ i. i.pc < size) instrs.now }
    ensures exact { IfOk result (λ v. (pc : ℕ) → IsMarked v.items pc ↔ Contains (pcs instrs.now) pc) }
    ensures memory { IfErr result (λ e. e ≡ NoMemory) }
{
    let mut marks = no_marks(alloc, size)?;
    for instr in instrs {
        marks[instr.pc as usize] = true;
    }
    Ok(marks)
}

fn no_marks(alloc: Global, size: usize) -> Result<Vec<bool>, CodeError>
    ensures none { IfOk result (λ v. v.items ≡ replicate size false) }
    ensures memory { IfErr result (λ e. e ≡ NoMemory) }
{
    Ok(vec![in alloc; false; size]?)
}

// Whether the jumps of all instructions lead to marked places.
fn check_marked(marks: &[bool], instrs: &[Instr]) -> Result<(), CodeError>
    requires exact { (pc : ℕ) → IsMarked marks.now pc ↔ Contains (pcs instrs.now) pc }
    ensures right { OnOk result (All (JumpsWell (pcs instrs.now)) instrs.now) }
    ensures refused { IfErr result (MissesFirst (pcs instrs.now) instrs.now) }
{
    for instr in instrs {
        if !are_marked(marks, instr.targets.items()) {
            return Err(CodeError::Broken {
                rule: 5,
                pc: instr.pc,
            });
        }
    }
    Ok(())
}

// Whether all of some places are marked.
fn are_marked(marks: &[bool], places: &[u16]) -> bool
    ensures { MatchBool result (All (IsMarked marks.now) places.now) ((place : ℕ) × Contains places.now place × (IsMarked marks.now place → ⊥)) }
{
    for place in places {
        if !is_marked(marks, *place) {
            return false;
        }
    }
    true
}

fn is_marked(marks: &[bool], place: u16) -> bool
    ensures { result ≡ slice_index_or marks.now place false }
{
    match marks.get(place as usize) {
        Some(mark) => *mark,
        None => false,
    }
}
