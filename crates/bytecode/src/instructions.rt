// One instruction.
ghost use Rattle.std.specs.Prelude.{◌≡◌, ◌⊎◌, ◌<◌, ◌≤◌, ◌+◌, length, IfOk, IfErr, OnOk};
ghost use Rattle.class_form.specs.Instructions.{HasConstant, HasNumbers, kind_of, size_of, checks, FailsFirst};
ghost use Rattle.class_form.specs.declared.code_error.CodeError.TheVariants.{NoMemory, Broken};
ghost use Rattle.bytecode.specs.Parts.{Describes, IsChecked, StandsClamped};

use crate::constants::described;
use crate::descriptors::Described;
use crate::fields::{dims_at, index_at};
use crate::heads::{Head, head_at};
use crate::keys::has_numbers;
use crate::operands::{operands, slots_left};
use crate::sizes::size_at;
use crate::targets::targets;
use class_form::body::Instr;
use class_form::code_error::CodeError;
use class_form::opcode::Form;
use class_form::pool::Pool;
use slicer_ids::list::List;
use std::alloc::Global;

/// An instruction of which all checks are kept.
#[derive(Drop)]
struct Checked {
    head: Head,
    size: u32,
    index: u16,
    dims: u8,
    described: Described,
}

/// The instruction at a place, but that its targets may lead to no instruction.
pub(crate) fn instruction_at(
    alloc: Global,
    code: &[u8],
    pool: &Pool,
    pc: usize,
) -> Result<Instr, CodeError>
    requires inside { pc < length code.now }
    requires fits { length code.now < 65536 }
    ensures stands { IfOk result (StandsClamped code.now pool.now pc) }
    ensures some { IfOk result (λ i. 0 < i.size) }
    ensures within { IfOk result (λ i. pc + i.size ≤ length code.now) }
    ensures refused { IfErr result (λ e. (e ≡ NoMemory) ⊎ FailsFirst code.now pool.now pc e checks) }
{
    let checked = checked_at(alloc, code, pool, pc)?;
    made_of(alloc, code, pool, pc, checked)
}

// The instruction at a place, after all its checks.
fn checked_at(alloc: Global, code: &[u8], pool: &Pool, pc: usize) -> Result<Checked, CodeError>
    requires inside { pc < length code.now }
    requires fits { length code.now < 65536 }
    ensures checked { IfOk result (IsChecked code.now pool.now pc) }
    ensures refused { IfErr result (λ e. (e ≡ NoMemory) ⊎ FailsFirst code.now pool.now pc e checks) }
{
    let head = head_at(code, pool, pc)?;
    let size = size_at(code, pc, head.form)?;
    let index = index_at(code, pc, head.form);
    let dims = dims_at(code, pc, head.form);
    let described = right_constant(alloc, pool, head.op, index, head.form, pc)?;
    check_numbers(code, pool, pc, head.form)?;
    Ok(Checked {
        head,
        size,
        index,
        dims,
        described,
    })
}

// The types of the constant that an instruction names, or that it may not name it.
fn right_constant(
    alloc: Global,
    pool: &Pool,
    op: u8,
    index: u16,
    form: Form,
    pc: usize,
) -> Result<Described, CodeError>
    requires fits { pc < 65536 }
    ensures right { IfOk result (λ d. HasConstant pool.now op index form × Describes pool.now index (kind_of form) d) }
    ensures refused { IfErr result (λ e. (e ≡ NoMemory) ⊎ ((HasConstant pool.now op index form → ⊥) × (e ≡ Broken 3 pc))) }
{
    match described(alloc, pool, op, index, form) {
        Ok(Some(described)) => Ok(described),
        Ok(None) => Err(CodeError::Broken {
            rule: 3,
            pc: pc as u16,
        }),
        Err(error) => Err(error),
    }
}

// Refuses wrong numbers of an instruction.
fn check_numbers(code: &[u8], pool: &Pool, pc: usize, form: Form) -> Result<(), CodeError>
    requires fits { length code.now < 65536 }
    requires within { pc + size_of code.now pc form ≤ length code.now }
    ensures right { OnOk result (HasNumbers code.now pool.now pc form) }
    ensures refused { IfErr result (λ e. (HasNumbers code.now pool.now pc form → ⊥) × (e ≡ Broken 4 pc)) }
{
    if has_numbers(code, pool, pc, form) {
        Ok(())
    } else {
        Err(CodeError::Broken {
            rule: 4,
            pc: pc as u16,
        })
    }
}

// The instruction that was checked.
fn made_of(
    alloc: Global,
    code: &[u8],
    pool: &Pool,
    pc: usize,
    checked: Checked,
) -> Result<Instr, CodeError>
    requires inside { pc < length code.now }
    requires fits { length code.now < 65536 }
    requires checked { IsChecked code.now pool.now pc checked }
    ensures stands { IfOk result (StandsClamped code.now pool.now pc) }
    ensures size { IfOk result (λ i. i.size ≡ checked.size) }
    ensures memory { IfErr result (λ e. e ≡ NoMemory) }
{
    let targets = targets(alloc, code, pc, checked.head.form)?;
    let takes = operands(
        alloc,
        checked.head.opcode.takes,
        checked.dims,
        &checked.described,
    )?;
    let leaves = slots_left(checked.head.opcode.leaves, &checked.described);
    Ok(Instr {
        pc: pc as u16,
        size: checked.size,
        op: checked.head.op,
        wide: checked.head.wide,
        index: checked.index,
        dims: checked.dims,
        targets: List::from_vec(targets),
        takes: List::from_vec(takes),
        leaves,
    })
}
