// Where an instruction jumps.
ghost use Rattle.std.specs.Prelude.{◌≡◌, ◌<◌, ◌≤◌, ◌+◌, ◌*◌, ◌++◌, ℕ, map, length, IfOk, IfErr};
ghost use Rattle.class_form.specs.Bytes.{words_at, target_of};
ghost use Rattle.class_form.specs.Instructions.{distances_of, size_of, HasCount};
ghost use Rattle.class_form.specs.declared.code_error.CodeError.TheVariants.{NoMemory};
ghost use Rattle.class_form.specs.declared.opcode.Form.TheVariants.{TableSwitch, LookupSwitch};
ghost use Rattle.bytecode.specs.Parts.{clamped};

use crate::numbers::{aligned, signed_short_at, signed_word_at, target_of, word_at};
use class_form::code_error::CodeError;
use class_form::opcode::Form;
use std::alloc::Global;

/// Where the instruction at a place may jump: a switch by default, then by its keys in their order. The greatest number
/// stands for places that are no pc.
pub(crate) fn targets(
    alloc: Global,
    code: &[u8],
    pc: usize,
    form: Form,
) -> Result<Vec<u16>, CodeError>
    requires fits { length code.now < 65536 }
    requires count { HasCount code.now pc form }
    requires within { pc + size_of code.now pc form ≤ length code.now }
    ensures found { IfOk result (λ v. v.items ≡ map (λ d. clamped (target_of pc d)) (distances_of code.now pc form)) }
    ensures memory { IfErr result (λ e. e ≡ NoMemory) }
{
    match form {
        Form::Jump => Ok(vec![in alloc; target_of(pc, signed_short_at(code, pc + 1))]?),
        Form::LongJump => Ok(vec![in alloc; target_of(pc, signed_word_at(code, pc + 1))]?),
        Form::TableSwitch => table_targets(alloc, code, pc),
        Form::LookupSwitch => lookup_targets(alloc, code, pc),
        _ => Ok(Vec::new(alloc)),
    }
}

fn table_targets(alloc: Global, code: &[u8], pc: usize) -> Result<Vec<u16>, CodeError>
    requires fits { length code.now < 65536 }
    requires count { HasCount code.now pc TableSwitch }
    requires within { pc + size_of code.now pc TableSwitch ≤ length code.now }
    ensures found { IfOk result (λ v. v.items ≡ map (λ d. clamped (target_of pc d)) (distances_of code.now pc TableSwitch)) }
    ensures memory { IfErr result (λ e. e ≡ NoMemory) }
{
    let start = aligned(pc);
    let least = signed_word_at(code, start + 4);
    let greatest = signed_word_at(code, start + 8);
    let default = target_of(pc, signed_word_at(code, start));
    let keys = (greatest - least) as usize + 1;
    with_keys(vec![in alloc; default]?, code, pc, start + 12, 4, keys)
}

fn lookup_targets(alloc: Global, code: &[u8], pc: usize) -> Result<Vec<u16>, CodeError>
    requires fits { length code.now < 65536 }
    requires within { pc + size_of code.now pc LookupSwitch ≤ length code.now }
    ensures found { IfOk result (λ v. v.items ≡ map (λ d. clamped (target_of pc d)) (distances_of code.now pc LookupSwitch)) }
    ensures memory { IfErr result (λ e. e ≡ NoMemory) }
{
    let start = aligned(pc);
    let keys = word_at(code, start + 4) as usize;
    let default = target_of(pc, signed_word_at(code, start));
    with_keys(vec![in alloc; default]?, code, pc, start + 12, 8, keys)
}

// Some targets, and those of so many distances, from a place on, each so many bytes after the one before.
fn with_keys(
    targets: Vec<u16>,
    code: &[u8],
    pc: usize,
    from: usize,
    step: usize,
    count: usize,
) -> Result<Vec<u16>, CodeError>
    requires pc { pc < 65536 }
    requires fits { length code.now < 65536 }
    requires within { (k : ℕ) → k < count → from + step * k + 3 < length code.now }
    ensures found { IfOk result (λ v. v.items ≡ targets.items ++ map (λ d. clamped (target_of pc d)) (words_at code.now from step count)) }
    ensures memory { IfErr result (λ e. e ≡ NoMemory) }
{
    let mut all = targets;
    for k in 0..count {
        let distance = signed_word_at(code, from + step * k);
        all.push(target_of(pc, distance))?;
    }
    Ok(all)
}
