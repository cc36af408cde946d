// How long an instruction is.
ghost use Rattle.std.specs.Prelude.{◌≡◌, ◌≢◌, ◌<◌, ◌≤◌, ◌+◌, ◌^◌, length, IfOk, IfErr};
ghost use Rattle.class_form.specs.Instructions.{size_of, head_size, HasCount};
ghost use Rattle.class_form.specs.declared.opcode.Form.TheVariants.{TableSwitch, LookupSwitch};
ghost use Rattle.bytecode.specs.Parts.{WrongSize, fixed_size};

use crate::numbers::{aligned, signed_word_at, word_at};
use class_form::code_error::CodeError;
use class_form::opcode::Form;

/// The bytes of the instruction at a place, after the three checks of its size.
pub(crate) fn size_at(code: &[u8], pc: usize, form: Form) -> Result<u32, CodeError>
    requires inside { pc < length code.now }
    requires fits { length code.now < 65536 }
    ensures size { IfOk result (λ n. n ≡ size_of code.now pc form) }
    ensures some { IfOk result (λ n. 0 < n) }
    ensures head { IfOk result (λ n. pc + head_size code.now pc form ≤ length code.now) }
    ensures count { IfOk result (λ n. HasCount code.now pc form) }
    ensures within { IfOk result (λ n. pc + n ≤ length code.now) }
    ensures refused { IfErr result (WrongSize code.now pc form) }
{
    match form {
        Form::TableSwitch => table_size(code, pc),
        Form::LookupSwitch => lookup_size(code, pc),
        _ => plain_size(code, pc, form),
    }
}

// The bytes of an instruction that is no switch.
fn plain_size(code: &[u8], pc: usize, form: Form) -> Result<u32, CodeError>
    requires inside { pc < length code.now }
    requires fits { length code.now < 65536 }
    requires no_table { form ≢ TableSwitch }
    requires no_lookup { form ≢ LookupSwitch }
    ensures size { IfOk result (λ n. n ≡ size_of code.now pc form) }
    ensures some { IfOk result (λ n. 0 < n) }
    ensures head { IfOk result (λ n. pc + head_size code.now pc form ≤ length code.now) }
    ensures count { IfOk result (λ n. HasCount code.now pc form) }
    ensures within { IfOk result (λ n. pc + n ≤ length code.now) }
    ensures refused { IfErr result (WrongSize code.now pc form) }
{
    let size = fixed_size(form);
    if code.len() - pc < size as usize {
        return Err(CodeError::Broken {
            rule: 2,
            pc: pc as u16,
        });
    }
    Ok(size)
}

fn fixed_size(form: Form) -> u32
    ensures size { result ≡ fixed_size form }
    ensures some { 0 < result }
{
    match form {
        Form::Byte => 2,
        Form::Short => 3,
        Form::Local => 2,
        Form::Increment => 3,
        Form::WideLocal => 4,
        Form::WideIncrement => 6,
        Form::ShortIndex(_) => 2,
        Form::Index(_) => 3,
        Form::LongIndex(_) => 5,
        Form::Dimensions => 4,
        Form::ElementType => 2,
        Form::Jump => 3,
        Form::LongJump => 5,
        Form::Wide => 2,
        _ => 1,
    }
}

// The bytes of a tableswitch.
fn table_size(code: &[u8], pc: usize) -> Result<u32, CodeError>
    requires inside { pc < length code.now }
    requires fits { length code.now < 65536 }
    ensures size { IfOk result (λ n. n ≡ size_of code.now pc TableSwitch) }
    ensures some { IfOk result (λ n. 0 < n) }
    ensures head { IfOk result (λ n. pc + head_size code.now pc TableSwitch ≤ length code.now) }
    ensures count { IfOk result (λ n. HasCount code.now pc TableSwitch) }
    ensures within { IfOk result (λ n. pc + n ≤ length code.now) }
    ensures refused { IfErr result (WrongSize code.now pc TableSwitch) }
{
    let start = aligned(pc);
    if code.len() < start + 12 {
        return Err(CodeError::Broken {
            rule: 2,
            pc: pc as u16,
        });
    }
    let least = signed_word_at(code, start + 4);
    let greatest = signed_word_at(code, start + 8);
    if least > greatest {
        return Err(CodeError::Broken {
            rule: 4,
            pc: pc as u16,
        });
    }
    let keys = u64::from(greatest - least) + 1;
    let end = start as u64 + 12 + 4 * keys;
    if (code.len() as u64) < end {
        return Err(CodeError::Broken {
            rule: 2,
            pc: pc as u16,
        });
    }
    Ok((end - pc as u64) as u32)
}

// The bytes of a lookupswitch.
fn lookup_size(code: &[u8], pc: usize) -> Result<u32, CodeError>
    requires inside { pc < length code.now }
    requires fits { length code.now < 65536 }
    ensures size { IfOk result (λ n. n ≡ size_of code.now pc LookupSwitch) }
    ensures some { IfOk result (λ n. 0 < n) }
    ensures head { IfOk result (λ n. pc + head_size code.now pc LookupSwitch ≤ length code.now) }
    ensures count { IfOk result (λ n. HasCount code.now pc LookupSwitch) }
    ensures within { IfOk result (λ n. pc + n ≤ length code.now) }
    ensures refused { IfErr result (WrongSize code.now pc LookupSwitch) }
{
    let start = aligned(pc);
    if code.len() < start + 8 {
        return Err(CodeError::Broken {
            rule: 2,
            pc: pc as u16,
        });
    }
    let keys = word_at(code, start + 4);
    if keys >= 0x8000_0000 {
        return Err(CodeError::Broken {
            rule: 4,
            pc: pc as u16,
        });
    }
    let end = start as u64 + 8 + 8 * u64::from(keys);
    if (code.len() as u64) < end {
        return Err(CodeError::Broken {
            rule: 2,
            pc: pc as u16,
        });
    }
    Ok((end - pc as u64) as u32)
}
