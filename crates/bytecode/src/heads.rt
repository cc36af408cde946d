// The opcode of an instruction, and what follows it.
ghost use Rattle.std.specs.Prelude.{◌≡◌, ◌<◌, ◌^◌, length, IfOk, IfErr};
ghost use Rattle.class_form.specs.Table.{opcode_of};
ghost use Rattle.class_form.specs.Instructions.{op_at, is_wide, form_at, widened, is_undefined, is_subroutine, is_known, Passes, FailsFirst};
ghost use Rattle.bytecode.specs.Parts.{opcode_checks};

use class_form::code_error::CodeError;
use class_form::opcode::{Form, Opcode};
use class_form::pool::Pool;

const WIDE: u8 = 196;

const INVOKEDYNAMIC: u8 = 186;

/// What an instruction begins with.
#[derive(Clone, Copy)]
pub(crate) struct Head {
    pub wide: bool,
    pub op: u8,
    pub form: Form,
    pub opcode: Opcode,
}

/// The opcode of the instruction at a place, after the two checks of it.
pub(crate) fn head_at(code: &[u8], pool: &Pool, pc: usize) -> Result<Head, CodeError>
    requires inside { pc < length code.now }
    requires fits { pc < 65536 }
    ensures wide { IfOk result (λ h. h.wide ≡ is_wide code.now pc) }
    ensures op { IfOk result (λ h. h.op ≡ op_at code.now pc) }
    ensures form { IfOk result (λ h. h.form ≡ form_at code.now pc) }
    ensures opcode { IfOk result (λ h. h.opcode ≡ opcode_of h.op) }
    ensures passes { IfOk result (λ h. Passes code.now pool.now pc opcode_checks) }
    ensures refused { IfErr result (λ e. FailsFirst code.now pool.now pc e opcode_checks) }
{
    let op = op_at(code, pc);
    let opcode = Opcode::of(op);
    let form = form_at(code, pc, opcode);
    if !is_known(pool.major, op, form) {
        return Err(CodeError::Broken {
            rule: 1,
            pc: pc as u16,
        });
    }
    if is_subroutine(form) {
        return Err(CodeError::Jsr(pc as u16));
    }
    Ok(Head {
        wide: code[pc] == WIDE,
        op,
        form,
        opcode,
    })
}

// The opcode, which stands after `wide` where that is there; 0 where the code ends before it.
fn op_at(code: &[u8], pc: usize) -> u8
    requires { pc < length code.now }
    ensures { result ≡ op_at code.now pc }
{
    if code[pc] != WIDE {
        return code[pc];
    }
    if pc + 1 < code.len() { code[pc + 1] } else { 0 }
}

// What follows the opcode.
fn form_at(code: &[u8], pc: usize, opcode: Opcode) -> Form
    requires inside { pc < length code.now }
    requires opcode { opcode ≡ opcode_of (op_at code.now pc) }
    ensures { result ≡ form_at code.now pc }
{
    if code[pc] != WIDE {
        return opcode.form;
    }
    if pc + 1 < code.len() {
        widened(opcode.form)
    } else {
        Form::Wide
    }
}

// What follows an opcode after `wide`.
fn widened(form: Form) -> Form
    ensures { result ≡ widened form }
{
    match form {
        Form::Local => Form::WideLocal,
        Form::Increment => Form::WideIncrement,
        Form::SubroutineReturn => Form::SubroutineReturn,
        _ => Form::Undefined,
    }
}

// Whether there is such an instruction in class files of this version.
fn is_known(major: u16, op: u8, form: Form) -> bool
    ensures { result ≡ is_known major op form }
{
    !is_undefined(form) && !(op == INVOKEDYNAMIC && major < 51)
}

fn is_undefined(form: Form) -> bool
    ensures { result ≡ is_undefined form }
{
    match form {
        Form::Undefined => true,
        _ => false,
    }
}

fn is_subroutine(form: Form) -> bool
    ensures { result ≡ is_subroutine form }
{
    match form {
        Form::SubroutineCall => true,
        Form::SubroutineReturn => true,
        _ => false,
    }
}
