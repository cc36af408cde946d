// What an instruction says of a local or a constant.
ghost use Rattle.std.specs.Prelude.{◌≡◌, ◌<◌, ◌≤◌, ◌+◌, length};
ghost use Rattle.class_form.specs.Instructions.{index_of, dims_of, size_of};

use crate::numbers::short_at;
use class_form::opcode::Form;

/// The local or the index of the constant that an instruction names; 0 where it names none.
pub(crate) fn index_at(code: &[u8], pc: usize, form: Form) -> u16
    requires fits { length code.now < 65536 }
    requires within { pc + size_of code.now pc form ≤ length code.now }
    ensures { result ≡ index_of code.now pc form }
{
    match form {
        Form::OwnLocal(local) => u16::from(local),
        Form::Local => u16::from(code[pc + 1]),
        Form::Increment => u16::from(code[pc + 1]),
        Form::WideLocal => short_at(code, pc + 2),
        Form::WideIncrement => short_at(code, pc + 2),
        Form::ShortIndex(_) => u16::from(code[pc + 1]),
        Form::Index(_) => short_at(code, pc + 1),
        Form::LongIndex(_) => short_at(code, pc + 1),
        Form::Dimensions => short_at(code, pc + 1),
        _ => 0,
    }
}

/// The dimensions that a multianewarray names; 0 of any other instruction.
pub(crate) fn dims_at(code: &[u8], pc: usize, form: Form) -> u8
    requires fits { length code.now < 65536 }
    requires within { pc + size_of code.now pc form ≤ length code.now }
    ensures { result ≡ dims_of code.now pc form }
{
    match form {
        Form::Dimensions => code[pc + 3],
        _ => 0,
    }
}
