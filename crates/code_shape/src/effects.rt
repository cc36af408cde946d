// What an instruction takes off the stack and leaves on it.
ghost use Rattle.std.specs.Prelude.{◌≡◌, ◌≤◌, ℕ, All, length};
ghost use Rattle.class_form.specs.declared.body.Operand.{Operand};
ghost use Rattle.class_form.specs.Table.{moves_of, opcode_of};
ghost use Rattle.class_form.specs.Shapes.{operand_slots as slots_of, is_local as names_local, reads_local as reads, moved_slots, taken as taken_by, local_slots as local_of};

use class_form::body::{Instr, Operand};
use class_form::opcode::{Opcode, Takes, stack_moves};

/// The slots of all operands together.
pub fn operand_slots(operands: &[Operand]) -> u32
    requires { length operands.now ≤ 256 }
    ensures slots { result ≡ slots_of operands.now }
    ensures small { result ≤ 65280 }
{
    let mut slots = 0u32;
    for operand in operands {
        slots += operand.slots as u32;
    }
    slots
}

fn is_local(takes: Takes) -> bool
    ensures { result ≡ names_local takes }
{
    match takes {
        Takes::Local(_) => true,
        _ => false,
    }
}

/// Whether its operand is a local, and nothing is taken off the stack.
pub fn reads_local(instr: &Instr) -> bool
    ensures { result ≡ reads instr.now }
{
    is_local(Opcode::of(instr.op).takes)
}

/// How many slots an opcode moves.
pub fn moved_taken(op: u8) -> u32
    ensures taken { result ≡ (moved_slots (moves_of op)).takes }
    ensures small { result ≤ 255 }
{
    match stack_moves(op) {
        Some(moves) => moves.takes as u32,
        None => 0,
    }
}

/// Which of the slots that an opcode moves it leaves, from the bottom.
pub fn moved_left(op: u8) -> &'static [u8]
    ensures { result.now ≡ (moved_slots (moves_of op)).leaves }
{
    match stack_moves(op) {
        Some(moves) => moves.leaves,
        None => &[],
    }
}

/// Whether control goes on to the next instruction.
pub fn goes_on(instr: &Instr) -> bool
    ensures { result ≡ (opcode_of instr.now.op).goes_on }
{
    Opcode::of(instr.op).goes_on
}

/// How many slots an instruction takes off the stack.
pub fn taken(instr: &Instr) -> u32
    requires { length instr.now.takes ≤ 256 }
    ensures taken { result ≡ taken_by instr.now }
    ensures small { result ≤ 65535 }
{
    let operands = if reads_local(instr) {
        0
    } else {
        operand_slots(instr.takes.items())
    };
    operands + moved_taken(instr.op)
}

/// How many slots of a local it reads or writes, from that local on.
pub fn local_slots(instr: &Instr) -> u32
    requires { length instr.now.takes ≤ 256 }
    ensures slots { result ≡ local_of instr.now }
    ensures small { result ≤ 65535 }
{
    let operands = if reads_local(instr) {
        operand_slots(instr.takes.items())
    } else {
        0
    };
    operands.max(Opcode::of(instr.op).makes as u32)
}
