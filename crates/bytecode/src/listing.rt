// The instructions of a code.
ghost use Rattle.std.specs.Prelude.{◌≡◌, ◌⊎◌, ◌<◌, ◌+◌, ◌^◌, List, Ok, Err, length, IfOk, IfErr};
ghost use Rattle.class_form.specs.Instructions.{Instrs, FirstCodeFault};
ghost use Rattle.class_form.specs.declared.body.Instr.{Instr};
ghost use Rattle.class_form.specs.declared.code_error.CodeError.{CodeError};
ghost use Rattle.class_form.specs.declared.code_error.CodeError.TheVariants.{NoMemory};
ghost use Rattle.bytecode.specs.Parts.{AreClamped};

use crate::instructions::instruction_at;
use crate::starts::check_targets;
use class_form::body::Instr;
use class_form::code_error::CodeError;
use class_form::pool::Pool;
use slicer_ids::list::List;
use std::alloc::Global;

/// The instructions of a code in order of pc, with the operands that each takes and the slots that it leaves by the types
/// of the constants that it names. The code is refused at its first fault: at each instruction from pc 0 on, an opcode that
/// there is not (rule 1), a subroutine, an instruction that passes the code's end (rule 2), a constant of a wrong kind
/// (rule 3) and a wrong number (rule 4) are tried in this order, but a count of keys before the keys; where none of these
/// is found anywhere, the first jump that leads to no start of an instruction is (rule 5).
///
/// One pass over the code and one over the targets; a descriptor is read at each instruction that names it.
pub fn decode(alloc: Global, code: &[u8], pool: &Pool) -> Result<List<Instr>, CodeError>
    requires { length code.now < 65536 }
    ensures found { IfOk result (Instrs code.now pool.now) }
    ensures refused { IfErr result (λ e. (e ≡ NoMemory) ⊎ FirstCodeFault code.now pool.now e) }

    // No other list, and no other fault.
    ensures only { (list : List Instr) → Instrs code.now pool.now list → (result ≡ Ok list) ⊎ (result ≡ Err NoMemory) }
    ensures only_refused { (fault : CodeError) → FirstCodeFault code.now pool.now fault → (result ≡ Err fault) ⊎ (result ≡ Err NoMemory) }
{
    match listed(alloc, code, pool) {
        Ok(instrs) => Ok(List::from_vec(instrs)),
        Err(error) => Err(error),
    }
}

// The instructions, of which each jump leads to the start of one.
fn listed(alloc: Global, code: &[u8], pool: &Pool) -> Result<Vec<Instr>, CodeError>
    requires { length code.now < 65536 }
    ensures found { IfOk result (λ v. Instrs code.now pool.now v.items) }
    ensures refused { IfErr result (λ e. (e ≡ NoMemory) ⊎ FirstCodeFault code.now pool.now e) }
{
    let instrs = clamped(alloc, code, pool)?;
    check_targets(alloc, code.len(), instrs.as_slice())?;
    Ok(instrs)
}

// The instructions, of which each jump that leads to no pc leads to 65535.
fn clamped(alloc: Global, code: &[u8], pool: &Pool) -> Result<Vec<Instr>, CodeError>
    requires { length code.now < 65536 }
    ensures found { IfOk result (λ v. AreClamped code.now pool.now 0 v.items (length code.now)) }
    ensures refused { IfErr result (λ e. (e ≡ NoMemory) ⊎ FirstCodeFault code.now pool.now e) }
{
    let mut instrs = Vec::new(alloc);
    let mut pc = 0usize;
    while pc < code.len() {
        let instr = instruction_at(alloc, code, pool, pc)?;
        pc += instr.size as usize;
        instrs.push(instr)?;
    }
    Ok(instrs)
}
