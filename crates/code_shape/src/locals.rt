// Whether the locals that instructions name are there.
ghost use Rattle.std.specs.Prelude.{◌≡◌, ◌<◌, ◌≤◌, ◌↔◌, ℕ, IsTrue, IfErr, OnOk, All, length};
ghost use Rattle.class_form.specs.declared.body.Instr.{Instr};
ghost use Rattle.class_form.specs.declared.code_error.CodeError.TheVariants.{Broken};
ghost use Rattle.class_form.specs.Shapes.{HasLocal, HasInstr, IsLeast};
ghost use Rattle.code_shape.specs.Codes.{AreInOrder};

use crate::effects::local_slots;
use class_form::body::Instr;
use class_form::class_file::CodeBody;
use class_form::code_error::CodeError;

// Whether the local of an instruction is there, with all its slots.
fn has_local(body: &CodeBody, instr: &Instr) -> bool
    requires { length instr.now.takes ≤ 256 }
    ensures { IsTrue result ↔ HasLocal body.now instr.now }
{
    let slots = local_slots(instr);
    if slots == 0 {
        return true;
    }
    instr.index as u32 + slots <= body.max_locals as u32
}

/// Whether all locals are there; else the first instruction whose local isn't.
pub fn check_locals(body: &CodeBody, instrs: &[Instr]) -> Result<(), CodeError>
    requires order { AreInOrder instrs.now }
    requires operands { All (λ i. length i.takes ≤ 256) instrs.now }
    ensures ok { OnOk result (All (HasLocal body.now) instrs.now) }
    ensures err { IfErr result (λ e. (pc : ℕ) × (e ≡ Broken 7 pc) × IsLeast (HasInstr instrs.now (λ i. HasLocal body.now i → ⊥)) pc) }
{
    for instr in instrs {
        if !has_local(body, instr) {
            return Err(CodeError::Broken {
                rule: 7,
                pc: instr.pc,
            });
        }
    }
    Ok(())
}
