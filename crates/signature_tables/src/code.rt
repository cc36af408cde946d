// The class file of a method, and the instructions of its body.
ghost use Rattle.std.specs.Prelude.{◌≡◌, ℕ, Contains, IfSome, IfNone};
ghost use Rattle.program_form.specs.Programs.{Program, ClassOf};
ghost use Rattle.signature_tables.specs.Programs.{IsOfClasses};
ghost use Rattle.signature_tables.specs.Statements.{HasMethod, AreInOrder, IsInstrPc};

use class_form::body::Instr;
use class_form::class_file::ClassFile;
use hierarchy::Hierarchy;
use slicer_ids::ids::MethodId;

/// The class file that declares a method.
pub fn file_of(h: &Hierarchy, method: MethodId) -> &ClassFile
    requires { HasMethod h.now method }
    ensures { (p : Program) → IsOfClasses h.now p → (c : ℕ) × ClassOf p method c result.now }
{
    let (class, _) = h.method_places()[method.0 as usize];
    &h.classes()[class.0 as usize]
}

/// The instruction at a program counter, of instructions in their order; none where there is none. Takes a logarithmic
/// number of steps.
pub fn instr_at(instrs: &[Instr], pc: u16) -> Option<&Instr>
    requires { AreInOrder instrs.now }
    ensures found { IfSome result (λ i. Contains instrs.now i.now × (i.now.pc ≡ pc)) }
    ensures missed { IfNone result (IsInstrPc instrs.now pc → ⊥) }
{
    let k = instrs.partition_point(|instr| instr.pc < pc);
    match instrs.get(k) {
        Some(instr) => at_pc(instr, pc),
        None => None,
    }
}

// The instruction, where it is at the program counter.
fn at_pc(instr: &Instr, pc: u16) -> Option<&Instr>
    ensures found { IfSome result (λ i. (i.now ≡ instr.now) × (instr.now.pc ≡ pc)) }
    ensures missed { IfNone result (instr.now.pc ≡ pc → ⊥) }
{
    if instr.pc == pc { Some(instr) } else { None }
}
