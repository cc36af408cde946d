// Where instructions begin, and whether the entries of the exception table are at such places.
ghost use Rattle.std.specs.Prelude.{◌≡◌, ◌<◌, ◌≤◌, ◌↔◌, ℕ, true, false, IsTrue, IfSome, IfNone, IfErr, OnOk, All, length};
ghost use Rattle.class_form.specs.declared.body.Instr.{Instr};
ghost use Rattle.class_form.specs.declared.code_error.CodeError.TheVariants.{Broken};
ghost use Rattle.class_form.specs.Shapes.{IsStart, IsEntry, IsFirstBadEntry};
ghost use Rattle.code_shape.specs.Codes.{IsAt, AreInOrder, IsIndexOf};

use class_form::body::Instr;
use class_form::class_file::{CodeBody, Handler};
use class_form::code_error::CodeError;

fn is_before(instr: &Instr, pc: u16) -> bool
    ensures yes { result ≡ true → instr.now.pc < pc }
    ensures no { result ≡ false → pc ≤ instr.now.pc }
{
    instr.pc < pc
}

/// The least index from which on no instruction begins before the pc.
pub fn first_from(instrs: &[Instr], pc: u16) -> usize
    requires { AreInOrder instrs.now }
    ensures within { result ≤ length instrs.now }
    ensures before { (k : ℕ) (i : Instr) → k < result → IsAt instrs.now k i → i.pc < pc }
    ensures after { (k : ℕ) (i : Instr) → result ≤ k → IsAt instrs.now k i → pc ≤ i.pc }
{
    let mut low = 0;
    let mut high = instrs.len();
    while low < high {
        let middle = low + (high - low) / 2;
        if is_before(&instrs[middle], pc) {
            low = middle + 1;
        } else {
            high = middle;
        }
    }
    low
}

fn is_at(instr: &Instr, pc: u16) -> bool
    ensures { IsTrue result ↔ (instr.now.pc ≡ pc) }
{
    instr.pc == pc
}

/// The index of the instruction that begins at a pc, in logarithmic time; none where no instruction begins.
pub fn find(instrs: &[Instr], pc: u16) -> Option<usize>
    requires { AreInOrder instrs.now }
    ensures found { IfSome result (IsIndexOf instrs.now pc) }
    ensures missed { IfNone result (IsStart instrs.now pc → ⊥) }
{
    let k = first_from(instrs, pc);
    if k < instrs.len() && is_at(&instrs[k], pc) {
        return Some(k);
    }
    None
}

fn is_start(instrs: &[Instr], pc: u16) -> bool
    requires { AreInOrder instrs.now }
    ensures { IsTrue result ↔ IsStart instrs.now pc }
{
    match find(instrs, pc) {
        Some(_) => true,
        None => false,
    }
}

// Whether the range of an entry and its handler are at instructions.
fn is_entry(body: &CodeBody, instrs: &[Instr], entry: &Handler) -> bool
    requires { AreInOrder instrs.now }
    ensures { IsTrue result ↔ IsEntry body.now instrs.now entry.now }
{
    if !is_start(instrs, entry.start) {
        return false;
    }
    if !is_start(instrs, entry.handler) {
        return false;
    }
    if is_start(instrs, entry.end) {
        return true;
    }
    entry.end as usize == body.code.bytes().len()
}

/// Whether all entries are at instructions; else the start of the first that isn't.
pub fn check_entries(body: &CodeBody, instrs: &[Instr]) -> Result<(), CodeError>
    requires { AreInOrder instrs.now }
    ensures ok { OnOk result (All (IsEntry body.now instrs.now) body.now.handlers) }
    ensures err { IfErr result (λ e. (pc : ℕ) × (e ≡ Broken 6 pc) × IsFirstBadEntry body.now instrs.now pc) }
{
    let entries = body.handlers.items();
    for entry in entries {
        if !is_entry(body, instrs, entry) {
            return Err(CodeError::Broken {
                rule: 6,
                pc: entry.start,
            });
        }
    }
    Ok(())
}
