// Whether control leaves the code at its end, and whether the depths fit together.
ghost use Rattle.std.specs.Prelude.{◌≡◌, ◌<◌, ◌≤◌, ◌+◌, ◌↔◌, ℕ, IsTrue, true, false, All, Contains, OnOk, IfErr, length, slice_index};
ghost use Rattle.class_form.specs.declared.body.Instr.{Instr};
ghost use Rattle.class_form.specs.declared.code_error.CodeError.TheVariants.{Broken};
ghost use Rattle.class_form.specs.Table.{opcode_of};
ghost use Rattle.class_form.specs.Shapes.{IsReached, RunsOff, HasInstr, IsLeast, AreDepths, Catches, depth_after as depth_after_of};
ghost use Rattle.code_shape.specs.Codes.{IsAt, IsIndexOf};
ghost use Rattle.code_shape.specs.Searches.{IsCode, IsDone, HasDepth, Fits, depth_in};

use crate::covers::covers_at;
use crate::effects::{goes_on, moved_left, taken};
use crate::entries::find;
use crate::search::{Code, Search};
use class_form::body::Instr;
use class_form::code_error::CodeError;

// The depth after an instruction.
fn depth_after(instr: &Instr, depth: u16) -> usize
    requires { length instr.now.takes ≤ 256 }
    ensures { result ≡ depth_after_of instr.now depth }
{
    let left = (depth as u32).saturating_sub(taken(instr)) as usize;
    left + (instr.leaves as usize + moved_left(instr.op).len())
}

impl Code<'_> {
    /// Whether control stays in the code; else the last instruction, from which it goes on.
    pub fn check_end(&self, search: &Search) -> Result<(), CodeError>
        requires code { IsCode self.now }
        requires search { IsDone self.now search.now }
        requires some { 0 < length self.now.instrs.now }
        ensures ok { OnOk result ((i : Instr) → IsReached self.now.body.now self.now.instrs.now i → RunsOff self.now.body.now i → ⊥) }
        ensures err { IfErr result (λ e. (pc : ℕ) × (e ≡ Broken 8 pc) × IsLeast (HasInstr self.now.instrs.now (λ i. IsReached self.now.body.now self.now.instrs.now i × RunsOff self.now.body.now i)) pc) }
    {
        let last = self.instrs.len() - 1;
        if !search.found.marks[last] {
            return Ok(());
        }
        let instr = &self.instrs[last];
        if !goes_on(instr) {
            return Ok(());
        }
        Err(CodeError::Broken {
            rule: 8,
            pc: instr.pc,
        })
    }

    // Whether the instruction at a pc has this depth.
    fn has_depth(&self, depths: &[u16], depth: usize, pc: u16) -> bool
        requires code { IsCode self.now }
        requires depths { length depths.now ≡ length self.now.instrs.now }
        ensures { IsTrue result ↔ HasDepth self.now depths.now depth pc }
    {
        let Some(index) = find(self.instrs, pc) else {
            return true;
        };
        depths[index] as usize == depth
    }

    // Whether the instructions at these pcs have this depth.
    fn all_have_depth(&self, depths: &[u16], depth: usize, pcs: &[u16]) -> bool
        requires code { IsCode self.now }
        requires depths { length depths.now ≡ length self.now.instrs.now }
        ensures { IsTrue result ↔ ((pc : ℕ) → Contains pcs.now pc → HasDepth self.now depths.now depth pc) }
    {
        for pc in pcs {
            if !self.has_depth(depths, depth, *pc) {
                return false;
            }
        }
        true
    }

    // Whether the next instruction has this depth, where control goes on to it.
    fn next_has_depth(&self, depths: &[u16], depth: usize, index: usize) -> bool
        requires code { IsCode self.now }
        requires depths { length depths.now ≡ length self.now.instrs.now }
        requires index { index < length self.now.instrs.now }
        ensures { (i : Instr) → IsAt self.now.instrs.now index i → IsTrue result ↔ (IsTrue (opcode_of i.op).goes_on → HasDepth self.now depths.now depth (i.pc + i.size)) }
    {
        if !goes_on(&self.instrs[index]) {
            return true;
        }
        if index + 1 >= self.instrs.len() {
            return true;
        }
        if depths[index + 1] as usize != depth {
            return false;
        }
        true
    }

    // Whether the handlers of an instruction have depth 1.
    fn handlers_have_depth(&self, depths: &[u16], index: usize) -> bool
        requires code { IsCode self.now }
        requires depths { length depths.now ≡ length self.now.instrs.now }
        requires index { index < length self.now.instrs.now }
        ensures { (i : Instr) → IsAt self.now.instrs.now index i → IsTrue result ↔ ((h : ℕ) → Catches self.now.body.now i.pc h → HasDepth self.now depths.now 1 h) }
    {
        let covers = covers_at(self.covers, index);
        for cover in covers {
            if !self.has_depth(depths, 1, cover.handler) {
                return false;
            }
        }
        true
    }

    // Whether the depth before an instruction goes with those of the instructions to which control goes from it.
    fn fits_here(&self, depths: &[u16], index: usize, instr: &Instr, depth: u16) -> bool
        requires code { IsCode self.now }
        requires depths { length depths.now ≡ length self.now.instrs.now }
        requires index { IsAt self.now.instrs.now index instr.now }
        ensures { IsTrue result ↔ Fits self.now depths.now instr.now depth }
    {
        if (depth as u32) < taken(instr) {
            return false;
        }
        let after = depth_after(instr, depth);
        if after > self.body.max_stack as usize {
            return false;
        }
        if !self.all_have_depth(depths, after, instr.targets.items()) {
            return false;
        }
        if !self.next_has_depth(depths, after, index) {
            return false;
        }
        if !self.handlers_have_depth(depths, index) {
            return false;
        }
        true
    }

    // .. whether its own depth does.
    fn fits(&self, depths: &[u16], index: usize) -> bool
        requires code { IsCode self.now }
        requires depths { length depths.now ≡ length self.now.instrs.now }
        requires index { index < length self.now.instrs.now }
        ensures yes { result ≡ true → (i : Instr) → IsAt self.now.instrs.now index i → Fits self.now depths.now i (slice_index depths.now index) }
        ensures no { result ≡ false → (i : Instr) → IsAt self.now.instrs.now index i → Fits self.now depths.now i (slice_index depths.now index) → ⊥ }
    {
        self.fits_here(depths, index, &self.instrs[index], depths[index])
    }

    // Whether the depths of all these instructions fit.
    fn all_fit(&self, depths: &[u16], indices: &[usize]) -> bool
        requires code { IsCode self.now }
        requires depths { length depths.now ≡ length self.now.instrs.now }
        requires indices { All (λ k. k < length self.now.instrs.now) indices.now }
        ensures yes { result ≡ true → (k : ℕ) (i : Instr) → Contains indices.now k → IsAt self.now.instrs.now k i → Fits self.now depths.now i (slice_index depths.now k) }
        ensures no { result ≡ false → (k : ℕ) × (i : Instr) × Contains indices.now k × IsAt self.now.instrs.now k i × (Fits self.now depths.now i (slice_index depths.now k) → ⊥) }
    {
        for index in indices {
            if !self.fits(depths, *index) {
                return false;
            }
        }
        true
    }

    /// Whether the depths that the search gave fit together. Where they don't, none do.
    pub fn check_depths(&self, search: &Search) -> bool
        requires code { IsCode self.now }
        requires search { IsDone self.now search.now }
        requires some { 0 < length self.now.instrs.now }
        requires ends { (i : Instr) → IsReached self.now.body.now self.now.instrs.now i → RunsOff self.now.body.now i → ⊥ }
        ensures yes { result ≡ true → AreDepths self.now.body.now self.now.instrs.now (depth_in self.now.instrs.now search.now.depths.items) }
        ensures no { result ≡ false → (f : ℕ → ℕ) → AreDepths self.now.body.now self.now.instrs.now f → ⊥ }
    {
        let depths = search.depths.as_slice();
        if depths[0] != 0 {
            return false;
        }
        if !self.all_fit(depths, search.found.items.as_slice()) {
            return false;
        }
        true
    }
}
