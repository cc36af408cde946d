// What control comes to, and how deep the stack is there.
ghost use Rattle.std.specs.Prelude.{◌≡◌, ◌<◌, ◌≤◌, ◌↔◌, ℕ, All, Contains, OnOk, IfOk, [], length};
ghost use Rattle.class_form.specs.declared.body.Instr.{Instr};
ghost use Rattle.class_form.specs.Shapes.{IsStart, AreDepths, IsReachable, taken as taken_by, depth_after};
ghost use Rattle.worklists.specs.Growth.{Grows, FromOne};
ghost use Rattle.code_shape.specs.Codes.{IsAt, IsIndexOf};
ghost use Rattle.code_shape.specs.Searches.{IsCode, IsSearch, IsForced, IsNext, IsHandler, Steps, IsReachedAt};

use crate::covers::{Cover, covers_at};
use crate::effects::{goes_on, moved_left, taken};
use crate::entries::find;
use class_form::body::Instr;
use class_form::class_file::CodeBody;
use slicer_ids::ids::NoMemory;
use std::alloc::Global;
use worklist::Worklist;

/// A body, its instructions, and their handlers.
#[derive(Clone, Copy)]
pub struct Code<'a> {
    pub body: &'a CodeBody,
    pub instrs: &'a [Instr],
    pub covers: &'a [Cover],
}

/// The indices of the instructions that control comes to, and the depth before each of them.
#[derive(Drop)]
pub struct Search {
    pub found: Worklist,
    pub depths: Vec<u16>,
}

impl Code<'_> {
    // Adds an instruction. Its depth is that of the first way on which it is found.
    fn meet_at(&self, index: usize, depth: u16, search: &mut Search) -> Result<(), NoMemory>
        requires code { IsCode self.now }
        requires search { IsSearch self.now search.old }
        requires index { index < length self.now.instrs.now }
        requires depth { (i : Instr) → IsAt self.now.instrs.now index i → IsForced self.now i.pc depth }
        ensures search { OnOk result (IsSearch self.now search.new) }
        ensures grown { OnOk result (Grows search.old.found.items.items search.new.found.items.items (λ m. m ≡ index)) }
    {
        if search.found.marks[index] {
            return Ok(());
        }
        search.depths[index] = depth;
        search.found.add(index)?;
        Ok(())
    }

    // Adds the instruction at a pc.
    fn meet(&self, pc: u16, depth: u16, search: &mut Search) -> Result<(), NoMemory>
        requires code { IsCode self.now }
        requires search { IsSearch self.now search.old }
        requires start { IsStart self.now.instrs.now pc }
        requires depth { IsForced self.now pc depth }
        ensures search { OnOk result (IsSearch self.now search.new) }
        ensures grown { OnOk result (Grows search.old.found.items.items search.new.found.items.items (IsIndexOf self.now.instrs.now pc)) }
    {
        let Some(index) = find(self.instrs, pc) else {
            return Ok(());
        };
        self.meet_at(index, depth, search)?;
        Ok(())
    }

    // Adds the instructions at these pcs.
    fn meet_all(&self, pcs: &[u16], depth: u16, search: &mut Search) -> Result<(), NoMemory>
        requires code { IsCode self.now }
        requires search { IsSearch self.now search.old }
        requires starts { (pc : ℕ) → Contains pcs.now pc → IsStart self.now.instrs.now pc }
        requires depth { (pc : ℕ) → Contains pcs.now pc → IsForced self.now pc depth }
        ensures search { OnOk result (IsSearch self.now search.new) }
        ensures grown { OnOk result (Grows search.old.found.items.items search.new.found.items.items (FromOne (IsIndexOf self.now.instrs.now) pcs.now)) }
    {
        for pc in pcs {
            self.meet(*pc, depth, search)?;
        }
        Ok(())
    }

    // Adds the next instruction, where control goes on to it.
    fn meet_next(&self, index: usize, depth: u16, search: &mut Search) -> Result<(), NoMemory>
        requires code { IsCode self.now }
        requires search { IsSearch self.now search.old }
        requires index { index < length self.now.instrs.now }
        requires depth { (i : Instr) (pc : ℕ) → IsAt self.now.instrs.now index i → IsNext self.now i pc → (j : Instr) → IsAt self.now.instrs.now pc j → IsForced self.now j.pc depth }
        ensures search { OnOk result (IsSearch self.now search.new) }
        ensures grown { OnOk result ((i : Instr) → IsAt self.now.instrs.now index i → Grows search.old.found.items.items search.new.found.items.items (IsNext self.now i)) }
    {
        if !goes_on(&self.instrs[index]) {
            return Ok(());
        }
        if index + 1 >= self.instrs.len() {
            return Ok(());
        }
        self.meet_at(index + 1, depth, search)?;
        Ok(())
    }

    // Adds the handlers of an instruction, at depth 1.
    fn meet_handlers(&self, index: usize, search: &mut Search) -> Result<(), NoMemory>
        requires code { IsCode self.now }
        requires search { IsSearch self.now search.old }
        requires reached { IsReachedAt self.now index }
        requires index { index < 65536 }
        ensures search { OnOk result (IsSearch self.now search.new) }
        ensures grown { OnOk result ((i : Instr) → IsAt self.now.instrs.now index i → Grows search.old.found.items.items search.new.found.items.items (IsHandler self.now i)) }
    {
        let covers = covers_at(self.covers, index);
        for cover in covers {
            self.meet(cover.handler, 1, search)?;
        }
        Ok(())
    }

    // The depth after an instruction, where it has its operands and the stack has room.
    fn after(&self, instr: &Instr, depth: u16) -> u16
        requires { length instr.now.takes ≤ 256 }
        ensures { taken_by instr.now ≤ depth → depth_after instr.now depth ≤ self.now.body.now.max_stack → result ≡ depth_after instr.now depth }
    {
        let left = (depth as u32).saturating_sub(taken(instr)) as usize;
        let after = left + (instr.leaves as usize + moved_left(instr.op).len());
        if after <= self.body.max_stack as usize {
            return after as u16;
        }
        self.body.max_stack
    }

    // Adds the instructions to which control goes from one.
    fn step(&self, index: usize, search: &mut Search) -> Result<(), NoMemory>
        requires code { IsCode self.now }
        requires search { IsSearch self.now search.old }
        requires found { Contains search.old.found.items.items index }
        requires reached { IsReachedAt self.now index }
        ensures search { OnOk result (IsSearch self.now search.new) }
        ensures grown { OnOk result (Grows search.old.found.items.items search.new.found.items.items (Steps self.now index)) }
    {
        let instr = &self.instrs[index];
        let depth = self.after(instr, search.depths[index]);
        self.meet_all(instr.targets.items(), depth, search)?;
        self.meet_next(index, depth, search)?;
        self.meet_handlers(index, search)?;
        Ok(())
    }

    // Nothing was found yet.
    fn nothing(&self, alloc: Global) -> Result<Search, NoMemory>
        ensures search { IfOk result (IsSearch self.now) }
        ensures none { IfOk result (λ s. s.found.items.items ≡ []) }
    {
        let found = Worklist::new(alloc, self.instrs.len())?;
        let Ok(depths) = vec![in alloc; 0u16; self.instrs.len()] else {
            return Err(NoMemory);
        };
        Ok(Search { found, depths })
    }

    /// All instructions that control comes to.
    pub fn search(&self, alloc: Global) -> Result<Search, NoMemory>
        requires code { IsCode self.now }
        requires some { 0 < length self.now.instrs.now }
        ensures search { IfOk result (IsSearch self.now) }
        ensures exact { IfOk result (λ s. (k : ℕ) (i : Instr) → IsAt self.now.instrs.now k i → Contains s.found.items.items k ↔ IsReachable self.now.body.now self.now.instrs.now i.pc) }
    {
        let mut search = self.nothing(alloc)?;
        self.meet_at(0, 0, &mut search)?;
        let mut next = 0;
        while next < search.found.items.len() {
            let index = search.found.items[next];
            self.step(index, &mut search)?;
            next += 1;
        }
        Ok(search)
    }
}
