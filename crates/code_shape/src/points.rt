// The points of the instructions that control comes to.
ghost use Rattle.std.specs.Prelude.{◌≡◌, ◌<◌, ◌≤◌, ◌+◌, ◌++◌, ◌∷◌, ◌↔◌, [], ℕ, IsTrue, All, AllPairs, Contains, IfOk, OnOk, length, map};
ghost use Rattle.class_form.specs.declared.body.Instr.{Instr};
ghost use Rattle.class_form.specs.declared.body.Point.{Point};
ghost use Rattle.slicer_ids.specs.Sets.{IsOrderedListOf};
ghost use Rattle.worklists.specs.Growth.{Grows};
ghost use Rattle.class_form.specs.Table.{opcode_of};
ghost use Rattle.class_form.specs.Shapes.{GoesTo, HasLocal, RunsOff, IsReached, IsPointOf, ArePoints};
ghost use Rattle.code_shape.specs.declared.covers.Cover.{Cover};
ghost use Rattle.code_shape.specs.Codes.{IsAt};
ghost use Rattle.code_shape.specs.Searches.{IsCode, IsDone, depth_in};
ghost use Rattle.code_shape.specs.Pointed.{ArePointsTo};
ghost use Rattle.code_shape.specs.Listed.{IsNextOf, handler_of};

use crate::covers::{Cover, covers_at};
use crate::effects::goes_on;
use crate::search::{Code, Search};
use crate::slots::{makes_of, moves_of, uses_of};
use class_form::body::{Instr, Point};
use slicer_ids::ids::NoMemory;
use slicer_ids::list::List;
use std::alloc::Global;

fn put_pc(pcs: &mut Vec<u16>, pc: u16) -> Result<(), NoMemory>
    ensures { OnOk result (pcs.new.items ≡ pcs.old.items ++ pc ∷ []) }
{
    match pcs.push(pc) {
        Ok(()) => Ok(()),
        Err(_) => Err(NoMemory),
    }
}

fn put_targets(pcs: &mut Vec<u16>, targets: &[u16]) -> Result<(), NoMemory>
    ensures { OnOk result (Grows pcs.old.items pcs.new.items (Contains targets.now)) }
{
    for target in targets {
        put_pc(pcs, *target)?;
    }
    Ok(())
}

// The pc of the next instruction, where control goes on to it.
fn put_next(pcs: &mut Vec<u16>, instr: &Instr) -> Result<(), NoMemory>
    requires { IsTrue (opcode_of instr.now.op).goes_on → instr.now.pc + instr.now.size < 65536 }
    ensures { OnOk result (Grows pcs.old.items pcs.new.items (IsNextOf instr.now)) }
{
    if !goes_on(instr) {
        return Ok(());
    }
    put_pc(pcs, (instr.pc as u32 + instr.size) as u16)?;
    Ok(())
}

fn all_next(alloc: Global, instr: &Instr) -> Result<Vec<u16>, NoMemory>
    requires { IsTrue (opcode_of instr.now.op).goes_on → instr.now.pc + instr.now.size < 65536 }
    ensures { IfOk result (λ v. Grows [] v.items (GoesTo instr.now)) }
{
    let mut pcs = Vec::new(alloc);
    put_targets(&mut pcs, instr.targets.items())?;
    put_next(&mut pcs, instr)?;
    Ok(pcs)
}

// The same numbers, in order, each once.
fn in_order(pcs: Vec<u16>) -> Result<Vec<u16>, NoMemory>
    ensures order { IfOk result (λ v. AllPairs (λ (a b : ℕ). a < b) v.items) }
    ensures members { IfOk result (λ v. (n : ℕ) → Contains v.items n ↔ Contains pcs.items n) }
{
    let mut all = pcs;
    match all.sort() {
        Ok(()) => {}
        Err(_) => return Err(NoMemory),
    }
    all.dedup();
    Ok(all)
}

// To where control goes on from an instruction, in order.
fn next_of(alloc: Global, instr: &Instr) -> Result<Vec<u16>, NoMemory>
    requires { IsTrue (opcode_of instr.now.op).goes_on → instr.now.pc + instr.now.size < 65536 }
    ensures { IfOk result (λ v. IsOrderedListOf (λ (a b : ℕ). a < b) v.items (GoesTo instr.now)) }
{
    let all = all_next(alloc, instr)?;
    let next = in_order(all)?;
    Ok(next)
}

// The handlers of covers.
fn handlers_of(alloc: Global, covers: &[Cover]) -> Result<Vec<u16>, NoMemory>
    ensures { IfOk result (λ v. v.items ≡ map handler_of covers.now) }
{
    let mut handlers = Vec::new(alloc);
    for cover in covers {
        put_pc(&mut handlers, cover.handler)?;
    }
    Ok(handlers)
}

fn put_point(points: &mut Vec<Point>, point: Point) -> Result<(), NoMemory>
    ensures { OnOk result (points.new.items ≡ points.old.items ++ point ∷ []) }
{
    match points.push(point) {
        Ok(()) => Ok(()),
        Err(_) => Err(NoMemory),
    }
}

impl Code<'_> {
    // The point of an instruction.
    fn point_here(
        &self,
        alloc: Global,
        index: usize,
        instr: &Instr,
        depth: u16,
    ) -> Result<Point, NoMemory>
        requires code { IsCode self.now }
        requires index { IsAt self.now.instrs.now index instr.now }
        requires local { HasLocal self.now.body.now instr.now }
        requires stays { RunsOff self.now.body.now instr.now → ⊥ }
        ensures point { IfOk result (IsPointOf self.now.body.now instr.now) }
        ensures depth { IfOk result (λ p. p.depth ≡ depth) }
    {
        let next = next_of(alloc, instr)?;
        let handlers = handlers_of(alloc, covers_at(self.covers, index))?;
        let uses = uses_of(alloc, self.body, instr, depth)?;
        let moves = moves_of(alloc, self.body, instr, depth)?;
        let makes = makes_of(alloc, self.body, instr, depth)?;
        Ok(Point {
            pc: instr.pc,
            op: instr.op,
            depth,
            next: List::from_vec(next),
            handlers: List::from_vec(handlers),
            uses: List::from_vec(uses),
            moves: List::from_vec(moves),
            makes: List::from_vec(makes),
        })
    }

    // Adds the point of the instruction of an index.
    fn put_at(
        &self,
        alloc: Global,
        index: usize,
        depth: u16,
        points: &mut Vec<Point>,
    ) -> Result<(), NoMemory>
        requires code { IsCode self.now }
        requires index { index < length self.now.instrs.now }
        requires locals { All (HasLocal self.now.body.now) self.now.instrs.now }
        requires stays { (i : Instr) → IsAt self.now.instrs.now index i → RunsOff self.now.body.now i → ⊥ }
        ensures { OnOk result ((p : Point) × (points.new.items ≡ points.old.items ++ p ∷ []) × ((i : Instr) → IsAt self.now.instrs.now index i → IsPointOf self.now.body.now i p) × (p.depth ≡ depth)) }
    {
        let point = self.point_here(alloc, index, &self.instrs[index], depth)?;
        put_point(points, point)?;
        Ok(())
    }

    // .. where the search found it.
    fn put_if_found(
        &self,
        alloc: Global,
        search: &Search,
        index: usize,
        points: &mut Vec<Point>,
    ) -> Result<(), NoMemory>
        requires code { IsCode self.now }
        requires search { IsDone self.now search.now }
        requires index { index < length self.now.instrs.now }
        requires locals { All (HasLocal self.now.body.now) self.now.instrs.now }
        requires ends { (i : Instr) → IsReached self.now.body.now self.now.instrs.now i → RunsOff self.now.body.now i → ⊥ }
        requires points { ArePointsTo self.now search.now index points.old.items }
        ensures { OnOk result (ArePointsTo self.now search.now (index + 1) points.new.items) }
    {
        if !search.found.marks[index] {
            return Ok(());
        }
        let depth = search.depths[index];
        self.put_at(alloc, index, depth, points)?;
        Ok(())
    }

    /// The points of all instructions that the search found, in order.
    pub fn points(&self, alloc: Global, search: &Search) -> Result<Vec<Point>, NoMemory>
        requires code { IsCode self.now }
        requires search { IsDone self.now search.now }
        requires locals { All (HasLocal self.now.body.now) self.now.instrs.now }
        requires ends { (i : Instr) → IsReached self.now.body.now self.now.instrs.now i → RunsOff self.now.body.now i → ⊥ }
        ensures { IfOk result (λ v. ArePoints self.now.body.now self.now.instrs.now (depth_in self.now.instrs.now search.now.depths.items) v.items) }
    {
        let mut points = Vec::new(alloc);
        for index in 0..self.instrs.len() {
            self.put_if_found(alloc, search, index, &mut points)?;
        }
        Ok(points)
    }
}
