// Numbers for places, and what one step of control carries where.
ghost use Rattle.std.specs.Prelude.{◌≡◌, ◌<◌, ◌≤◌, ◌+◌, ◌↔◌, ◌⊎◌, ℕ, true, IsTrue, List, length, Contains, OnOk};
ghost use Rattle.class_form.specs.declared.body.Point.{Point};
ghost use Rattle.class_form.specs.Reaching.{IsPoint, Keeps};
ghost use Rattle.worklists.specs.Growth.{Grows, FromOne};
ghost use Rattle.worklist.specs.Worklists.{IsWorklist};
ghost use Rattle.reaching_defs.specs.Frames.{place, count, IsIn, IsNumberOf, IsFrame, LeavesSlot, IsKept, IsMoved, GoesOn, IsThrown, Steps};

use class_form::body::{Point, Shape};
use slicer_ids::ids::NoMemory;
use worklist::Worklist;

/// Some slots of each point, from the first on. The place of a point and a slot has a number: the point's index times the width,
/// and the slot's distance from the first.
#[derive(Clone, Copy)]
pub struct Frame<'a> {
    pub shape: &'a Shape,
    /// By pc.
    pub index: &'a [usize],
    pub first: u32,
    pub width: usize,
}

// Whether some move leads into the slot.
fn is_moved_to(moves: &[(u32, u32)], slot: u32) -> bool
    ensures { IsTrue result ↔ ((from : ℕ) × Contains moves.now (from, slot)) }
{
    for (_, to) in moves {
        if *to == slot {
            return true;
        }
    }
    false
}

// Whether the slots have this one.
fn is_one_of(slots: &[u32], slot: u32) -> bool
    ensures { IsTrue result ↔ Contains slots.now slot }
{
    slots.contains(&slot)
}

// Whether the instruction leaves the slot as it is.
fn leaves_slot(point: &Point, slot: u32) -> bool
    ensures { IsTrue result ↔ LeavesSlot point.now slot }
{
    if is_one_of(point.makes.items(), slot) {
        return false;
    }
    if is_moved_to(point.moves.items(), slot) {
        return false;
    }
    true
}

impl Frame<'_> {
    /// The point at a pc.
    pub fn point_at(&self, pc: u16) -> &Point
        requires frame { IsFrame self.now }
        requires point { (p : Point) × IsPoint self.now.shape.now pc p }
        ensures { IsPoint self.now.shape.now pc result.now }
    {
        &self.shape.points.items()[self.index[pc as usize]]
    }

    /// Adds the number of the place.
    pub fn add(&self, pc: u16, slot: u32, found: &mut Worklist) -> Result<(), NoMemory>
        requires frame { IsFrame self.now }
        requires room { count self.now ≤ length found.old.marks.items }
        requires set { IsWorklist found.old.marks.items found.old.items.items }
        requires point { (p : Point) × IsPoint self.now.shape.now pc p }
        requires slot { IsIn self.now slot }
        ensures set { OnOk result (IsWorklist found.new.marks.items found.new.items.items) }
        ensures size { length found.new.marks.items ≡ length found.old.marks.items }
        ensures grown { OnOk result (Grows found.old.items.items found.new.items.items (IsNumberOf self.now (place pc slot))) }
    {
        let number = self.index[pc as usize] * self.width + (slot - self.first) as usize;
        found.add(number)?;
        Ok(())
    }

    // Whether what is in the slot stays there as control goes on to a pc.
    fn is_kept(&self, point: &Point, leaves: bool, pc: u16, slot: u32) -> bool
        requires frame { IsFrame self.now }
        requires target { (q : Point) × IsPoint self.now.shape.now pc q }
        requires leaves { IsTrue leaves ↔ LeavesSlot point.now slot }
        ensures { IsTrue result ↔ ((q : Point) × IsPoint self.now.shape.now pc q × Keeps self.now.shape.now point.now q slot) }
    {
        if !leaves {
            return false;
        }
        let target = self.point_at(pc);
        if slot >= self.shape.max_locals as u32 + target.depth as u32 {
            return false;
        }
        true
    }

    // Adds the same slot at the pc, where it is kept.
    fn keep(
        &self,
        point: &Point,
        leaves: bool,
        pc: u16,
        slot: u32,
        found: &mut Worklist,
    ) -> Result<(), NoMemory>
        requires frame { IsFrame self.now }
        requires room { count self.now ≤ length found.old.marks.items }
        requires set { IsWorklist found.old.marks.items found.old.items.items }
        requires target { (q : Point) × IsPoint self.now.shape.now pc q }
        requires leaves { IsTrue leaves ↔ LeavesSlot point.now slot }
        requires slot { IsIn self.now slot }
        ensures set { OnOk result (IsWorklist found.new.marks.items found.new.items.items) }
        ensures size { length found.new.marks.items ≡ length found.old.marks.items }
        ensures grown { OnOk result (Grows found.old.items.items found.new.items.items (IsKept self.now point.now slot pc)) }
    {
        if !self.is_kept(point, leaves, pc, slot) {
            return Ok(());
        }
        self.add(pc, slot, found)?;
        Ok(())
    }

    // Adds the slot at the pc that a move leads to.
    fn follow(
        &self,
        from: u32,
        to: u32,
        pc: u16,
        slot: u32,
        found: &mut Worklist,
    ) -> Result<(), NoMemory>
        requires frame { IsFrame self.now }
        requires room { count self.now ≤ length found.old.marks.items }
        requires set { IsWorklist found.old.marks.items found.old.items.items }
        requires target { (q : Point) × IsPoint self.now.shape.now pc q }
        requires slot { from ≡ slot → IsIn self.now to }
        ensures set { OnOk result (IsWorklist found.new.marks.items found.new.items.items) }
        ensures size { length found.new.marks.items ≡ length found.old.marks.items }
        ensures grown { OnOk result (Grows found.old.items.items found.new.items.items (IsMoved self.now slot pc (from, to))) }
    {
        if from != slot {
            return Ok(());
        }
        self.add(pc, to, found)?;
        Ok(())
    }

    // Adds the slots at the pc that the moves lead to.
    fn follow_all(
        &self,
        moves: &[(u32, u32)],
        pc: u16,
        slot: u32,
        found: &mut Worklist,
    ) -> Result<(), NoMemory>
        requires frame { IsFrame self.now }
        requires room { count self.now ≤ length found.old.marks.items }
        requires set { IsWorklist found.old.marks.items found.old.items.items }
        requires target { (q : Point) × IsPoint self.now.shape.now pc q }
        requires slot { (to : ℕ) → Contains moves.now (slot, to) → IsIn self.now to }
        ensures set { OnOk result (IsWorklist found.new.marks.items found.new.items.items) }
        ensures size { length found.new.marks.items ≡ length found.old.marks.items }
        ensures grown { OnOk result (Grows found.old.items.items found.new.items.items (FromOne (IsMoved self.now slot pc) moves.now)) }
    {
        for (from, to) in moves {
            self.follow(*from, *to, pc, slot, found)?;
        }
        Ok(())
    }

    // Adds where the slot goes as control goes on to a pc.
    fn go_on(
        &self,
        point: &Point,
        leaves: bool,
        pc: u16,
        slot: u32,
        found: &mut Worklist,
    ) -> Result<(), NoMemory>
        requires frame { IsFrame self.now }
        requires room { count self.now ≤ length found.old.marks.items }
        requires set { IsWorklist found.old.marks.items found.old.items.items }
        requires point { Contains self.now.shape.now.points point.now }
        requires next { Contains point.now.next pc }
        requires leaves { IsTrue leaves ↔ LeavesSlot point.now slot }
        requires slot { IsIn self.now slot }
        ensures set { OnOk result (IsWorklist found.new.marks.items found.new.items.items) }
        ensures size { length found.new.marks.items ≡ length found.old.marks.items }
        ensures grown { OnOk result (Grows found.old.items.items found.new.items.items (GoesOn self.now point.now slot pc)) }
    {
        self.keep(point, leaves, pc, slot, found)?;
        self.follow_all(point.moves.items(), pc, slot, found)?;
        Ok(())
    }

    // Adds where the slot goes as control goes on.
    fn go_on_all(&self, point: &Point, slot: u32, found: &mut Worklist) -> Result<(), NoMemory>
        requires frame { IsFrame self.now }
        requires room { count self.now ≤ length found.old.marks.items }
        requires set { IsWorklist found.old.marks.items found.old.items.items }
        requires point { Contains self.now.shape.now.points point.now }
        requires slot { IsIn self.now slot }
        ensures set { OnOk result (IsWorklist found.new.marks.items found.new.items.items) }
        ensures size { length found.new.marks.items ≡ length found.old.marks.items }
        ensures grown { OnOk result (Grows found.old.items.items found.new.items.items (FromOne (GoesOn self.now point.now slot) point.now.next)) }
    {
        let leaves = leaves_slot(point, slot);
        let next = point.next.items();
        for pc in next {
            self.go_on(point, leaves, *pc, slot, found)?;
        }
        Ok(())
    }

    // Adds the local at each handler.
    fn throw_all(&self, point: &Point, slot: u32, found: &mut Worklist) -> Result<(), NoMemory>
        requires frame { IsFrame self.now }
        requires room { count self.now ≤ length found.old.marks.items }
        requires set { IsWorklist found.old.marks.items found.old.items.items }
        requires point { Contains self.now.shape.now.points point.now }
        requires slot { IsIn self.now slot }
        ensures set { OnOk result (IsWorklist found.new.marks.items found.new.items.items) }
        ensures size { length found.new.marks.items ≡ length found.old.marks.items }
        ensures grown { OnOk result (Grows found.old.items.items found.new.items.items (FromOne (IsThrown self.now slot) point.now.handlers)) }
    {
        if slot >= self.shape.max_locals as u32 {
            return Ok(());
        }
        let handlers = point.handlers.items();
        for handler in handlers {
            self.add(*handler, slot, found)?;
        }
        Ok(())
    }

    /// Adds the numbers of the places to which control carries what is at a number's place.
    pub fn step(&self, number: usize, found: &mut Worklist) -> Result<(), NoMemory>
        requires frame { IsFrame self.now }
        requires room { count self.now ≤ length found.old.marks.items }
        requires set { IsWorklist found.old.marks.items found.old.items.items }
        requires number { number < count self.now }
        ensures set { OnOk result (IsWorklist found.new.marks.items found.new.items.items) }
        ensures size { length found.new.marks.items ≡ length found.old.marks.items }
        ensures grown { OnOk result (Grows found.old.items.items found.new.items.items (Steps self.now number)) }
    {
        let point = &self.shape.points.items()[number / self.width];
        let slot = self.first + (number % self.width) as u32;
        self.go_on_all(point, slot, found)?;
        self.throw_all(point, slot, found)?;
        Ok(())
    }
}
