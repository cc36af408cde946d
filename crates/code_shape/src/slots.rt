// What an instruction does to the slots.
ghost use Rattle.std.specs.Prelude.{◌≡◌, ◌<◌, ◌≤◌, ◌+◌, ◌++◌, ◌∷◌, [], ℕ, IfOk, OnOk, length};
ghost use Rattle.class_form.specs.declared.body.SlotUse.{SlotUse};
ghost use Rattle.class_form.specs.declared.body.Operand.{Operand};
ghost use Rattle.slicer_ids.specs.Sets.{IsOrderedListOf};
ghost use Rattle.worklists.specs.Growth.{Grows};
ghost use Rattle.class_form.specs.Table.{opcode_of};
ghost use Rattle.class_form.specs.Shapes.{HasLocal, IsAmong, MakesSlot, MovesSlot, Uses, first_taken as first_taken_of, first_operand as first_operand_of};
ghost use Rattle.code_shape.specs.Listed.{AreBelow, slot_itself, slot_of, goal_of, UsesFrom};

use crate::effects::{moved_left, reads_local, taken};
use class_form::body::{Instr, Operand, SlotUse};
use class_form::class_file::CodeBody;
use class_form::opcode::Opcode;
use slicer_ids::ids::NoMemory;
use std::alloc::Global;

// The lowest slot that an instruction takes off the stack.
fn first_taken(body: &CodeBody, instr: &Instr, depth: u16) -> u32
    requires { length instr.now.takes ≤ 256 }
    ensures first { result ≡ first_taken_of body.now instr.now depth }
    ensures small { result ≤ 131070 }
{
    body.max_locals as u32 + (depth as u32).saturating_sub(taken(instr))
}

fn put_slot(slots: &mut Vec<u32>, slot: u32) -> Result<(), NoMemory>
    ensures { OnOk result (slots.new.items ≡ slots.old.items ++ slot ∷ []) }
{
    match slots.push(slot) {
        Ok(()) => Ok(()),
        Err(_) => Err(NoMemory),
    }
}

// So many slots from the first on.
fn put_slots(slots: &mut Vec<u32>, first: u32, count: u8) -> Result<(), NoMemory>
    requires small { first ≤ 131070 }
    requires below { AreBelow slot_itself first slots.old.items }
    ensures below { OnOk result (AreBelow slot_itself (first + count) slots.new.items) }
    ensures grown { OnOk result (Grows slots.old.items slots.new.items (IsAmong first count)) }
{
    for i in 0..count {
        put_slot(slots, first + i as u32)?;
    }
    Ok(())
}

// The slots of the local that an instruction writes.
fn put_local(slots: &mut Vec<u32>, body: &CodeBody, instr: &Instr) -> Result<(), NoMemory>
    requires local { HasLocal body.now instr.now }
    requires none { slots.old.items ≡ [] }
    ensures below { OnOk result (AreBelow slot_itself body.now.max_locals slots.new.items) }
    ensures grown { OnOk result (Grows [] slots.new.items (IsAmong instr.now.index (opcode_of instr.now.op).makes)) }
{
    let makes = Opcode::of(instr.op).makes;
    if makes == 0 {
        return Ok(());
    }
    put_slots(slots, instr.index as u32, makes)?;
    Ok(())
}

/// The slots that an instruction makes, in order.
pub fn makes_of(
    alloc: Global,
    body: &CodeBody,
    instr: &Instr,
    depth: u16,
) -> Result<Vec<u32>, NoMemory>
    requires operands { length instr.now.takes ≤ 256 }
    requires local { HasLocal body.now instr.now }
    ensures { IfOk result (λ v. IsOrderedListOf (λ (a b : ℕ). a < b) v.items (MakesSlot body.now instr.now depth)) }
{
    let first = first_taken(body, instr, depth);
    let mut slots = Vec::new(alloc);
    put_local(&mut slots, body, instr)?;
    put_slots(&mut slots, first, instr.leaves)?;
    Ok(slots)
}

fn put_move(moves: &mut Vec<(u32, u32)>, from: u32, to: u32) -> Result<(), NoMemory>
    ensures { OnOk result (moves.new.items ≡ moves.old.items ++ (from, to) ∷ []) }
{
    match moves.push((from, to)) {
        Ok(()) => Ok(()),
        Err(_) => Err(NoMemory),
    }
}

/// From which slot to which an instruction moves, in the order of where they go.
pub fn moves_of(
    alloc: Global,
    body: &CodeBody,
    instr: &Instr,
    depth: u16,
) -> Result<Vec<(u32, u32)>, NoMemory>
    requires { length instr.now.takes ≤ 256 }
    ensures { IfOk result (λ v. IsOrderedListOf (λ (a b : ℕ × ℕ). a.1 < b.1) v.items (MovesSlot body.now instr.now depth)) }
{
    let first = first_taken(body, instr, depth);
    let leaves = moved_left(instr.op);
    let mut moves = Vec::new(alloc);
    for (k, source) in leaves.iter().enumerate() {
        put_move(&mut moves, first + *source as u32, first + k as u32)?;
    }
    Ok(moves)
}

fn put_use(uses: &mut Vec<SlotUse>, slot: u32, operand: u8, base: bool) -> Result<(), NoMemory>
    ensures { OnOk result (uses.new.items ≡ uses.old.items ++ record { slot = slot; operand = operand; base = base } ∷ []) }
{
    match uses.push(SlotUse {
        slot,
        operand,
        base,
    }) {
        Ok(()) => Ok(()),
        Err(_) => Err(NoMemory),
    }
}

// The slots of one operand.
fn put_operand(
    uses: &mut Vec<SlotUse>,
    first: u32,
    number: u8,
    operand: Operand,
) -> Result<(), NoMemory>
    requires small { first ≤ 262140 }
    requires below { AreBelow slot_of first uses.old.items }
    ensures below { OnOk result (AreBelow slot_of (first + operand.slots) uses.new.items) }
    ensures grown { OnOk result (Grows uses.old.items uses.new.items (UsesFrom number first operand)) }
    ensures small { operand.slots ≤ 255 }
{
    for i in 0..operand.slots {
        put_use(uses, first + i as u32, number, operand.base)?;
    }
    Ok(())
}

// The first slot of the operands.
fn first_operand(body: &CodeBody, instr: &Instr, depth: u16) -> u32
    requires { length instr.now.takes ≤ 256 }
    ensures first { result ≡ first_operand_of body.now instr.now depth }
    ensures small { result ≤ 131070 }
{
    if reads_local(instr) {
        return instr.index as u32;
    }
    first_taken(body, instr, depth)
}

/// The slots that the operands of an instruction take, in order.
pub fn uses_of(
    alloc: Global,
    body: &CodeBody,
    instr: &Instr,
    depth: u16,
) -> Result<Vec<SlotUse>, NoMemory>
    requires { length instr.now.takes ≤ 256 }
    ensures { IfOk result (λ v. IsOrderedListOf (λ (a b : SlotUse). a.slot < b.slot) v.items (Uses body.now instr.now depth)) }
{
    let mut first = first_operand(body, instr, depth);
    let operands = instr.takes.items();
    let mut uses = Vec::new(alloc);
    for number in 0..operands.len() {
        let operand = operands[number];
        put_operand(&mut uses, first, number as u8, operand)?;
        first += operand.slots as u32;
    }
    Ok(uses)
}
