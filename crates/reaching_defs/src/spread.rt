// From where a definition first stands to all places where it holds.
ghost use Rattle.std.specs.Prelude.{◌≡◌, ◌<◌, ◌≤◌, ◌+◌, ◌*◌, ℕ, [], All, Contains, OnOk, length};
ghost use Rattle.class_form.specs.declared.body.Point.{Point};
ghost use Rattle.class_form.specs.declared.body.Def.TheVariants.{Formal, Value, Caught};
ghost use Rattle.class_form.specs.Reaching.{Place, IsPoint, IsFlow, IsSlotOf};
ghost use Rattle.worklists.specs.Growth.{Grows, FromOne};
ghost use Rattle.worklist.specs.Worklists.{IsWorklist};
ghost use Rattle.reaching_defs.specs.Points.{IsIndex};
ghost use Rattle.reaching_defs.specs.Starts.{IsStart};
ghost use Rattle.reaching_defs.specs.Frames.{place_in, count, IsIn, IsNumberOf, IsFrame, IsBegun, Comes};
ghost use Rattle.reaching_defs.specs.Facts.{IsFactAt, IsFactFrom};
ghost use Rattle.reaching_defs.specs.Methods.{IsMethod};

use crate::frame::Frame;
use crate::starts::Start;
use class_form::body::{Def, Shape};
use slicer_ids::ids::NoMemory;
use worklist::Worklist;

/// A definition holds before the instruction at a pc in a slot.
#[derive(Clone, Copy, PartialEq, Eq, PartialOrd, Ord)]
pub struct Fact {
    pub pc: u16,
    pub slot: u32,
    pub def: Def,
}

// An argument stands in its slots at the start.
fn begin_formal(
    frame: &Frame<'_>,
    number: u8,
    slot: u32,
    found: &mut Worklist,
) -> Result<(), NoMemory>
    requires frame { IsFrame frame.now }
    requires room { count frame.now ≤ length found.old.marks.items }
    requires set { IsWorklist found.old.marks.items found.old.items.items }
    requires start { IsSlotOf frame.now.shape.now number slot }
    requires slot { IsIn frame.now slot }
    ensures set { OnOk result (IsWorklist found.new.marks.items found.new.items.items) }
    ensures size { length found.new.marks.items ≡ length found.old.marks.items }
    ensures grown { OnOk result (Grows found.old.items.items found.new.items.items (IsBegun frame.now slot (Formal number))) }
{
    frame.add(0, slot, found)?;
    let _number = number;
    Ok(())
}

// What an instruction makes stands there where control goes on to.
fn begin_value(frame: &Frame<'_>, pc: u16, slot: u32, found: &mut Worklist) -> Result<(), NoMemory>
    requires frame { IsFrame frame.now }
    requires room { count frame.now ≤ length found.old.marks.items }
    requires set { IsWorklist found.old.marks.items found.old.items.items }
    requires start { (p : Point) × IsPoint frame.now.shape.now pc p × Contains p.makes slot }
    requires slot { IsIn frame.now slot }
    ensures set { OnOk result (IsWorklist found.new.marks.items found.new.items.items) }
    ensures size { length found.new.marks.items ≡ length found.old.marks.items }
    ensures grown { OnOk result (Grows found.old.items.items found.new.items.items (IsBegun frame.now slot (Value pc))) }
{
    let point = frame.point_at(pc);
    let next = point.next.items();
    for target in next {
        frame.add(*target, slot, found)?;
    }
    Ok(())
}

// An exception stands alone on the stack at its handler.
fn begin_caught(
    frame: &Frame<'_>,
    handler: u16,
    slot: u32,
    found: &mut Worklist,
) -> Result<(), NoMemory>
    requires frame { IsFrame frame.now }
    requires room { count frame.now ≤ length found.old.marks.items }
    requires set { IsWorklist found.old.marks.items found.old.items.items }
    requires start { (p : Point) × Contains frame.now.shape.now.points p × Contains p.handlers handler × (slot ≡ frame.now.shape.now.max_locals) }
    requires slot { IsIn frame.now slot }
    ensures set { OnOk result (IsWorklist found.new.marks.items found.new.items.items) }
    ensures size { length found.new.marks.items ≡ length found.old.marks.items }
    ensures grown { OnOk result (Grows found.old.items.items found.new.items.items (IsBegun frame.now slot (Caught handler))) }
{
    frame.add(handler, slot, found)?;
    Ok(())
}

// Where the definition first stands in the slot.
fn begin(frame: &Frame<'_>, slot: u32, def: Def, found: &mut Worklist) -> Result<(), NoMemory>
    requires frame { IsFrame frame.now }
    requires room { count frame.now ≤ length found.old.marks.items }
    requires set { IsWorklist found.old.marks.items found.old.items.items }
    requires start { IsStart frame.now.shape.now slot def }
    requires slot { IsIn frame.now slot }
    ensures set { OnOk result (IsWorklist found.new.marks.items found.new.items.items) }
    ensures size { length found.new.marks.items ≡ length found.old.marks.items }
    ensures grown { OnOk result (Grows found.old.items.items found.new.items.items (IsBegun frame.now slot def)) }
{
    match def {
        Def::Formal(number) => begin_formal(frame, number, slot, found),
        Def::Value(pc) => begin_value(frame, pc, slot, found),
        Def::Caught(handler) => begin_caught(frame, handler, slot, found),
    }
}

// All places to which the definition comes from where it first stands in the slot.
fn spread(frame: &Frame<'_>, slot: u32, def: Def, found: &mut Worklist) -> Result<(), NoMemory>
    requires frame { IsFrame frame.now }
    requires room { count frame.now ≤ length found.old.marks.items }
    requires set { IsWorklist found.old.marks.items found.old.items.items }
    requires none { found.old.items.items ≡ [] }
    requires start { IsStart frame.now.shape.now slot def }
    requires slot { IsIn frame.now slot }
    ensures set { OnOk result (IsWorklist found.new.marks.items found.new.items.items) }
    ensures size { length found.new.marks.items ≡ length found.old.marks.items }
    ensures each { OnOk result ((n : ℕ) → Contains found.new.items.items n → (n < count frame.now) × Comes frame.now.shape.now slot def (place_in frame.now n)) }
    ensures whole { OnOk result ((b : Place) → Comes frame.now.shape.now slot def b → (n : ℕ) × IsNumberOf frame.now b n × Contains found.new.items.items n) }
{
    begin(frame, slot, def, found)?;
    let mut next = 0;
    while next < found.items.len() {
        let number = found.items[next];
        frame.step(number, found)?;
        next += 1;
    }
    Ok(())
}

fn put(facts: &mut Vec<Fact>, pc: u16, slot: u32, def: Def) -> Result<(), NoMemory>
    ensures { OnOk result (Grows facts.old.items facts.new.items (λ x. x ≡ record { pc = pc; slot = slot; def = def })) }
{
    match facts.push(Fact { pc, slot, def }) {
        Ok(()) => Ok(()),
        Err(_) => Err(NoMemory),
    }
}

// The fact at a number's place.
fn put_one(
    frame: &Frame<'_>,
    def: Def,
    number: usize,
    facts: &mut Vec<Fact>,
) -> Result<(), NoMemory>
    requires frame { IsFrame frame.now }
    requires number { number < count frame.now }
    ensures { OnOk result (Grows facts.old.items facts.new.items (IsFactAt frame.now def number)) }
{
    let point = &frame.shape.points.items()[number / frame.width];
    let slot = frame.first + (number % frame.width) as u32;
    put(facts, point.pc, slot, def)?;
    Ok(())
}

// The facts at the places of these numbers.
fn put_all(
    frame: &Frame<'_>,
    def: Def,
    numbers: &[usize],
    facts: &mut Vec<Fact>,
) -> Result<(), NoMemory>
    requires frame { IsFrame frame.now }
    requires numbers { All (λ n. n < count frame.now) numbers.now }
    ensures { OnOk result (Grows facts.old.items facts.new.items (FromOne (IsFactAt frame.now def) numbers.now)) }
{
    for number in numbers {
        put_one(frame, def, *number, facts)?;
    }
    Ok(())
}

// The facts of a definition from where it first stands in a slot of the frame.
fn put_spread(
    frame: &Frame<'_>,
    slot: u32,
    def: Def,
    found: &mut Worklist,
    facts: &mut Vec<Fact>,
) -> Result<(), NoMemory>
    requires frame { IsFrame frame.now }
    requires room { count frame.now ≤ length found.old.marks.items }
    requires set { IsWorklist found.old.marks.items found.old.items.items }
    requires none { found.old.items.items ≡ [] }
    requires start { IsStart frame.now.shape.now slot def }
    requires slot { IsIn frame.now slot }
    ensures set { OnOk result (IsWorklist found.new.marks.items found.new.items.items) }
    ensures size { length found.new.marks.items ≡ length found.old.marks.items }
    ensures none { OnOk result (found.new.items.items ≡ []) }
    ensures grown { OnOk result (Grows facts.old.items facts.new.items (IsFactFrom frame.now.shape.now slot def)) }
{
    spread(frame, slot, def, found)?;
    put_all(frame, def, found.items.as_slice(), facts)?;
    found.clear();
    Ok(())
}

/// What is the same for all definitions of a method.
#[derive(Clone, Copy)]
pub struct Method<'a> {
    pub shape: &'a Shape,
    /// The index of the point at each pc.
    pub index: &'a [usize],
    /// The stack has nowhere more slots.
    pub depth: usize,
}

// The facts of a definition from where it first stands in a local. It stays in this local.
fn put_local(
    method: &Method<'_>,
    slot: u32,
    def: Def,
    found: &mut Worklist,
    facts: &mut Vec<Fact>,
) -> Result<(), NoMemory>
    requires method { IsMethod method.now }
    requires room { length method.now.shape.now.points * method.now.depth ≤ length found.old.marks.items }
    requires set { IsWorklist found.old.marks.items found.old.items.items }
    requires none { found.old.items.items ≡ [] }
    requires start { IsStart method.now.shape.now slot def }
    requires slot { slot < method.now.shape.now.max_locals }
    ensures set { OnOk result (IsWorklist found.new.marks.items found.new.items.items) }
    ensures size { length found.new.marks.items ≡ length found.old.marks.items }
    ensures none { OnOk result (found.new.items.items ≡ []) }
    ensures grown { OnOk result (Grows facts.old.items facts.new.items (IsFactFrom method.now.shape.now slot def)) }
{
    let frame = Frame {
        shape: method.shape,
        index: method.index,
        first: slot,
        width: 1,
    };
    put_spread(&frame, slot, def, found, facts)
}

// The facts of a definition from where it first stands on the stack. It stays on the stack.
fn put_stacked(
    method: &Method<'_>,
    slot: u32,
    def: Def,
    found: &mut Worklist,
    facts: &mut Vec<Fact>,
) -> Result<(), NoMemory>
    requires method { IsMethod method.now }
    requires room { length method.now.shape.now.points * method.now.depth ≤ length found.old.marks.items }
    requires set { IsWorklist found.old.marks.items found.old.items.items }
    requires none { found.old.items.items ≡ [] }
    requires start { IsStart method.now.shape.now slot def }
    requires above { method.now.shape.now.max_locals ≤ slot }
    requires slot { slot < method.now.shape.now.max_locals + method.now.depth }
    ensures set { OnOk result (IsWorklist found.new.marks.items found.new.items.items) }
    ensures size { length found.new.marks.items ≡ length found.old.marks.items }
    ensures none { OnOk result (found.new.items.items ≡ []) }
    ensures grown { OnOk result (Grows facts.old.items facts.new.items (IsFactFrom method.now.shape.now slot def)) }
{
    let frame = Frame {
        shape: method.shape,
        index: method.index,
        first: method.shape.max_locals as u32,
        width: method.depth,
    };
    put_spread(&frame, slot, def, found, facts)
}

/// The facts of a definition from where it first stands in the slot.
pub fn put_facts(
    method: &Method<'_>,
    slot: u32,
    def: Def,
    found: &mut Worklist,
    facts: &mut Vec<Fact>,
) -> Result<(), NoMemory>
    requires method { IsMethod method.now }
    requires room { length method.now.shape.now.points * method.now.depth ≤ length found.old.marks.items }
    requires set { IsWorklist found.old.marks.items found.old.items.items }
    requires none { found.old.items.items ≡ [] }
    requires start { IsStart method.now.shape.now slot def }
    ensures set { OnOk result (IsWorklist found.new.marks.items found.new.items.items) }
    ensures size { length found.new.marks.items ≡ length found.old.marks.items }
    ensures none { OnOk result (found.new.items.items ≡ []) }
    ensures grown { OnOk result (Grows facts.old.items facts.new.items (IsFactFrom method.now.shape.now slot def)) }
{
    let locals = method.shape.max_locals as u32;
    if slot < locals {
        return put_local(method, slot, def, found, facts);
    }
    if slot < locals + method.depth as u32 {
        return put_stacked(method, slot, def, found, facts);
    }
    // No instruction that makes this slot goes on.
    Ok(())
}
