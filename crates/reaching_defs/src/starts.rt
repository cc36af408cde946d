// Where definitions first stand: arguments, results and caught exceptions.
ghost use Rattle.std.specs.Prelude.{◌≡◌, ◌<◌, ◌≤◌, ◌+◌, ℕ, List, length, sum, Contains, All, OnOk, IfOk};
ghost use Rattle.class_form.specs.declared.body.Def.TheVariants.{Formal, Value, Caught};
ghost use Rattle.worklists.specs.Growth.{Grows, FromOne};
ghost use Rattle.worklist.specs.Worklists.{IsWorklist};
ghost use Rattle.class_form.specs.Reaching.{IsFlow, Begins};
ghost use Rattle.class_form.specs.declared.body.Def.{Def};
ghost use Rattle.reaching_defs.specs.Frames.{place};
ghost use Rattle.reaching_defs.specs.Starts.{start, IsStartIn, IsFormalStart, IsValueStart, HasHandler, IsCaughtStart, IsStart};

use class_form::body::{Def, Point, Shape};
use slicer_ids::ids::NoMemory;
use std::alloc::Global;
use worklist::Worklist;

/// A definition, and a slot in which it first stands.
#[derive(Clone, Copy)]
pub struct Start {
    pub slot: u32,
    pub def: Def,
}

fn put(starts: &mut Vec<Start>, slot: u32, def: Def) -> Result<(), NoMemory>
    ensures { OnOk result (Grows starts.old.items starts.new.items (λ x. x ≡ start slot def)) }
{
    match starts.push(Start { slot, def }) {
        Ok(()) => Ok(()),
        Err(_) => Err(NoMemory),
    }
}

// So many slots from the first on.
fn put_slots(starts: &mut Vec<Start>, def: Def, first: u32, width: u8) -> Result<(), NoMemory>
    requires { first ≤ 65535 }
    ensures { OnOk result (Grows starts.old.items starts.new.items (IsStartIn def first width)) }
{
    for i in 0..width {
        put(starts, first + i as u32, def)?;
    }
    Ok(())
}

// The slots of each argument.
fn put_formals(starts: &mut Vec<Start>, arguments: &[u8]) -> Result<(), NoMemory>
    requires few { length arguments.now ≤ 255 }
    requires fit { sum arguments.now ≤ 65535 }
    ensures { OnOk result (Grows starts.old.items starts.new.items (λ x. (i : ℕ) × IsFormalStart arguments.now i x)) }
{
    let mut first: u32 = 0;
    for i in 0..arguments.len() {
        let width = arguments[i];
        put_slots(starts, Def::Formal(i as u8), first, width)?;
        first += width as u32;
    }
    Ok(())
}

// What one instruction makes.
fn put_made(starts: &mut Vec<Start>, point: &Point) -> Result<(), NoMemory>
    ensures { OnOk result (Grows starts.old.items starts.new.items (IsValueStart point.now)) }
{
    let makes = point.makes.items();
    for slot in makes {
        put(starts, *slot, Def::Value(point.pc))?;
    }
    Ok(())
}

// What each instruction makes.
fn put_values(starts: &mut Vec<Start>, points: &[Point]) -> Result<(), NoMemory>
    ensures { OnOk result (Grows starts.old.items starts.new.items (FromOne IsValueStart points.now)) }
{
    for point in points {
        put_made(starts, point)?;
    }
    Ok(())
}

// The handlers of one instruction.
fn find_handlers(found: &mut Worklist, handlers: &[u16]) -> Result<(), NoMemory>
    requires within { All (λ h. h < length found.old.marks.items) handlers.now }
    requires set { IsWorklist found.old.marks.items found.old.items.items }
    ensures set { OnOk result (IsWorklist found.new.marks.items found.new.items.items) }
    ensures size { length found.new.marks.items ≡ length found.old.marks.items }
    ensures grown { OnOk result (Grows found.old.items.items found.new.items.items (Contains handlers.now)) }
{
    for handler in handlers {
        found.add(*handler as usize)?;
    }
    Ok(())
}

// The handlers of all instructions.
fn find_all_handlers(found: &mut Worklist, points: &[Point]) -> Result<(), NoMemory>
    requires within { All (λ p. All (λ h. h < length found.old.marks.items) p.handlers) points.now }
    requires set { IsWorklist found.old.marks.items found.old.items.items }
    ensures set { OnOk result (IsWorklist found.new.marks.items found.new.items.items) }
    ensures size { length found.new.marks.items ≡ length found.old.marks.items }
    ensures grown { OnOk result (Grows found.old.items.items found.new.items.items (FromOne HasHandler points.now)) }
{
    for point in points {
        find_handlers(found, point.handlers.items())?;
    }
    Ok(())
}

// What each handler is given.
fn put_caught(starts: &mut Vec<Start>, locals: u32, handlers: &[usize]) -> Result<(), NoMemory>
    requires { All (λ h. h < 65536) handlers.now }
    ensures { OnOk result (Grows starts.old.items starts.new.items (FromOne (IsCaughtStart locals) handlers.now)) }
{
    for handler in handlers {
        put(starts, locals, Def::Caught(*handler as u16))?;
    }
    Ok(())
}

/// Where each definition first stands: all its slots.
pub fn starts_of(alloc: Global, shape: &Shape, end: usize) -> Result<Vec<Start>, NoMemory>
    requires flow { IsFlow shape.now }
    requires within { All (λ p. All (λ h. h < end) p.handlers) shape.now.points }
    requires small { end ≤ 65536 }
    ensures each { IfOk result (λ v. All (λ x. IsStart shape.now x.slot x.def) v.items) }
    ensures whole { IfOk result (λ v. (pc slot : ℕ) (def : Def) → Begins shape.now def (place pc slot) → Contains v.items (start slot def)) }
{
    let locals = shape.max_locals as u32;
    let points = shape.points.items();
    let mut found = Worklist::new(alloc, end)?;
    find_all_handlers(&mut found, points)?;
    let mut starts = Vec::new(alloc);
    put_formals(&mut starts, shape.arguments.items())?;
    put_values(&mut starts, points)?;
    put_caught(&mut starts, locals, found.items.as_slice())?;
    Ok(starts)
}
