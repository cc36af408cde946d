// Which handlers each instruction has.
ghost use Rattle.std.specs.Prelude.{◌≡◌, ◌<◌, ◌≤◌, ◌↔◌, ◌⊎◌, [], ℕ, All, AllPairs, Contains, IfOk, OnOk, Some, true, false, length, slice_get};
ghost use Rattle.class_form.specs.declared.body.Instr.{Instr};
ghost use Rattle.class_form.specs.declared.class_file.Handler.{Handler};
ghost use Rattle.worklists.specs.Growth.{Grows, FromOne};
ghost use Rattle.code_shape.specs.declared.covers.Range.{Range};
ghost use Rattle.code_shape.specs.declared.covers.Cover.{Cover};
ghost use Rattle.code_shape.specs.Codes.{IsAt, AreInOrder};
ghost use Rattle.code_shape.specs.Covers.{range_of, cover, RangeBefore, CoverBefore, CoversFrom, CoveredBy, IsCovered};

use crate::entries::first_from;
use class_form::body::Instr;
use class_form::class_file::{CodeBody, Handler};
use slicer_ids::ids::NoMemory;
use std::alloc::Global;

/// The range of an entry of the exception table, its handler first.
#[derive(Clone, Copy, PartialEq, Eq, PartialOrd, Ord)]
pub struct Range {
    pub handler: u16,
    pub start: u16,
    pub end: u16,
}

/// An entry with this handler covers the instruction of an index.
#[derive(Clone, Copy, PartialEq, Eq, PartialOrd, Ord)]
pub struct Cover {
    pub index: usize,
    pub handler: u16,
}

fn put_range(ranges: &mut Vec<Range>, entry: &Handler) -> Result<(), NoMemory>
    ensures { OnOk result (Grows ranges.old.items ranges.new.items (λ r. r ≡ range_of entry.now)) }
{
    match ranges.push(Range {
        handler: entry.handler,
        start: entry.start,
        end: entry.end,
    }) {
        Ok(()) => Ok(()),
        Err(_) => Err(NoMemory),
    }
}

fn all_ranges(alloc: Global, entries: &[Handler]) -> Result<Vec<Range>, NoMemory>
    ensures { IfOk result (λ v. Grows [] v.items (FromOne (λ e r. r ≡ range_of e) entries.now)) }
{
    let mut ranges = Vec::new(alloc);
    for entry in entries {
        put_range(&mut ranges, entry)?;
    }
    Ok(ranges)
}

// The same ranges, in order, each once.
fn ordered_ranges(ranges: Vec<Range>) -> Result<Vec<Range>, NoMemory>
    ensures order { IfOk result (λ v. AllPairs RangeBefore v.items) }
    ensures members { IfOk result (λ v. (r : Range) → Contains v.items r ↔ Contains ranges.items r) }
{
    let mut all = ranges;
    match all.sort() {
        Ok(()) => {}
        Err(_) => return Err(NoMemory),
    }
    all.dedup();
    Ok(all)
}

fn put_cover(covers: &mut Vec<Cover>, index: usize, handler: u16) -> Result<(), NoMemory>
    ensures { OnOk result (Grows covers.old.items covers.new.items (λ c. c ≡ cover index handler)) }
{
    match covers.push(Cover { index, handler }) {
        Ok(()) => Ok(()),
        Err(_) => Err(NoMemory),
    }
}

// The instructions that begin within two pcs have the handler.
fn put_covers(
    covers: &mut Vec<Cover>,
    instrs: &[Instr],
    from: u16,
    to: u16,
    handler: u16,
) -> Result<(), NoMemory>
    requires { AreInOrder instrs.now }
    ensures { OnOk result (Grows covers.old.items covers.new.items (CoversFrom instrs.now from to handler)) }
{
    if from >= to {
        return Ok(());
    }
    let first = first_from(instrs, from);
    let last = first_from(instrs, to);
    for k in first..last {
        put_cover(covers, k, handler)?;
    }
    Ok(())
}

// From where on a range covers instructions that no range before it with the same handler covers.
fn start_of(range: Range, handler: u16, done: u16) -> u16
    ensures low { range.start ≤ result }
    ensures skipped { (pc : ℕ) → pc < result → range.start ≤ pc → (range.handler ≡ handler) × (pc < done) }
{
    if range.handler == handler && range.start < done {
        return done;
    }
    range.start
}

// To where the ranges with the handler of this one, up to it, cover all that comes after its start.
fn done_by(range: Range, handler: u16, done: u16) -> u16
    ensures { (result ≡ range.end) ⊎ ((result ≡ done) × (range.handler ≡ handler)) }
{
    if range.handler == handler && range.end < done {
        return done;
    }
    range.end
}

// What the ranges cover. An instruction that several ranges with one handler cover is listed once for them.
fn all_covers(alloc: Global, instrs: &[Instr], ranges: &[Range]) -> Result<Vec<Cover>, NoMemory>
    requires code { AreInOrder instrs.now }
    requires ranges { AllPairs RangeBefore ranges.now }
    ensures { IfOk result (λ v. Grows [] v.items (FromOne (CoveredBy instrs.now) ranges.now)) }
{
    let mut covers = Vec::new(alloc);
    let mut handler = 0u16;
    let mut done = 0u16;
    for range in ranges {
        let from = start_of(*range, handler, done);
        put_covers(&mut covers, instrs, from, range.end, range.handler)?;
        done = done_by(*range, handler, done);
        handler = range.handler;
    }
    Ok(covers)
}

// The same covers, in order, each once.
fn ordered_covers(covers: Vec<Cover>) -> Result<Vec<Cover>, NoMemory>
    ensures order { IfOk result (λ v. AllPairs CoverBefore v.items) }
    ensures members { IfOk result (λ v. (c : Cover) → Contains v.items c ↔ Contains covers.items c) }
{
    let mut all = covers;
    match all.sort() {
        Ok(()) => {}
        Err(_) => return Err(NoMemory),
    }
    all.dedup();
    Ok(all)
}

/// The handlers of each instruction, in order. It takes time for the entries and for the pairs of an instruction and a handler that
/// it has, and not for each pair of an instruction and an entry.
pub fn covers_of(alloc: Global, body: &CodeBody, instrs: &[Instr]) -> Result<Vec<Cover>, NoMemory>
    requires { AreInOrder instrs.now }
    ensures order { IfOk result (λ v. AllPairs CoverBefore v.items) }
    ensures members { IfOk result (λ v. (c : Cover) → Contains v.items c ↔ IsCovered body.now instrs.now c) }
{
    let entries = body.handlers.items();
    let listed = all_ranges(alloc, entries)?;
    let ranges = ordered_ranges(listed)?;
    let found = all_covers(alloc, instrs, ranges.as_slice())?;
    let covers = ordered_covers(found)?;
    Ok(covers)
}

fn is_earlier(cover: &Cover, index: usize) -> bool
    ensures yes { result ≡ true → cover.now.index < index }
    ensures no { result ≡ false → index ≤ cover.now.index }
{
    cover.index < index
}

// The least index from which on no cover is of an earlier instruction.
fn first_cover(covers: &[Cover], index: usize) -> usize
    requires { (j k : ℕ) (a b : Cover) → j < k → slice_get covers.now j ≡ Some a → slice_get covers.now k ≡ Some b → a.index ≤ b.index }
    ensures within { result ≤ length covers.now }
    ensures before { (k : ℕ) (c : Cover) → k < result → slice_get covers.now k ≡ Some c → c.index < index }
    ensures after { (k : ℕ) (c : Cover) → result ≤ k → slice_get covers.now k ≡ Some c → index ≤ c.index }
{
    let mut low = 0;
    let mut high = covers.len();
    while low < high {
        let middle = low + (high - low) / 2;
        if is_earlier(&covers[middle], index) {
            low = middle + 1;
        } else {
            high = middle;
        }
    }
    low
}

/// The handlers of the instruction of an index, in order.
pub fn covers_at(covers: &[Cover], index: usize) -> &[Cover]
    requires order { AllPairs CoverBefore covers.now }
    requires index { index < 65536 }
    ensures order { AllPairs CoverBefore result.now }
    ensures members { (c : Cover) → Contains result.now c ↔ (Contains covers.now c × (c.index ≡ index)) }
{
    let low = first_cover(covers, index);
    let high = first_cover(covers, index + 1);
    &covers[low..high]
}
