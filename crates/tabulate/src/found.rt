// What was found, as rows of bits by node.
ghost use Rattle.std.specs.Prelude.{◌≡◌, ◌↔◌, ◌⊎◌, ◌+◌, ◌*◌, ◌/◌, ◌<◌, ◌≤◌, ◌-◌, ℕ, true, false, IsTrue, IfOk, OnOk, All, length, slice_index_or, slice_set};
ghost use Rattle.bit_rows.specs.Words.{IsIn, Moved, Outside, AreWords, ones_of};
ghost use Rattle.bit_rows.specs.Adds.{Adds, Taken};
ghost use Rattle.tabulate.specs.Frames.{IsExit, IsOf, count, method_of, number_of, width};
ghost use Rattle.tabulate.specs.Methods.{IsMethodOf};
ghost use Rattle.tabulate.specs.Found.{Got, Todo, IsOpen, AreFound, IsQueue, Goes, IsSame, IsBlank, Takes, total, waits_of};
ghost use Rattle.tabulate.specs.Rules.{Row, Whole, Asks};

use crate::method::Method;
use bit_rows::rows::{clear_row, copy_row, copy_taken, give_row, has};
use dep_form::facts::Facts;
use slicer_ids::ids::{NoMemory, NodeId};
use slicer_ids::steps::Steps;
use std::alloc::Global;
use std::collections::VecDeque;
use std::sync::ledger::Ledger;

/// The rows of one method's nodes: a bit for each exit of the method to which the node leads, those bits that wait to be
/// taken up, and the nodes that have such bits. Empty until one of the method's exits is asked for.
#[derive(Drop)]
pub struct Found {
    pub got: Vec<u64>,
    pub todo: Vec<u64>,
    pub waits: Vec<bool>,
}

// Adds bits to a row. Answers whether its node has to wait, and didn't.
fn give_in<L: Ledger>(
    table: &mut Found,
    row: usize,
    at: usize,
    delta: &[u64],
    steps: &mut Steps<L>,
) -> bool
    requires row { row < length table.old.waits.items }
    requires got { at + length delta.now ≤ length table.old.got.items }
    requires todo { at + length delta.now ≤ length table.old.todo.items }
    ensures adds { Adds (IsIn table.old.got.items) (IsIn table.old.todo.items) (IsIn table.new.got.items) (IsIn table.new.todo.items) (Moved at delta.now) }
    ensures turns { steps.new + ones_of table.old.got.items ≡ steps.old + ones_of table.new.got.items }
    ensures words { AreWords table.old.got.items → AreWords table.new.got.items }
    ensures on { steps.old ≤ steps.new }
    ensures got { length table.new.got.items ≡ length table.old.got.items }
    ensures todo { length table.new.todo.items ≡ length table.old.todo.items }
    ensures stays { result ≡ false → table.new.waits.items ≡ table.old.waits.items }
    ensures waits { result ≡ true → table.new.waits.items ≡ slice_set table.old.waits.items row true }
    ensures moved { result ≡ true → steps.old < steps.new }
    ensures marked { (table.new.todo.items ≡ table.old.todo.items) ⊎ (slice_index_or table.new.waits.items row false ≡ true) }
{
    if !give_row(&mut table.got, &mut table.todo, at, delta, steps) {
        return false;
    }
    if table.waits[row] {
        return false;
    }
    table.waits[row] = true;
    true
}

// Adds bits to a node's row, from a word on.
fn give_from<L: Ledger>(
    f: &Facts,
    method: &Method,
    n: NodeId,
    skip: usize,
    delta: &[u64],
    found: &mut Vec<Found>,
    queue: &mut VecDeque<NodeId>,
    steps: &mut Steps<L>,
) -> Result<(), NoMemory>
    requires method { IsMethodOf f.now method.now }
    requires node { IsOf f.now n.0 method.now.id.0 }
    requires delta { skip + length delta.now ≤ width f.now method.now.id.0 }
    requires found { AreFound f.now found.old.items }
    requires queue { IsQueue f.now found.old.items queue.old.items }
    requires opened { IsOpen f.now found.old.items method.now.id.0 }
    ensures goes { OnOk result (Goes f.now found.old.items found.new.items queue.old.items queue.new.items steps.old steps.new (Row n.0 skip delta.now)) }
    ensures turns { steps.new + total found.old.items ≡ steps.old + total found.new.items }
{
    let row = (n.0 - method.first.0) as usize;
    let at = row * method.width as usize + skip;
    if !give_in(&mut found[method.id.0 as usize], row, at, delta, steps) {
        return Ok(());
    }
    queue.push_back(n)?;
    Ok(())
}

/// Adds a row of bits to a node of a method. One step a word.
pub fn give<L: Ledger>(
    f: &Facts,
    method: &Method,
    n: NodeId,
    delta: &[u64],
    found: &mut Vec<Found>,
    queue: &mut VecDeque<NodeId>,
    steps: &mut Steps<L>,
) -> Result<(), NoMemory>
    requires method { IsMethodOf f.now method.now }
    requires node { IsOf f.now n.0 method.now.id.0 }
    requires delta { length delta.now ≤ width f.now method.now.id.0 }
    requires found { AreFound f.now found.old.items }
    requires queue { IsQueue f.now found.old.items queue.old.items }
    requires opened { IsOpen f.now found.old.items method.now.id.0 }
    ensures goes { OnOk result (Goes f.now found.old.items found.new.items queue.old.items queue.new.items steps.old steps.new (Whole n.0 delta.now)) }
    ensures turns { steps.new + total found.old.items ≡ steps.old + total found.new.items }
{
    give_from(f, method, n, 0, delta, found, queue, steps)
}

/// Makes room for the rows of a method. Two bits for each of its nodes and each of its exits.
pub fn open(
    alloc: Global,
    f: &Facts,
    method: &Method,
    found: &mut Vec<Found>,
) -> Result<(), NoMemory>
    requires method { IsMethodOf f.now method.now }
    requires found { AreFound f.now found.old.items }
    ensures found { OnOk result (AreFound f.now found.new.items) }
    ensures same { OnOk result (IsSame f.now found.old.items found.new.items) }
    ensures opened { OnOk result (IsOpen f.now found.new.items method.now.id.0) }
    ensures others { OnOk result ((m : ℕ) → (m ≡ method.now.id.0 → ⊥) → length (waits_of found.new.items m) ≡ length (waits_of found.old.items m)) }
    ensures total { total found.new.items ≡ total found.old.items }
{
    if is_open(f, method, found) {
        return Ok(());
    }
    let rows = method.size as usize;
    let width = method.width as usize;
    let got = vec![in alloc; 0; rows * width]?;
    let todo = vec![in alloc; 0; rows * width]?;
    let waits = vec![in alloc; false; rows]?;
    found[method.id.0 as usize] = Found { got, todo, waits };
    Ok(())
}

/// Adds an exit with itself.
pub fn ask<L: Ledger>(
    f: &Facts,
    method: &Method,
    n: NodeId,
    number: usize,
    found: &mut Vec<Found>,
    queue: &mut VecDeque<NodeId>,
    steps: &mut Steps<L>,
) -> Result<(), NoMemory>
    requires method { IsMethodOf f.now method.now }
    requires node { IsOf f.now n.0 method.now.id.0 }
    requires exit { IsExit f.now n.0 }
    requires number { number ≡ number_of f.now n.0 }
    requires found { AreFound f.now found.old.items }
    requires queue { IsQueue f.now found.old.items queue.old.items }
    requires opened { IsOpen f.now found.old.items method.now.id.0 }
    ensures goes { OnOk result (Goes f.now found.old.items found.new.items queue.old.items queue.new.items steps.old steps.new (Asks f.now n.0)) }
    ensures turns { steps.new + total found.old.items ≡ steps.old + total found.new.items }
{
    let bit: u64 = 1 << (number % 64);
    give_from(f, method, n, number / 64, &[bit], found, queue, steps)?;
    Ok(())
}

// Takes the bits that wait out of a row.
fn take_in(table: &mut Found, row: usize, width: usize, into: &mut Vec<u64>) -> Result<(), NoMemory>
    requires row { row < length table.old.waits.items }
    requires todo { row * width + width ≤ length table.old.todo.items }
    ensures got { table.new.got.items ≡ table.old.got.items }
    ensures len { OnOk result (length into.new.items ≡ width) }
    ensures bits { OnOk result ((x : ℕ) → x < 64 * width → IsIn into.new.items x ↔ IsIn table.old.todo.items (64 * (row * width) + x)) }
    ensures left { OnOk result ((i : ℕ) → IsIn table.new.todo.items i ↔ IsIn table.old.todo.items i × Outside (row * width) width i) }
    ensures todo { length table.new.todo.items ≡ length table.old.todo.items }
    ensures waits { OnOk result (table.new.waits.items ≡ slice_set table.old.waits.items row false) }
{
    let at = row * width;
    copy_row(&table.todo, at, width, into)?;
    clear_row(&mut table.todo, at, width);
    table.waits[row] = false;
    Ok(())
}

/// Takes out what waits at a node.
pub fn take(
    f: &Facts,
    method: &Method,
    n: NodeId,
    found: &mut Vec<Found>,
    into: &mut Vec<u64>,
) -> Result<(), NoMemory>
    requires method { IsMethodOf f.now method.now }
    requires node { IsOf f.now n.0 method.now.id.0 }
    requires found { AreFound f.now found.old.items }
    requires opened { IsOpen f.now found.old.items method.now.id.0 }
    ensures found { OnOk result (AreFound f.now found.new.items) }
    ensures takes { OnOk result (Takes f.now found.old.items found.new.items n.0 into.new.items) }
    ensures total { total found.new.items ≡ total found.old.items }
{
    let row = (n.0 - method.first.0) as usize;
    take_in(
        &mut found[method.id.0 as usize],
        row,
        method.width as usize,
        into,
    )?;
    Ok(())
}

/// Whether there is room for the rows of a method.
pub fn is_open(f: &Facts, method: &Method, found: &Vec<Found>) -> bool
    requires method { IsMethodOf f.now method.now }
    requires found { AreFound f.now found.now.items }
    ensures yes { result ≡ true → IsOpen f.now found.now.items method.now.id.0 }
    ensures none { result ≡ false → length (waits_of found.now.items method.now.id.0) ≡ 0 }
{
    !found[method.id.0 as usize].waits.is_empty()
}

/// Whether a pair was found.
pub fn is_got(f: &Facts, method: &Method, n: NodeId, number: usize, found: &Vec<Found>) -> bool
    requires method { IsMethodOf f.now method.now }
    requires node { IsOf f.now n.0 method.now.id.0 }
    requires number { number < 64 * width f.now method.now.id.0 }
    requires found { AreFound f.now found.now.items }
    ensures { IsTrue result ↔ Got f.now found.now.items (n.0, number) }
{
    if !is_open(f, method, found) {
        return false;
    }
    let at = (n.0 - method.first.0) as usize * method.width as usize;
    has(&found[method.id.0 as usize].got, at, number)
}

// Whether a pair waits.
fn is_todo(f: &Facts, method: &Method, n: NodeId, number: usize, found: &Vec<Found>) -> bool
    requires method { IsMethodOf f.now method.now }
    requires node { IsOf f.now n.0 method.now.id.0 }
    requires number { number < 64 * width f.now method.now.id.0 }
    requires found { AreFound f.now found.now.items }
    requires opened { IsOpen f.now found.now.items method.now.id.0 }
    ensures { IsTrue result ↔ Todo f.now found.now.items (n.0, number) }
{
    let at = (n.0 - method.first.0) as usize * method.width as usize;
    has(&found[method.id.0 as usize].todo, at, number)
}

/// Whether a pair was found, and doesn't wait.
pub fn is_taken(f: &Facts, method: &Method, n: NodeId, number: usize, found: &Vec<Found>) -> bool
    requires method { IsMethodOf f.now method.now }
    requires node { IsOf f.now n.0 method.now.id.0 }
    requires number { number < 64 * width f.now method.now.id.0 }
    requires found { AreFound f.now found.now.items }
    ensures { IsTrue result ↔ Taken (Got f.now found.now.items) (Todo f.now found.now.items) (n.0, number) }
{
    if !is_open(f, method, found) {
        return false;
    }
    is_got(f, method, n, number, found) && !is_todo(f, method, n, number, found)
}

/// The exits to which a node leads, but for those that wait.
pub fn copy(
    f: &Facts,
    method: &Method,
    n: NodeId,
    found: &Vec<Found>,
    into: &mut Vec<u64>,
) -> Result<(), NoMemory>
    requires method { IsMethodOf f.now method.now }
    requires node { IsOf f.now n.0 method.now.id.0 }
    requires found { AreFound f.now found.now.items }
    requires opened { IsOpen f.now found.now.items method.now.id.0 }
    ensures len { OnOk result (length into.new.items ≡ width f.now method.now.id.0) }
    ensures bits { OnOk result ((x : ℕ) → IsIn into.new.items x ↔ Taken (Got f.now found.now.items) (Todo f.now found.now.items) (n.0, x)) }
{
    let width = method.width as usize;
    let at = (n.0 - method.first.0) as usize * width;
    let table = &found[method.id.0 as usize];
    copy_taken(&table.got, &table.todo, at, width, into)?;
    Ok(())
}

/// Room for each method, with nothing in it.
pub fn blank(alloc: Global, methods: usize) -> Result<Vec<Found>, NoMemory>
    ensures len { IfOk result (λ t. length t.items ≡ methods) }
    ensures blank { IfOk result (λ t. All IsBlank t.items) }
{
    let mut found = Vec::new(alloc);
    for _method in 0..methods {
        let table = Found {
            got: Vec::new(alloc),
            todo: Vec::new(alloc),
            waits: Vec::new(alloc),
        };
        found.push(table)?;
    }
    Ok(found)
}
