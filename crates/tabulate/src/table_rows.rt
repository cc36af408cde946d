// The rows of a table, from what was found.
ghost use Rattle.std.specs.Prelude.{◌≡◌, ◌↔◌, ◌⊎◌, ◌<◌, ◌+◌, ◌*◌, ℕ, List, true, IfOk, IsTrue, Contains, map};
ghost use Rattle.std.specs.Int.{bit_at};
ghost use Rattle.slicer_ids.specs.declared.ids.NodeId.{NodeId};
ghost use Rattle.slicer_ids.specs.declared.ids.ExitId.{ExitId};
ghost use Rattle.dep_form.specs.LookUps.{HasFormals};
ghost use Rattle.dep_form.specs.Summaries.{IsExitAt};
ghost use Rattle.tabulate.specs.Frames.{IsOf, method_of, width};
ghost use Rattle.tabulate.specs.Methods.{AreMethods, IsMet, IsMethodOf};
ghost use Rattle.tabulate.specs.Found.{Got, AreFound};
ghost use Rattle.tabulate.specs.States.{IsWordFound, IsRowFound};

use crate::found::{Found, is_got};
use crate::method::{Method, met_method, owner};
use dep_form::facts::Facts;
use slicer_ids::ids::{ExitId, NoMemory, NodeId};
use slicer_ids::list::List;
use std::alloc::Global;

// Sets a bit of a word where it is to be set.
fn with_bit(bits: u64, bit: u32, set: bool) -> u64
    requires { bit < 64 }
    ensures { (b : ℕ) → (bit_at result b ≡ 1) ↔ ((bit_at bits b ≡ 1) ⊎ ((b ≡ bit) × (set ≡ true))) }
{
    if set { bits | (1 << bit) } else { bits }
}

// Whether the number is that of a formal that was found to lead to the exit.
fn leads(
    f: &Facts,
    method: &Method,
    number: usize,
    formals: u32,
    formal: u32,
    found: &Vec<Found>,
) -> bool
    requires method { IsMethodOf f.now method.now }
    requires formals { HasFormals f.now method.now.id formals }
    requires number { number < 64 * width f.now method.now.id.0 }
    requires found { AreFound f.now found.now.items }
    ensures { IsTrue result ↔ ((formal < formals) × Got f.now found.now.items (method.now.first.0 + formal, number)) }
{
    if formal >= formals {
        return false;
    }
    is_got(f, method, NodeId(method.first.0 + formal), number, found)
}

// A word of the row of an exit: 64 formals.
fn word_of(
    f: &Facts,
    method: &Method,
    number: usize,
    formals: u32,
    word: u32,
    found: &Vec<Found>,
) -> u64
    requires method { IsMethodOf f.now method.now }
    requires formals { HasFormals f.now method.now.id formals }
    requires number { number < 64 * width f.now method.now.id.0 }
    requires word { 64 * word < formals }
    requires found { AreFound f.now found.now.items }
    ensures { IsWordFound f.now found.now.items method.now.first.0 formals number word result }
{
    let mut bits: u64 = 0;
    for bit in 0..64u32 {
        let set = leads(f, method, number, formals, 64 * word + bit, found);
        bits = with_bit(bits, bit, set);
    }
    bits
}

// The row of an exit over the formals of its method.
fn row_of(
    alloc: Global,
    f: &Facts,
    method: &Method,
    exit: ExitId,
    found: &Vec<Found>,
) -> Result<Vec<u64>, NoMemory>
    requires method { IsMethodOf f.now method.now }
    requires exit { (x : NodeId) × IsExitAt f.now exit x × IsOf f.now x.0 method.now.id.0 }
    requires found { AreFound f.now found.now.items }
    ensures { IfOk result (λ r. IsRowFound f.now found.now.items exit r.items) }
{
    let formals = f.formals(method.id);
    let number = (exit.0 - method.first_exit) as usize;
    let mut row = Vec::new(alloc);
    for word in 0..formals.div_ceil(64) {
        row.push(word_of(f, method, number, formals, word, found))?;
    }
    Ok(row)
}

// The row of an exit whose method was met.
fn row_at(
    alloc: Global,
    f: &Facts,
    methods: &Vec<Option<Method>>,
    exit: ExitId,
    found: &Vec<Found>,
) -> Result<List<u64>, NoMemory>
    requires methods { AreMethods f.now methods.now.items }
    requires exit { (x : NodeId) × IsExitAt f.now exit x × IsMet methods.now.items (method_of f.now x.0) }
    requires found { AreFound f.now found.now.items }
    ensures { IfOk result (λ r. IsRowFound f.now found.now.items exit r) }
{
    let method = met_method(f, methods, owner(f, f.exit_node(exit)));
    let row = row_of(alloc, f, method, exit, found)?;
    Ok(List::from_vec(row))
}

/// The rows of the exits that were asked for. 64 look-ups for each word of a row.
pub fn rows_of(
    alloc: Global,
    f: &Facts,
    methods: &Vec<Option<Method>>,
    asked: &[ExitId],
    found: &Vec<Found>,
) -> Result<Vec<(ExitId, List<u64>)>, NoMemory>
    requires methods { AreMethods f.now methods.now.items }
    requires exits { (d : ExitId) → Contains asked.now d → (x : NodeId) × IsExitAt f.now d x × IsMet methods.now.items (method_of f.now x.0) }
    requires found { AreFound f.now found.now.items }
    ensures exits { IfOk result (λ r. map (λ (y : ExitId × List ℕ). y.0) r.items ≡ asked.now) }
    ensures rows { IfOk result (λ r. (d : ExitId) (row : List ℕ) → Contains r.items (d, row) → IsRowFound f.now found.now.items d row) }
{
    let mut rows = Vec::new(alloc);
    for exit in asked {
        let row = row_at(alloc, f, methods, *exit, found)?;
        rows.push((*exit, row))?;
    }
    Ok(rows)
}
