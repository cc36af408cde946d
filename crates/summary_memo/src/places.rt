// Where the words of each row lie.
ghost use Rattle.std.specs.Prelude.{◌≡◌, ◌<◌, ◌≤◌, ◌+◌, ◌^◌, ℕ, suc, length, slice_index, IfOk};
ghost use Rattle.slicer_ids.specs.declared.ids.ExitId.{ExitId};
ghost use Rattle.summary_memo.specs.Places.{before, width, widths};

use dep_form::facts::Facts;
use slicer_ids::ids::{ExitId, NoMemory};
use std::alloc::Global;

/// For each exit how many words the rows of one mode have before its own, and at the end how many they have together; and how many
/// data words the longest row has.
#[derive(Drop)]
pub(crate) struct Places {
    pub(crate) starts: Vec<usize>,
    pub(crate) longest: usize,
}

// The places of the rows of these facts.
pub(crate) fn places_of(alloc: Global, f: &Facts) -> Result<Places, NoMemory>
    ensures count { IfOk result (λ p. length p.starts.items ≡ suc (length f.now.exits)) }
    ensures starts { IfOk result (λ p. (k : ℕ) → k ≤ length f.now.exits → slice_index p.starts.items k ≡ before (widths f.now) k) }
    ensures longest { IfOk result (λ p. (e : ExitId) → e.0 < length f.now.exits → width f.now e ≤ p.longest) }
{
    let mut starts = Vec::new(alloc);
    let mut next = 0;
    let mut longest = 0;
    let mut exit = 0;
    while exit < f.exits.items().len() {
        starts.push(next)?;
        let words = width_of(f, ExitId(exit as u32));
        next += 1 + words;
        longest = larger(longest, words);
        exit += 1;
    }
    starts.push(next)?;
    Ok(Places { starts, longest })
}

// How many data words the row of an exit has.
fn width_of(f: &Facts, e: ExitId) -> usize
    requires { e.0 < length f.now.exits }
    ensures width { result ≡ width f.now e }
    ensures few { result ≤ 2 ^ 18 + 1 }
{
    let method = f.method_of(f.exit_node(e));
    (f.formals(method) as usize + 63) / 64
}

// The larger of two counts.
fn larger(a: usize, b: usize) -> usize
    ensures { (a ≤ result) × (b ≤ result) }
{
    a.max(b)
}
