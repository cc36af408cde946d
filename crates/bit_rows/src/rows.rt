// Rows of bits. Bit b of word k stands for the number 64 * k + b.
ghost use Rattle.std.specs.Prelude.{◌≡◌, ◌+◌, ◌*◌, ◌/◌, ◌<◌, ◌≤◌, ◌↔◌, ℕ, true, false, IsTrue, OnOk, length, bit_and, ◌^◌};
ghost use Rattle.std.specs.Int.{bit_not, w64};
ghost use Rattle.bit_rows.specs.Words.{IsIn, AtWord, Moved, Outside, AreWords, ones_of};
ghost use Rattle.bit_rows.specs.Adds.{Adds};

use slicer_ids::ids::NoMemory;
use slicer_ids::steps::Steps;
use std::sync::ledger::Ledger;

/// Whether a number is in the row that begins at a word.
pub fn has(words: &[u64], at: usize, number: usize) -> bool
    requires { at + number / 64 < length words.now }
    ensures { IsTrue result ↔ IsIn words.now (64 * at + number) }
{
    (words[at + number / 64] >> (number % 64)) & 1 == 1
}

// The bits of the first word that the second lacks.
fn without(bits: u64, old: u64) -> u64
    ensures is { result ≡ bit_and bits (bit_not w64 old) }
    ensures word { old < 2 ^ 64 }
{
    bits & !old
}

// Sets those of the bits that aren't set in a word, each with a turn, and notes that they wait. Answers which were new.
fn give_word<L: Ledger>(
    got: &mut [u64],
    todo: &mut [u64],
    place: usize,
    bits: u64,
    steps: &mut Steps<L>,
) -> u64
    requires got { place < length got.old }
    requires todo { place < length todo.old }
    ensures adds { Adds (IsIn got.old) (IsIn todo.old) (IsIn got.new) (IsIn todo.new) (AtWord place bits) }
    ensures turns { steps.new + ones_of got.old ≡ steps.old + ones_of got.new }
    ensures words { AreWords got.old → AreWords got.new }
    ensures on { steps.old ≤ steps.new }
    ensures moved { 0 < result → steps.old < steps.new }
    ensures quiet { result ≡ 0 → todo.new ≡ todo.old }
{
    let new = without(bits, got[place]);
    if new == 0 {
        return 0;
    }
    got[place] |= new;
    todo[place] |= new;
    steps.turns(u64::from(new.count_ones()));
    new
}

/// Adds the numbers of a row to the row that begins at a word: each that is new takes a turn, and waits. Answers whether one
/// was new. One step a word.
pub fn give_row<L: Ledger>(
    got: &mut [u64],
    todo: &mut [u64],
    at: usize,
    delta: &[u64],
    steps: &mut Steps<L>,
) -> bool
    requires got { at + length delta.now ≤ length got.old }
    requires todo { at + length delta.now ≤ length todo.old }
    ensures adds { Adds (IsIn got.old) (IsIn todo.old) (IsIn got.new) (IsIn todo.new) (Moved at delta.now) }
    ensures turns { steps.new + ones_of got.old ≡ steps.old + ones_of got.new }
    ensures words { AreWords got.old → AreWords got.new }
    ensures on { steps.old ≤ steps.new }
    ensures moved { result ≡ true → steps.old < steps.new }
    ensures quiet { result ≡ false → todo.new ≡ todo.old }
{
    let mut any = 0;
    for k in 0..delta.len() {
        any |= give_word(got, todo, at + k, delta[k], steps);
    }
    any != 0
}

/// Copies the row of so many words that begins at a word, into a buffer that is used again.
pub fn copy_row(words: &[u64], at: usize, width: usize, into: &mut Vec<u64>) -> Result<(), NoMemory>
    requires { at + width ≤ length words.now }
    ensures len { OnOk result (length into.new.items ≡ width) }
    ensures bits { OnOk result ((x : ℕ) → x < 64 * width → IsIn into.new.items x ↔ IsIn words.now (64 * at + x)) }
{
    into.clear();
    into.extend_from_slice(&words[at..at + width])?;
    Ok(())
}

/// Copies the numbers of a row that don't wait: those in the first words and not in the others.
pub fn copy_taken(
    got: &[u64],
    todo: &[u64],
    at: usize,
    width: usize,
    into: &mut Vec<u64>,
) -> Result<(), NoMemory>
    requires got { at + width ≤ length got.now }
    requires todo { at + width ≤ length todo.now }
    ensures len { OnOk result (length into.new.items ≡ width) }
    ensures bits { OnOk result ((x : ℕ) → x < 64 * width → IsIn into.new.items x ↔ IsIn got.now (64 * at + x) × (IsIn todo.now (64 * at + x) → ⊥)) }
{
    into.clear();
    for k in 0..width {
        into.push(without(got[at + k], todo[at + k]))?;
    }
    Ok(())
}

/// Takes all numbers out of a row.
pub fn clear_row(words: &mut [u64], at: usize, width: usize)
    requires { at + width ≤ length words.old }
    ensures bits { (i : ℕ) → IsIn words.new i ↔ IsIn words.old i × Outside at width i }
    ensures len { length words.new ≡ length words.old }
{
    for k in 0..width {
        words[at + k] = 0;
    }
}

/// Whether a row has no number.
pub fn is_empty(words: &[u64]) -> bool
    ensures none { result ≡ true → (x : ℕ) → IsIn words.now x → ⊥ }
    ensures some { result ≡ false → (x : ℕ) × IsIn words.now x }
{
    for word in words {
        if *word != 0 {
            return false;
        }
    }
    true
}
