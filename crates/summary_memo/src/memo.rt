// The shared rows, and the seats that threads step with.
ghost use Rattle.std.specs.Prelude.{◌≡◌, ◌≢◌, ◌+◌, ◌*◌, ◌^◌, ◌<◌, ◌≤◌, ◌↔◌, ℕ, suc, [], ◌∷◌, ◌++◌, length, slice_index, IfOk, IsTrue};
ghost use Rattle.std.specs.Int.{bit_at};
ghost use Rattle.slicer_ids.specs.declared.ids.ExitId.{ExitId};
ghost use Rattle.dep_form.specs.Summaries.{Summary, IsMask, IsRow};
ghost use Rattle.summary_memo.specs.Places.{before, width, widths, memo_words, mode_words, gate_of, data_of};
ghost use Rattle.summary_memo.specs.Rule.{KnowsShut, KnowsAll, Knows, LooksOnce, both, fresh};

use crate::places::{Places, places_of};
use crate::view::{Copies, Looks, Masks, Merges, Offers, SharedRows, Shuts, View};
use atomic_table::{Seat, Table};
use dep_form::facts::Facts;
use slicer_ids::ids::{ExitId, Mode, NoMemory};
use std::alloc::Global;

/// The rows of all exits in both modes, as words of bits that threads share: bit i of a row is set where formal i is in the summary
/// (Horwitz, Reps and Binkley, TOPLAS 1990). A row is a gate word, not 0 once the row is shut, and a data word for 64 formals.
///
/// It takes 8 bytes a word and 8 an exit, and twice the words while it is made. No call waits.
#[derive(Drop)]
pub struct Memo {
    table: Table<(), View, Facts, SharedRows, Global>,
    starts: Vec<usize>,
    longest: usize,
    ghost sized: { table.shared.table_id.words ≡ suc (memo_words table.shared.key) },
    ghost count: { length starts.items ≡ suc (length table.shared.key.exits) },
    ghost starts_are: { (k : ℕ) → k ≤ length table.shared.key.exits → slice_index starts.items k ≡ before (widths table.shared.key) k },
    ghost longest_is: { (e : ExitId) → e.0 < length table.shared.key.exits → width table.shared.key e ≤ longest },
}

/// What one thread steps with, and what it knows of the rows. It takes no bytes.
#[derive(Drop)]
pub struct MemoSeat {
    seat: Seat<(), View>,
    ghost bare: { seat.me.1 ≡ [] },
}

impl Memo {
    ghost use Rattle.summary_memo.specs.Memo.{facts_of, view_of, IsSeatOf};

    /// All rows, open and empty.
    pub fn new(alloc: Global, f: &Facts) -> Result<(Memo, MemoSeat), NoMemory>
        ensures about { IfOk result (λ r. facts_of r.0 ≡ f.now) }
        ensures seat { IfOk result (λ r. IsSeatOf r.0 r.1 × (view_of r.1 ≡ fresh f.now)) }
    {
        let Places { starts, longest } = places_of(alloc, f)?;
        let count = word_count(f, &starts);
        let words = Vec::from_elem(alloc, 0u64, count)?;
        let (table, seat) = Table::of_words(alloc, words.as_slice(), f)?;
        Ok((
            Memo {
                table,
                starts,
                longest,
            },
            MemoSeat { seat },
        ))
    }

    // How many words the rows of one mode have before that of exit k, or all of them.
    fn start(&self, k: usize) -> usize
        requires { k ≤ length (facts_of self.now).exits }
        ensures start { result ≡ before (widths (facts_of self.now)) k }
        ensures few { result < 2 ^ 52 }
    {
        self.starts[k]
    }

    // Where the row's gate lies.
    fn gate(&self, e: ExitId, mode: Mode) -> usize
        requires { e.0 < length (facts_of self.now).exits }
        ensures { result ≡ gate_of (facts_of self.now) e mode }
    {
        let start = 1 + self.start(e.0 as usize);
        match mode {
            Mode::Thin => start,
            Mode::Full => start + self.start(self.starts.len() - 1),
        }
    }

    // Where data word k of the row lies.
    fn word(&self, e: ExitId, mode: Mode, k: usize) -> usize
        requires exit { e.0 < length (facts_of self.now).exits }
        requires word { k < width (facts_of self.now) e }
        ensures { result ≡ data_of (facts_of self.now) e mode k }
    {
        self.gate(e, mode) + k + 1
    }

    /// How many data words the exit's row has.
    pub fn width(&self, e: ExitId) -> usize
        requires { e.0 < length (facts_of self.now).exits }
        ensures { result ≡ width (facts_of self.now) e }
    {
        let k = e.0 as usize;
        self.start(k + 1) - self.start(k) - 1
    }

    /// As many data words as the longest row has, or more.
    pub fn longest(&self) -> usize
        ensures { (e : ExitId) → e.0 < length (facts_of self.now).exits → width (facts_of self.now) e ≤ result }
    {
        self.longest
    }

    /// Whether the row is shut. Where it is, the seat knows it. One load.
    pub fn look(&self, seat: &mut MemoSeat, e: ExitId, mode: Mode) -> bool
        requires seat { IsSeatOf self.now seat.old }
        requires exit { e.0 < length (facts_of self.now).exits }
        ensures seat { IsSeatOf self.now seat.new }
        ensures knows { Knows (view_of seat.old) (view_of seat.new) }
        ensures known { KnowsShut (view_of seat.old) (facts_of self.now) e mode → IsTrue result }
        ensures shut { IsTrue result ↔ KnowsShut (view_of seat.new) (facts_of self.now) e mode }
        ensures looked { (found : ℕ) × (IsTrue result ↔ (found ≢ 0)) × LooksOnce (view_of seat.old) (facts_of self.now) e mode found (view_of seat.new) }
    {
        let gate = self.gate(e, mode);
        self.table.shared.load::<Looks>(&mut seat.seat, gate) != 0
    }

    /// Word k of the summary, of a row that the seat knows shut. One load.
    pub fn mask(&self, seat: &mut MemoSeat, e: ExitId, mode: Mode, k: usize) -> u64
        requires seat { IsSeatOf self.now seat.old }
        requires exit { e.0 < length (facts_of self.now).exits }
        requires word { k < width (facts_of self.now) e }
        requires shut { KnowsShut (view_of seat.old) (facts_of self.now) e mode }
        ensures seat { IsSeatOf self.now seat.new }
        ensures knows { Knows (view_of seat.old) (view_of seat.new) }
        ensures view { view_of seat.new ≡ record (view_of seat.old) { bits = (view_of seat.old).bits ++ (data_of (facts_of self.now) e mode k, result) ∷ [] } }
        ensures summary { IsMask (facts_of self.now) mode e k result }
    {
        let word = self.word(e, mode, k);
        self.table.shared.load::<Masks>(&mut seat.seat, word)
    }

    /// Sets bits of word k of a row. The seat then knows them set.
    pub fn offer(&self, seat: &mut MemoSeat, e: ExitId, mode: Mode, k: usize, bits: u64)
        requires seat { IsSeatOf self.now seat.old }
        requires exit { e.0 < length (facts_of self.now).exits }
        requires word { k < width (facts_of self.now) e }
        requires within { (b : ℕ) → b < 64 → bit_at bits b ≡ 1 → Summary (facts_of self.now) mode e (64 * k + b) }
        ensures seat { IsSeatOf self.now seat.new }
        ensures knows { Knows (view_of seat.old) (view_of seat.new) }
        ensures view { view_of seat.new ≡ record (view_of seat.old) { bits = (view_of seat.old).bits ++ (data_of (facts_of self.now) e mode k, bits) ∷ [] } }
    {
        let word = self.word(e, mode, k);
        self.table
            .shared
            .fetch_or::<Offers>(&mut seat.seat, word, bits);
    }

    /// Shuts a row whose whole summary the seat knows set. The seat then knows it shut.
    pub fn shut(&self, seat: &mut MemoSeat, e: ExitId, mode: Mode)
        requires seat { IsSeatOf self.now seat.old }
        requires exit { e.0 < length (facts_of self.now).exits }
        requires all { KnowsAll (view_of seat.old) (facts_of self.now) e mode }
        ensures seat { IsSeatOf self.now seat.new }
        ensures knows { Knows (view_of seat.old) (view_of seat.new) }
        ensures shut { KnowsShut (view_of seat.new) (facts_of self.now) e mode }
        ensures view { LooksOnce (view_of seat.old) (facts_of self.now) e mode 1 (view_of seat.new) }
    {
        let gate = self.gate(e, mode);
        self.table.shared.fetch_or::<Shuts>(&mut seat.seat, gate, 1);
    }

    /// Offers all words of a summary, and shuts its row.
    pub fn fill(&self, seat: &mut MemoSeat, e: ExitId, mode: Mode, words: &[u64])
        requires seat { IsSeatOf self.now seat.old }
        requires exit { e.0 < length (facts_of self.now).exits }
        requires words { IsRow (facts_of self.now) mode e words.now }
        ensures seat { IsSeatOf self.now seat.new }
        ensures knows { Knows (view_of seat.old) (view_of seat.new) }
        ensures shut { KnowsShut (view_of seat.new) (facts_of self.now) e mode }
    {
        let mut k = 0;
        while k < words.len() {
            self.offer(seat, e, mode, k, words[k]);
            k += 1;
        }
        self.shut(seat, e, mode);
    }

    /// Copies the words of a row that the seat knows shut to the front of a buffer.
    pub fn copy(&self, seat: &mut MemoSeat, e: ExitId, mode: Mode, into: &mut Vec<u64>)
        requires seat { IsSeatOf self.now seat.old }
        requires exit { e.0 < length (facts_of self.now).exits }
        requires shut { KnowsShut (view_of seat.old) (facts_of self.now) e mode }
        requires room { width (facts_of self.now) e ≤ length into.old.items }
        ensures seat { IsSeatOf self.now seat.new }
        ensures knows { Knows (view_of seat.old) (view_of seat.new) }
        ensures room { length into.new.items ≡ length into.old.items }
        ensures words { (k : ℕ) → k < width (facts_of self.now) e → IsMask (facts_of self.now) mode e k (slice_index into.new.items k) }
    {
        let mut k = 0;
        while k < self.width(e) {
            into[k] = self.mask(seat, e, mode, k);
            k += 1;
        }
    }

    /// A second seat, which knows what this one knows.
    pub fn split(&self, seat: &mut MemoSeat) -> MemoSeat
        requires { IsSeatOf self.now seat.old }
        ensures old { IsSeatOf self.now seat.new × (view_of seat.new ≡ view_of seat.old) }
        ensures new { IsSeatOf self.now result × (view_of result ≡ view_of seat.old) }
    {
        MemoSeat {
            seat: self.table.shared.split_seat::<Copies>(&mut seat.seat),
        }
    }

    /// The seat then knows what either knew.
    pub fn join(&self, seat: &mut MemoSeat, other: MemoSeat)
        requires seat { IsSeatOf self.now seat.old }
        requires other { IsSeatOf self.now other }
        ensures seat { IsSeatOf self.now seat.new }
        ensures view { view_of seat.new ≡ both (view_of seat.old) (view_of other) }
        ensures knows { Knows (view_of seat.old) (view_of seat.new) }
        ensures others { Knows (view_of other) (view_of seat.new) }
    {
        let MemoSeat { seat: other } = other;
        self.table.shared.join_seat::<Merges>(&mut seat.seat, other);
    }
}

// How many words the table has, of the places of its rows.
fn word_count(f: &Facts, starts: &Vec<usize>) -> usize
    requires count { length starts.now.items ≡ suc (length f.now.exits) }
    requires starts { (k : ℕ) → k ≤ length f.now.exits → slice_index starts.now.items k ≡ before (widths f.now) k }
    ensures { result ≡ suc (memo_words f.now) }
{
    let words = starts[f.exits.items().len()];
    1 + words + words
}
