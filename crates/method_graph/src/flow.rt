// Where control leads from each point of a method.
ghost use Rattle.std.specs.Prelude.{◌≡◌, ◌<◌, ◌≤◌, ◌+◌, ◌*◌, ◌/◌, ◌^◌, ◌↔◌, ◌⊎◌, ℕ, List, true, false, ◌||◌, length, slice_set, slice_index, IsTrue, IfOk, Contains};
ghost use Rattle.std.specs.Int.Bits.{bit_or};
ghost use Rattle.slicer_ids.specs.Walks.{LeadsOn};
ghost use Rattle.method_graph.specs.Flows.{Goes, HasWay, AreWays, Follows, Adds, AreSteps, AreRows};

use slicer_ids::ids::NoMemory;
use std::alloc::Global;

/// For each point a row of bits: the points that control leads to from it, in one step or more.
#[derive(Drop)]
pub struct Ways {
    pub points: u32,
    pub width: usize,
    pub words: Vec<u64>,
    pub ghost rows: { AreRows points width words.items },
}

// Adds bits to a word, and tells whether one of them is new.
fn add_bits(words: &mut Vec<u64>, place: usize, bits: u64) -> bool
    requires { place < length words.old.items }
    ensures joined { words.new.items ≡ slice_set words.old.items place (bit_or (slice_index words.old.items place) bits) }
    ensures adds { Adds words.old.items words.new.items result }
{
    let old = words[place];
    let new = old | bits;
    if new == old {
        return false;
    }
    words[place] = new;
    true
}

impl Ways {
    // No way yet.
    fn none(alloc: Global, points: u32) -> Result<Ways, NoMemory>
        ensures points { IfOk result (λ w. w.points ≡ points) }
        ensures none { IfOk result (λ w. (p q : ℕ) → HasWay w.width w.words.items p q → ⊥) }
    {
        let width = (points as usize).div_ceil(64);
        let Ok(words) = vec![in alloc; 0u64; points as usize * width] else {
            return Err(NoMemory);
        };
        Ok(Ways {
            points,
            width,
            words,
        })
    }

    // Whether control leads from the one point to the other.
    pub fn has(&self, p: u32, q: u32) -> bool
        requires { (p < self.now.points) × (q < self.now.points) }
        ensures { IsTrue result ↔ HasWay self.now.width self.now.words.items p q }
    {
        let word = self.words[p as usize * self.width + q as usize / 64];
        (word >> (q % 64)) & 1 == 1
    }

    // Adds one way.
    fn add_way(&mut self, p: u32, q: u32) -> bool
        requires { (p < self.old.points) × (q < self.old.points) }
        ensures frame { (self.new.points ≡ self.old.points) × (self.new.width ≡ self.old.width) }
        ensures ways { (a b : ℕ) → b / 64 < self.old.width → HasWay self.old.width self.new.words.items a b ↔ (HasWay self.old.width self.old.words.items a b ⊎ ((a ≡ p) × (b ≡ q))) }
        ensures adds { Adds self.old.words.items self.new.words.items result }
    {
        let place = p as usize * self.width + q as usize / 64;
        add_bits(&mut self.words, place, 1 << (q % 64))
    }

    // Adds to the ways from the one point those from the other.
    fn pour(&mut self, p: u32, q: u32) -> bool
        requires { (p < self.old.points) × (q < self.old.points) }
        ensures frame { (self.new.points ≡ self.old.points) × (self.new.width ≡ self.old.width) }
        ensures ways { (a b : ℕ) → b / 64 < self.old.width → HasWay self.old.width self.new.words.items a b ↔ (HasWay self.old.width self.old.words.items a b ⊎ ((a ≡ p) × HasWay self.old.width self.old.words.items q b)) }
        ensures adds { Adds self.old.words.items self.new.words.items result }
    {
        if p == q {
            return false;
        }
        join_rows(
            &mut self.words,
            self.width,
            p as usize * self.width,
            q as usize * self.width,
        )
    }

    // The ways that begin with a step.
    fn follow(&mut self, p: u32, q: u32) -> bool
        requires { (p < self.old.points) × (q < self.old.points) }
        ensures frame { (self.new.points ≡ self.old.points) × (self.new.width ≡ self.old.width) }
        ensures sound { (flow : List (ℕ × ℕ)) → Goes flow p q → AreWays flow self.old.width self.old.words.items → AreWays flow self.old.width self.new.words.items }
        ensures follows { result ≡ false → Follows self.old.width self.new.words.items p q }
        ensures adds { Adds self.old.words.items self.new.words.items result }
    {
        let one = self.add_way(p, q);
        let more = self.pour(p, q);
        one || more
    }

    // Those that begin with each step, the last one first, since most steps lead on.
    fn follow_all(&mut self, flow: &[(u32, u32)]) -> bool
        requires { AreSteps self.old.points flow.now }
        ensures frame { (self.new.points ≡ self.old.points) × (self.new.width ≡ self.old.width) }
        ensures sound { AreWays flow.now self.old.width self.old.words.items → AreWays flow.now self.old.width self.new.words.items }
        ensures follows { result ≡ false → (p q : ℕ) → Goes flow.now p q → Follows self.old.width self.new.words.items p q }
        ensures adds { Adds self.old.words.items self.new.words.items result }
    {
        let mut changed = false;
        for done in 0..flow.len() {
            let step = flow[flow.len() - 1 - done];
            let here = self.follow(step.0, step.1);
            changed = either(here, changed);
        }
        changed
    }
}

fn either(one: bool, other: bool) -> bool
    ensures { result ≡ (one || other) }
{
    one || other
}

// Adds one row to another, and tells whether a bit was new.
fn join_rows(words: &mut Vec<u64>, width: usize, to: usize, from: usize) -> bool
    requires within { (to + width ≤ length words.old.items) × (from + width ≤ length words.old.items) }
    requires apart { (to + width ≤ from) ⊎ (from + width ≤ to) }
    ensures joined { (k : ℕ) → k < width → slice_index words.new.items (to + k) ≡ bit_or (slice_index words.old.items (to + k)) (slice_index words.old.items (from + k)) }
    ensures kept { (k : ℕ) → ((k < to) ⊎ (to + width ≤ k)) → slice_index words.new.items k ≡ slice_index words.old.items k }
    ensures adds { Adds words.old.items words.new.items result }
{
    let mut changed = false;
    for k in 0..width {
        let bits = words[from + k];
        let here = add_bits(words, to + k, bits);
        changed = here || changed;
    }
    changed
}

/// The ways of one step or more between the points of a method. Takes points times points bits, and for each round as many steps of
/// 64 bits as flow has steps; there are as many rounds as loops lie in loops, and two.
pub fn find_ways(alloc: Global, points: u32, flow: &[(u32, u32)]) -> Result<Ways, NoMemory>
    requires { AreSteps points flow.now }
    ensures points { IfOk result (λ w. w.points ≡ points) }
    ensures ways { IfOk result (λ w. (p q : ℕ) → p < points → q < points → HasWay w.width w.words.items p q ↔ LeadsOn (Goes flow.now) p q) }
{
    let mut ways = Ways::none(alloc, points)?;
    let mut going = true;
    while going {
        going = ways.follow_all(flow);
    }
    Ok(ways)
}
