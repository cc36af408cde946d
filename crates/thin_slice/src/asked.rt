// What a walk asks: graphs that were seen, and rows that are known.
ghost use Rattle.std.specs.Prelude.{◌≡◌, ◌<◌, ◌↔◌, ℕ, IsTrue, length, MatchOption};

use dep_form::facts::Facts;
use dep_form::graph::Graph;
use slicer_ids::ids::{ExitId, MethodId, Mode};

/// The graphs of the methods of some facts, those that were seen so far.
pub trait SeenGraphs {
    ghost use Rattle.dep_form.specs.declared.facts.Facts.{Facts};
    ghost use Rattle.slicer_ids.specs.declared.ids.MethodId.{MethodId};
    ghost use Rattle.dep_form.specs.Graphs.{IsGraphIn, HasInput};

    // the facts that the graphs are of
    ghost facts: { Self → Facts };
    // the graph of this method was seen
    ghost has_seen: { Self → MethodId → Type 0 };
    // it was made by the calls of its crate
    ghost sound: { Self → Type 0 };

    /// The graph of a method that is reached, or of the root; none exactly where it wasn't seen. It takes no memory.
    fn seen(&self, m: MethodId) -> Option<&Graph>
        requires sound { sound self.now }
        requires inside { HasInput (facts self.now).inputs m }
        ensures { MatchOption result (has_seen self.now m → ⊥) (λ g. has_seen self.now m × IsGraphIn (facts self.now).inputs m g.now) };
}

/// The rows of the exits of some facts, those that are known so far.
pub trait KnownRows {
    ghost use Rattle.dep_form.specs.declared.facts.Facts.{Facts};
    ghost use Rattle.slicer_ids.specs.declared.ids.ExitId.{ExitId};
    ghost use Rattle.slicer_ids.specs.declared.ids.Mode.{Mode};
    ghost use Rattle.dep_form.specs.Summaries.{IsMask, IsWidthOf};

    // the facts that the rows are of
    ghost facts: { Self → Facts };
    // a later value knows all that it knew
    ghost later: { Self → Self → Type 0 };
    // this row is known
    ghost known: { Self → ExitId → Mode → Type 0 };
    // it was made by the calls of its crate
    ghost sound: { Self → Type 0 };

    /// Whether the row of an exit is known. It may learn that the row is there, but computes none and takes no memory.
    fn knows(&mut self, e: ExitId, mode: Mode) -> bool
        requires sound { sound self.old }
        requires inside { e.0 < length (facts self.old).exits }
        ensures sound { sound self.new }
        ensures later { later self.old self.new }
        ensures known { IsTrue result ↔ known self.new e mode };

    /// Word k of a row that is known: bit b is set where formal 64 * k + b is in the summary. It takes no memory.
    fn word(&mut self, e: ExitId, mode: Mode, k: u32) -> u64
        requires sound { sound self.old }
        requires known { known self.old e mode }
        requires within { (words : ℕ) × IsWidthOf (facts self.old) e words × (k < words) }
        ensures sound { sound self.new }
        ensures later { later self.old self.new }
        ensures word { IsMask (facts self.old) mode e k result };

    ghost later_refl: { (x : Self) → later x x };

    ghost later_trans: { (x y z : Self) → later x y → later y z → later x z };

    ghost later_facts: { (x y : Self) → later x y → facts y ≡ facts x };

    ghost later_known: { (x y : Self) (e : ExitId) (mode : Mode) → later x y → known x e mode → known y e mode };
}
