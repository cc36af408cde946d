// Slices that are widened step by step.
ghost use Rattle.std.specs.Prelude.{◌≡◌, ◌<◌, ◌++◌, ◌∷◌, [], ◌↔◌, ℕ, List, IfOk, OnOk, OnErr, Contains, IsTrue, length};
ghost use Rattle.slicer_ids.specs.declared.ids.NodeId.{NodeId};
ghost use Rattle.dep_form.specs.declared.facts.Facts.{Facts};
ghost use Rattle.dep_form.specs.Firsts.{node_count};
ghost use Rattle.dep_form.specs.Slices.{Slice};
ghost use Rattle.tabulate.specs.Frames.{count};
ghost use Rattle.tabulate.specs.Methods.{AreMethods};
ghost use Rattle.widening.specs.Pairs.{KeepsMet};
ghost use Rattle.widening.specs.Counts.{HasNoPairs};
ghost use Rattle.widening.specs.States.{IsSliced, IsGrowing};
ghost use Rattle.widening.specs.Widened.{IsWide, seeds_of, expansions_of, AreTurned, AreAtMost, AreFirstTurns, AreAtMostFirst};

use crate::expansions::Expansions;
use crate::marking::add_nodes;
use crate::pairs::Pairs;
use crate::state::{State, copied, grow};
use dep_form::facts::Facts;
use dep_form::graphs::Graphs;
use slicer_ids::ids::{NoMemory, NodeId, Statement};
use slicer_ids::steps::Steps;
use std::alloc::Global;
use std::collections::VecDeque;
use std::marker::Brand;
use std::sync::ledger::{Blank, Ledger};
use tabulate::found::blank;
use tabulate::method::Method;
use tabulate::tabulation::none_met;
use thin_slice::marked::MarkedNodes;
use thin_slice::walk::count_nodes;

/// The slice of some nodes in which the bases of some accesses are followed too. It keeps the path edges of the exits that the
/// slice needs (Horwitz, Reps and Binkley, TOPLAS 1990), the edges of the calls of their methods, and two marks and 8 bytes for
/// each node of the facts.
#[derive(Drop)]
pub struct Wide {
    alloc: Global,
    seeds: Vec<NodeId>,
    methods: Vec<Option<Method>>,
    state: State,
}

// The seeds alone are marked.
fn start(
    alloc: Global,
    f: &Facts,
    seeds: &[NodeId],
    methods: &Vec<Option<Method>>,
) -> Result<State, NoMemory>
    requires seeds { (n : NodeId) → Contains seeds.now n → n.0 < count f.now }
    requires methods { AreMethods f.now methods.now.items }
    ensures growing { IfOk result (IsGrowing f.now seeds.now [] 0 methods.now.items) }
    ensures expansions { IfOk result (λ s. s.expansions.accesses.items ≡ []) }
    ensures none { IfOk result (λ s. HasNoPairs f.now s.pairs) }
{
    let size = count_nodes(f);
    let marks = vec![in alloc; false; size]?;
    let count = f.inputs.items().len();
    let found = blank(alloc, count)?;
    let mut up = MarkedNodes::new(alloc, size)?;
    add_nodes(f, seeds, &mut up);
    let down = MarkedNodes::new(alloc, size)?;
    let accesses = Vec::new(alloc);
    let asked = Vec::new(alloc);
    let queue = VecDeque::new(alloc);
    Ok(State {
        expansions: Expansions { accesses, marks },
        pairs: Pairs {
            asked,
            found,
            queue,
        },
        up,
        down,
    })
}

// The slice with no access expanded. The blank is for a count that nobody reads.
fn begin<G: Graphs, T: Ledger, L: Ledger>(
    alloc: Global,
    f: &Facts,
    graphs: &mut G,
    seeds: &[NodeId],
    blank: Blank,
    steps: &mut Steps<L>,
) -> Result<Wide, NoMemory>
    requires blank { (blank.name ≡ T.name) × (blank.parts ≡ T.parts) × (0 < T.parts) }
    requires graphs { G.sound graphs.old × (G.facts graphs.old ≡ f.now) }
    requires seeds { (n : NodeId) → Contains seeds.now n → n.0 < count f.now }
    ensures graphs { G.sound graphs.new × G.later graphs.old graphs.new }
    ensures wide { IfOk result (IsWide f.now) }
    ensures seeds { IfOk result (λ w. seeds_of w ≡ seeds.now) }
    ensures expansions { IfOk result (λ w. expansions_of w ≡ []) }
    ensures turns { OnOk result (AreFirstTurns f.now seeds.now steps.old steps.new) }
    ensures within { AreAtMostFirst f.now seeds.now steps.old steps.new }
{
    let mut tally = Steps::<T>::new(blank);
    let copy = copied(alloc, seeds)?;
    let count = f.inputs.items().len();
    let mut methods = none_met(alloc, count)?;
    let mut state = start(alloc, f, seeds, &methods)?;
    grow(
        alloc,
        f,
        graphs,
        &[],
        0,
        &mut methods,
        &mut state,
        &mut tally,
        steps,
    )?;
    Ok(Wide {
        alloc,
        seeds: copy,
        methods,
        state,
    })
}

// What is kept with more accesses expanded. The blank is for a count that nobody reads.
fn widened<G: Graphs, T: Ledger, L: Ledger>(
    alloc: Global,
    f: &Facts,
    graphs: &mut G,
    accesses: &[Statement],
    methods: &mut Vec<Option<Method>>,
    state: &State,
    blank: Blank,
    steps: &mut Steps<L>,
) -> Result<State, NoMemory>
    requires blank { (blank.name ≡ T.name) × (blank.parts ≡ T.parts) × (0 < T.parts) }
    requires graphs { G.sound graphs.old × (G.facts graphs.old ≡ f.now) }
    requires sliced { (seeds : List NodeId) × IsSliced f.now seeds methods.old.items state.now }
    ensures graphs { G.sound graphs.new × G.later graphs.old graphs.new }
    ensures methods { AreMethods f.now methods.new.items × KeepsMet methods.old.items methods.new.items }
    ensures sliced { IfOk result (λ s. (seeds : List NodeId) → IsSliced f.now seeds methods.old.items state.now → IsSliced f.now seeds methods.new.items s) }
    ensures expansions { IfOk result (λ s. s.expansions.accesses.items ≡ state.now.expansions.accesses.items ++ accesses.now) }
    ensures turns { OnOk result ((seeds : List NodeId) → IsSliced f.now seeds methods.old.items state.now → AreTurned f.now seeds state.now.expansions.accesses.items (state.now.expansions.accesses.items ++ accesses.now) steps.old steps.new) }
    ensures within { (seeds : List NodeId) → IsSliced f.now seeds methods.old.items state.now → AreAtMost f.now seeds state.now.expansions.accesses.items (state.now.expansions.accesses.items ++ accesses.now) steps.old steps.new }
{
    let mut tally = Steps::<T>::new(blank);
    let mut next = state.copy(alloc)?;
    let mut nodes = Vec::new(alloc);
    next.expansions.add_all(f, accesses, &mut nodes)?;
    let ups = next.up.count;
    grow(
        alloc, f, graphs, &nodes, ups, methods, &mut next, &mut tally, steps,
    )?;
    Ok(next)
}

impl Wide {
    /// The slice of some nodes with no access expanded. One turn is taken for each path edge of the exits that the slice needs.
    pub fn new<G: Graphs, L: Ledger>(
        alloc: Global,
        f: &Facts,
        graphs: &mut G,
        seeds: &[NodeId],
        steps: &mut Steps<L>,
    ) -> Result<Wide, NoMemory>
        requires graphs { G.sound graphs.old × (G.facts graphs.old ≡ f.now) }
        requires seeds { (n : NodeId) → Contains seeds.now n → n.0 < node_count f.now.inputs }
        ensures graphs { G.sound graphs.new × G.later graphs.old graphs.new }
        ensures wide { IfOk result (IsWide f.now) }
        ensures seeds { IfOk result (λ w. seeds_of w ≡ seeds.now) }
        ensures expansions { IfOk result (λ w. expansions_of w ≡ []) }
        ensures turns { OnOk result (AreFirstTurns f.now seeds.now steps.old steps.new) }
        ensures within { AreAtMostFirst f.now seeds.now steps.old steps.new }
    {
        begin::<G, Brand, L>(alloc, f, graphs, seeds, Blank::new(1), steps)
    }

    /// Expands some accesses too, all at once. Turns are taken for those path edges alone that the slice hadn't needed before. It
    /// asks for the graphs of the methods alone of which something new is found. It copies what it keeps, and goes over the edges of
    /// calls that it keeps; where memory is wanting, it is the slice that it was.
    pub fn expand_all<G: Graphs, L: Ledger>(
        &mut self,
        f: &Facts,
        graphs: &mut G,
        accesses: &[Statement],
        steps: &mut Steps<L>,
    ) -> Result<(), NoMemory>
        requires graphs { G.sound graphs.old × (G.facts graphs.old ≡ f.now) }
        requires wide { IsWide f.now self.old }
        ensures graphs { G.sound graphs.new × G.later graphs.old graphs.new }
        ensures wide { IsWide f.now self.new }
        ensures seeds { seeds_of self.new ≡ seeds_of self.old }
        ensures expansions { OnOk result (expansions_of self.new ≡ expansions_of self.old ++ accesses.now) }
        ensures unchanged { OnErr result (expansions_of self.new ≡ expansions_of self.old) }
        ensures turns { OnOk result (AreTurned f.now (seeds_of self.old) (expansions_of self.old) (expansions_of self.old ++ accesses.now) steps.old steps.new) }
        ensures within { AreAtMost f.now (seeds_of self.old) (expansions_of self.old) (expansions_of self.old ++ accesses.now) steps.old steps.new }
    {
        let next = widened::<G, Brand, L>(
            self.alloc,
            f,
            graphs,
            accesses,
            &mut self.methods,
            &self.state,
            Blank::new(1),
            steps,
        )?;
        self.state = next;
        Ok(())
    }

    /// Expands an access too.
    pub fn expand<G: Graphs, L: Ledger>(
        &mut self,
        f: &Facts,
        graphs: &mut G,
        s: Statement,
        steps: &mut Steps<L>,
    ) -> Result<(), NoMemory>
        requires graphs { G.sound graphs.old × (G.facts graphs.old ≡ f.now) }
        requires wide { IsWide f.now self.old }
        ensures graphs { G.sound graphs.new × G.later graphs.old graphs.new }
        ensures wide { IsWide f.now self.new }
        ensures seeds { seeds_of self.new ≡ seeds_of self.old }
        ensures expansions { OnOk result (expansions_of self.new ≡ expansions_of self.old ++ s ∷ []) }
        ensures unchanged { OnErr result (expansions_of self.new ≡ expansions_of self.old) }
        ensures turns { OnOk result (AreTurned f.now (seeds_of self.old) (expansions_of self.old) (expansions_of self.old ++ s ∷ []) steps.old steps.new) }
        ensures within { AreAtMost f.now (seeds_of self.old) (expansions_of self.old) (expansions_of self.old ++ s ∷ []) steps.old steps.new }
    {
        self.expand_all(f, graphs, &[s], steps)
    }

    /// Whether a node is in the slice. It takes no memory.
    pub fn has(&self, n: NodeId) -> bool
        requires node { (f : Facts) × IsWide f self.now × (n.0 < node_count f.inputs) }
        ensures { (f : Facts) → IsWide f self.now → IsTrue result ↔ Slice f.inputs (Contains (expansions_of self.now)) (Contains (seeds_of self.now)) n }
    {
        self.state.down.has(n)
    }
}
