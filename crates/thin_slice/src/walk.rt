// A walk that can stop where something is missing, and go on from there.
ghost use Rattle.std.specs.Prelude.{◌≡◌, ◌<◌, ◌↔◌, IsTrue, IfOk, OnOk, All, Contains, length};
ghost use Rattle.slicer_ids.specs.declared.ids.NodeId.{NodeId};
ghost use Rattle.slicer_ids.specs.declared.ids.ExitId.{ExitId};
ghost use Rattle.slicer_ids.specs.declared.ids.Mode.{Mode};
ghost use Rattle.dep_form.specs.declared.facts.Facts.{Facts};
ghost use Rattle.dep_form.specs.Firsts.{node_count, nodes_in};
ghost use Rattle.worklists.specs.Growth.{Grows};
ghost use Rattle.thin_slice.specs.Marks.{AreMarked, found};
ghost use Rattle.thin_slice.specs.Walks.{IsWalkOf, IsWalking, IsFresh, AreServed, IsFetched, IsCause, IsAllFetched, ModeSlice, WhenFinished, nodes_of, seeds_of};
ghost use Rattle.thin_slice.specs.declared.needs.Phase.TheVariants.{Up, Down};

use crate::ahead::add_exits_at;
use crate::asked::{KnownRows, SeenGraphs};
use crate::marked::MarkedNodes;
use crate::needs::{Go, Phase, is_need};
use crate::phases::{walk_down, walk_up};
use dep_form::facts::Facts;
use dep_form::input::MethodInput;
use slicer_ids::ids::{ExitId, Mode, NoMemory, NodeId};
use std::alloc::Global;

/// A slice by a walk back from its seeds, first up to callers, then down into the methods called (Horwitz, Reps, Binkley). It takes
/// 5 bytes a node when it is made, and no more.
#[derive(Drop)]
pub struct Walk {
    nodes: MarkedNodes,
    // how many of the first nodes are the seeds
    seeds: usize,
    phase: Phase,
    // how many of the first nodes are those of the first phase, once it is over
    ups: usize,
    // how many of the first nodes were taken up in this phase
    next: usize,
    last: Go,
}

// How many nodes an input has.
fn nodes_in(input: &Option<MethodInput>) -> usize
    ensures { result ≡ nodes_in input.now }
{
    match input {
        Some(input) => input.nodes.items().len(),
        None => 0,
    }
}

/// How many nodes the facts have.
pub fn count_nodes(f: &Facts) -> usize
    ensures { result ≡ node_count f.now.inputs }
{
    let mut count = 0;
    let inputs = f.inputs.items();
    for input in inputs {
        count += nodes_in(input);
    }
    count
}

// Adds all of the nodes.
fn add_all(nodes: &mut MarkedNodes, seeds: &[NodeId])
    requires set { AreMarked nodes.old }
    requires within { All (λ (n : NodeId). n.0 < length nodes.old.marks.items) seeds.now }
    ensures set { AreMarked nodes.new }
    ensures size { length nodes.new.marks.items ≡ length nodes.old.marks.items }
    ensures grown { Grows (found nodes.old) (found nodes.new) (Contains seeds.now) }
{
    for seed in seeds {
        nodes.add(*seed);
    }
}

impl Walk {
    /// A walk over the nodes of these facts, with no seeds. It takes all the memory that it will need.
    pub fn new(alloc: Global, f: &Facts) -> Result<Walk, NoMemory>
        ensures { IfOk result (λ w. IsWalkOf f.now w) }
    {
        let nodes = MarkedNodes::new(alloc, count_nodes(f))?;
        Ok(Walk {
            nodes,
            seeds: 0,
            phase: Phase::Up,
            ups: 0,
            next: 0,
            last: Go::Finished,
        })
    }

    /// Starts anew from these seeds, nodes of the facts that the walk is of, in either mode. It costs the seeds and the nodes that
    /// the last walk found.
    pub fn start(&mut self, seeds: &[NodeId])
        requires { (f : Facts) × IsWalkOf f self.old × All (λ (n : NodeId). n.0 < node_count f.inputs) seeds.now }
        ensures walking { (f : Facts) (mode : Mode) → IsWalkOf f self.old → IsWalking f mode self.new }
        ensures seeds { (n : NodeId) → Contains (seeds_of self.new) n ↔ Contains seeds.now n }
        ensures fresh { IsFresh self.new }
    {
        self.nodes.clear();
        add_all(&mut self.nodes, seeds);
        self.seeds = self.nodes.count;
        self.phase = Phase::Up;
        self.ups = 0;
        self.next = 0;
        self.last = Go::Finished;
    }

    // Goes down from where it stands in the second phase.
    fn go_down<G: SeenGraphs, R: KnownRows>(
        &mut self,
        f: &Facts,
        graphs: &G,
        rows: &mut R,
        mode: Mode,
    ) -> Go
        requires phase { self.old.phase ≡ Down }
        requires graphs { G.sound graphs.now }
        requires graph_facts { G.facts graphs.now ≡ f.now }
        requires rows { R.sound rows.old }
        requires row_facts { R.facts rows.old ≡ f.now }
        requires walking { IsWalking f.now mode self.old }
        requires served { AreServed f.now (G.has_seen graphs.now) (λ e. R.known rows.old e mode) self.old }
        ensures rows { R.sound rows.new }
        ensures later { R.later rows.old rows.new }
        ensures walking { IsWalking f.now mode self.new }
        ensures seeds { seeds_of self.new ≡ seeds_of self.old }
        ensures served { AreServed f.now (G.has_seen graphs.now) (λ e. R.known rows.new e mode) self.new }
        ensures cause { IsCause f.now mode (seeds_of self.old) (G.has_seen graphs.now) (λ e. R.known rows.new e mode) result }
        ensures slice { WhenFinished result ((n : NodeId) → Contains (nodes_of self.new) n ↔ ModeSlice f.now mode (seeds_of self.old) n) }
        ensures fetched { WhenFinished result (IsAllFetched f.now mode (seeds_of self.old) (G.has_seen graphs.now) (λ e. R.known rows.new e mode)) }
    {
        walk_down(
            f,
            graphs,
            rows,
            mode,
            self.ups,
            &mut self.nodes,
            &mut self.next,
        )
    }

    // Goes up from where it stands in the first phase, and then down.
    fn go_up<G: SeenGraphs, R: KnownRows>(
        &mut self,
        f: &Facts,
        graphs: &G,
        rows: &mut R,
        mode: Mode,
    ) -> Go
        requires phase { self.old.phase ≡ Up }
        requires graphs { G.sound graphs.now }
        requires graph_facts { G.facts graphs.now ≡ f.now }
        requires rows { R.sound rows.old }
        requires row_facts { R.facts rows.old ≡ f.now }
        requires walking { IsWalking f.now mode self.old }
        requires served { AreServed f.now (G.has_seen graphs.now) (λ e. R.known rows.old e mode) self.old }
        ensures rows { R.sound rows.new }
        ensures later { R.later rows.old rows.new }
        ensures walking { IsWalking f.now mode self.new }
        ensures seeds { seeds_of self.new ≡ seeds_of self.old }
        ensures served { AreServed f.now (G.has_seen graphs.now) (λ e. R.known rows.new e mode) self.new }
        ensures cause { IsCause f.now mode (seeds_of self.old) (G.has_seen graphs.now) (λ e. R.known rows.new e mode) result }
        ensures slice { WhenFinished result ((n : NodeId) → Contains (nodes_of self.new) n ↔ ModeSlice f.now mode (seeds_of self.old) n) }
        ensures fetched { WhenFinished result (IsAllFetched f.now mode (seeds_of self.old) (G.has_seen graphs.now) (λ e. R.known rows.new e mode)) }
    {
        let go = walk_up(f, graphs, rows, mode, &mut self.nodes, &mut self.next);
        if is_need(go) {
            return go;
        }
        self.ups = self.nodes.count;
        self.next = 0;
        self.phase = Phase::Down;
        self.go_down(f, graphs, rows, mode)
    }

    fn advance<G: SeenGraphs, R: KnownRows>(
        &mut self,
        f: &Facts,
        graphs: &G,
        rows: &mut R,
        mode: Mode,
    ) -> Go
        requires graphs { G.sound graphs.now }
        requires graph_facts { G.facts graphs.now ≡ f.now }
        requires rows { R.sound rows.old }
        requires row_facts { R.facts rows.old ≡ f.now }
        requires walking { IsWalking f.now mode self.old }
        requires served { AreServed f.now (G.has_seen graphs.now) (λ e. R.known rows.old e mode) self.old }
        ensures rows { R.sound rows.new }
        ensures later { R.later rows.old rows.new }
        ensures walking { IsWalking f.now mode self.new }
        ensures seeds { seeds_of self.new ≡ seeds_of self.old }
        ensures served { AreServed f.now (G.has_seen graphs.now) (λ e. R.known rows.new e mode) self.new }
        ensures cause { IsCause f.now mode (seeds_of self.old) (G.has_seen graphs.now) (λ e. R.known rows.new e mode) result }
        ensures slice { WhenFinished result ((n : NodeId) → Contains (nodes_of self.new) n ↔ ModeSlice f.now mode (seeds_of self.old) n) }
        ensures fetched { WhenFinished result (IsAllFetched f.now mode (seeds_of self.old) (G.has_seen graphs.now) (λ e. R.known rows.new e mode)) }
    {
        match self.phase {
            Phase::Up => self.go_up(f, graphs, rows, mode),
            Phase::Down => self.go_down(f, graphs, rows, mode),
        }
    }

    /// Goes on until the slice was found, or a graph or a row is missing. What it names is needed, and it is named once between two
    /// starts where what was named before was fetched and stays so. The mode is that of the calls before since the start. It takes
    /// no memory; it costs the nodes found and the edges that end in them, once in each phase.
    pub fn go<G: SeenGraphs, R: KnownRows>(
        &mut self,
        f: &Facts,
        graphs: &G,
        rows: &mut R,
        mode: Mode,
    ) -> Go
        requires graphs { G.sound graphs.now }
        requires graph_facts { G.facts graphs.now ≡ f.now }
        requires rows { R.sound rows.old }
        requires row_facts { R.facts rows.old ≡ f.now }
        requires walking { IsWalking f.now mode self.old }
        requires served { AreServed f.now (G.has_seen graphs.now) (λ e. R.known rows.old e mode) self.old }
        requires last { IsFetched (G.has_seen graphs.now) (λ e. R.known rows.old e mode) self.old.last }
        ensures rows { R.sound rows.new }
        ensures later { R.later rows.old rows.new }
        ensures walking { IsWalking f.now mode self.new }
        ensures seeds { seeds_of self.new ≡ seeds_of self.old }
        ensures served { AreServed f.now (G.has_seen graphs.now) (λ e. R.known rows.new e mode) self.new }
        ensures cause { IsCause f.now mode (seeds_of self.old) (G.has_seen graphs.now) (λ e. R.known rows.new e mode) result }
        ensures slice { WhenFinished result ((n : NodeId) → Contains (nodes_of self.new) n ↔ ModeSlice f.now mode (seeds_of self.old) n) }
        ensures fetched { WhenFinished result (IsAllFetched f.now mode (seeds_of self.old) (G.has_seen graphs.now) (λ e. R.known rows.new e mode)) }
        ensures last { self.new.last ≡ result }
    {
        let go = self.advance(f, graphs, rows, mode);
        self.last = go;
        go
    }

    /// Adds the exits that return to nodes that were found and not yet taken up in this phase, the next 4,096 of them, and whose rows
    /// aren't known, so that they can be fetched at once: the slice needs them all. Where the graph of a node's method wasn't seen the
    /// node is left out. An exit may be added more than once. It costs these nodes and the edges that end in them, and takes memory for
    /// what it adds alone.
    pub fn ahead<G: SeenGraphs, R: KnownRows>(
        &self,
        f: &Facts,
        graphs: &G,
        rows: &mut R,
        mode: Mode,
        into: &mut Vec<ExitId>,
    ) -> Result<(), NoMemory>
        requires walk { IsWalkOf f.now self.now }
        requires graphs { G.sound graphs.now }
        requires graph_facts { G.facts graphs.now ≡ f.now }
        requires sound { R.sound rows.old }
        requires facts { R.facts rows.old ≡ f.now }
        requires exits { (d : ExitId) → Contains into.old.items d → d.0 < length f.now.exits }
        ensures sound { R.sound rows.new }
        ensures later { R.later rows.old rows.new }
        ensures exits { OnOk result ((d : ExitId) → Contains into.new.items d → d.0 < length f.now.exits) }
    {
        let end = self.nodes.count.min(self.next.saturating_add(4096));
        for place in self.next..end {
            add_exits_at(f, graphs, rows, mode, self.nodes.at(place), into)?;
        }
        Ok(())
    }

    /// Whether the node was found. Once the walk is finished it is so exactly where the node is of the slice.
    pub fn has(&self, n: NodeId) -> bool
        requires { (f : Facts) × IsWalkOf f self.now × (n.0 < node_count f.inputs) }
        ensures { IsTrue result ↔ Contains (nodes_of self.now) n }
    {
        self.nodes.has(n)
    }
}
