// What a widened slice keeps, and how it grows.
ghost use Rattle.std.specs.Prelude.{◌≡◌, ◌++◌, ◌⊎◌, List, IfOk, OnOk, Contains, length};
ghost use Rattle.slicer_ids.specs.declared.ids.NodeId.{NodeId};
ghost use Rattle.tabulate.specs.Methods.{AreMethods};
ghost use Rattle.thin_slice.specs.Marks.{AreNodesOf, found};
ghost use Rattle.worklists.specs.Growth.{Grows};
ghost use Rattle.widening.specs.Edges.{IsOpened};
ghost use Rattle.widening.specs.Pairs.{KeepsMet};
ghost use Rattle.widening.specs.Counts.{AreTurns, AreWithin};
ghost use Rattle.widening.specs.States.{IsSliced, IsGrowing, IsCopyOf, AreSameFound, IsSameMarked};

use crate::expansions::Expansions;
use crate::following::{follow_all_again, run};
use crate::marking::{add_nodes, mark};
use crate::pairs::Pairs;
use dep_form::facts::Facts;
use dep_form::graphs::Graphs;
use slicer_ids::ids::{NoMemory, NodeId};
use slicer_ids::steps::Steps;
use std::alloc::Global;
use std::collections::VecDeque;
use std::sync::ledger::Ledger;
use tabulate::found::Found;
use tabulate::method::Method;
use thin_slice::marked::MarkedNodes;
use thin_slice::needs::Phase;

/// The expanded accesses, the path edges, the nodes from which calls lead to a seed, and all nodes of the slice.
#[derive(Drop)]
pub struct State {
    pub expansions: Expansions,
    pub pairs: Pairs,
    pub up: MarkedNodes,
    pub down: MarkedNodes,
}

/// A copy of the items.
pub fn copied<T: Copy>(alloc: Global, items: &[T]) -> Result<Vec<T>, NoMemory>
    ensures { IfOk result (λ copy. copy.items ≡ items.now) }
{
    let copy: Vec<T> = items.iter().copied().collect(alloc)?;
    Ok(copy)
}

fn copy_found(alloc: Global, found: &Found) -> Result<Found, NoMemory>
    ensures { IfOk result (λ copy. (copy.got.items ≡ found.now.got.items) × (copy.todo.items ≡ found.now.todo.items) × (copy.waits.items ≡ found.now.waits.items)) }
{
    let got = copied(alloc, &found.got)?;
    let todo = copied(alloc, &found.todo)?;
    let waits = copied(alloc, &found.waits)?;
    Ok(Found { got, todo, waits })
}

fn copy_all_found(alloc: Global, found: &[Found]) -> Result<Vec<Found>, NoMemory>
    ensures { IfOk result (λ copy. AreSameFound found.now copy.items) }
{
    let mut copy = Vec::new(alloc);
    for one in found {
        let one = copy_found(alloc, one)?;
        copy.push(one)?;
    }
    Ok(copy)
}

fn copy_marked(alloc: Global, marked: &MarkedNodes) -> Result<MarkedNodes, NoMemory>
    ensures { IfOk result (IsSameMarked marked.now) }
{
    let marks = copied(alloc, &marked.marks)?;
    let order = copied(alloc, &marked.order)?;
    Ok(MarkedNodes {
        marks,
        order,
        count: marked.count,
    })
}

impl State {
    /// A copy, in which nothing waits.
    pub fn copy(&self, alloc: Global) -> Result<State, NoMemory>
        ensures { IfOk result (IsCopyOf self.now) }
    {
        let accesses = copied(alloc, &self.expansions.accesses)?;
        let marks = copied(alloc, &self.expansions.marks)?;
        let asked = copied(alloc, &self.pairs.asked)?;
        let found = copy_all_found(alloc, &self.pairs.found)?;
        let up = copy_marked(alloc, &self.up)?;
        let down = copy_marked(alloc, &self.down)?;
        let queue = VecDeque::new(alloc);
        Ok(State {
            expansions: Expansions { accesses, marks },
            pairs: Pairs {
                asked,
                found,
                queue,
            },
            up,
            down,
        })
    }
}

// Adds all nodes that were marked elsewhere.
fn add_marked(f: &Facts, others: &MarkedNodes, marks: &mut MarkedNodes)
    requires others { AreNodesOf f.now others.now }
    requires marks { AreNodesOf f.now marks.old }
    ensures marks { AreNodesOf f.now marks.new }
    ensures grown { Grows (found marks.old) (found marks.new) (Contains (found others.now)) }
{
    add_nodes(f, &others.order[..others.count], marks);
}

/// Grows to the whole slice, after base edges that end in the nodes came in. Steps back from the first `ups` nodes of the first
/// phase were taken before.
pub fn grow<G: Graphs, T: Ledger, L: Ledger>(
    alloc: Global,
    f: &Facts,
    graphs: &mut G,
    nodes: &[NodeId],
    ups: usize,
    methods: &mut Vec<Option<Method>>,
    state: &mut State,
    tally: &mut Steps<T>,
    steps: &mut Steps<L>,
) -> Result<(), NoMemory>
    requires graphs { G.sound graphs.old × (G.facts graphs.old ≡ f.now) }
    requires growing { (seeds : List NodeId) × IsGrowing f.now seeds nodes.now ups methods.old.items state.old }
    ensures graphs { G.sound graphs.new × G.later graphs.old graphs.new }
    ensures methods { AreMethods f.now methods.new.items × KeepsMet methods.old.items methods.new.items }
    ensures expansions { state.new.expansions ≡ state.old.expansions }
    ensures sliced { OnOk result ((seeds : List NodeId) → IsGrowing f.now seeds nodes.now ups methods.old.items state.old → IsSliced f.now seeds methods.new.items state.new) }
    ensures turns { OnOk result (AreTurns f.now state.old.pairs state.new.pairs steps.old steps.new) }
    ensures within { (seeds : List NodeId) → IsGrowing f.now seeds nodes.now ups methods.old.items state.old → AreWithin f.now (IsOpened state.old.expansions) seeds state.old.pairs steps.old steps.new }
{
    follow_all_again(
        alloc,
        f,
        graphs,
        &state.expansions,
        nodes,
        methods,
        &mut state.pairs,
        tally,
    )?;
    run(
        alloc,
        f,
        graphs,
        &state.expansions,
        methods,
        &mut state.pairs,
        tally,
        steps,
    )?;
    mark(
        alloc,
        f,
        graphs,
        &state.expansions,
        Phase::Up,
        nodes,
        ups,
        methods,
        &mut state.pairs,
        &mut state.up,
        tally,
        steps,
    )?;
    let downs = state.down.count;
    add_marked(f, &state.up, &mut state.down);
    mark(
        alloc,
        f,
        graphs,
        &state.expansions,
        Phase::Down,
        nodes,
        downs,
        methods,
        &mut state.pairs,
        &mut state.down,
        tally,
        steps,
    )?;
    Ok(())
}
