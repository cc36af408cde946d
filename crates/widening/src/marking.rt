// The nodes of a slice are marked, phase by phase.
ghost use Rattle.std.specs.Prelude.{◌≡◌, ◌<◌, ◌≤◌, ◌++◌, List, OnOk, Contains, length};
ghost use Rattle.slicer_ids.specs.declared.ids.NodeId.{NodeId};
ghost use Rattle.dep_form.specs.Paths.{IsInSlice};
ghost use Rattle.tabulate.specs.Frames.{count};
ghost use Rattle.tabulate.specs.Methods.{AreMethods};
ghost use Rattle.thin_slice.specs.Marks.{AreNodesOf, found};
ghost use Rattle.thin_slice.specs.Steps.{GoesBack};
ghost use Rattle.worklists.specs.Growth.{Grows};
ghost use Rattle.widening.specs.Edges.{AreExpansions, AreInto, Widened, IsOpened};
ghost use Rattle.widening.specs.Pairs.{AreWhole, AreNeeded, KeepsMet, KeepsAsked};
ghost use Rattle.widening.specs.Counts.{AreTurns, AreWithin};
ghost use Rattle.widening.specs.Marks.{Leads, AreLeading, IsAsked, IsMarking, IsBegun, AreStepped, IsOver};

use crate::asking::ask_all;
use crate::edges::{edges_into, exits_near};
use crate::expansions::Expansions;
use crate::following::run;
use crate::pairs::Pairs;
use crate::passing::{pass_again, pass_edges};
use dep_form::facts::Facts;
use dep_form::graphs::Graphs;
use dep_form::node::Edge;
use slicer_ids::ids::{ExitId, Mode, NoMemory, NodeId};
use slicer_ids::steps::Steps;
use std::alloc::Global;
use std::sync::ledger::Ledger;
use tabulate::meeting::meet_method;
use tabulate::method::{Method, owner};
use thin_slice::follow::follow_edges;
use thin_slice::marked::MarkedNodes;
use thin_slice::needs::Phase;

// Buffers that are used again.
#[derive(Drop)]
struct Room {
    edges: Vec<Edge>,
    exits: Vec<ExitId>,
    nodes: Vec<NodeId>,
}

// Asks for what a step back from a node needs: the exits that return there, and the one whose node it is.
fn prepare<G: Graphs, T: Ledger, L: Ledger>(
    alloc: Global,
    f: &Facts,
    graphs: &mut G,
    expansions: &Expansions,
    n: NodeId,
    room: &mut Room,
    methods: &mut Vec<Option<Method>>,
    pairs: &mut Pairs,
    tally: &mut Steps<T>,
    steps: &mut Steps<L>,
) -> Result<(), NoMemory>
    requires graphs { G.sound graphs.old × (G.facts graphs.old ≡ f.now) }
    requires expansions { AreExpansions f.now expansions.now }
    requires node { n.0 < count f.now }
    requires whole { AreWhole f.now (Widened f.now expansions.now) methods.old.items pairs.old }
    ensures graphs { G.sound graphs.new × G.later graphs.old graphs.new }
    ensures methods { AreMethods f.now methods.new.items × KeepsMet methods.old.items methods.new.items }
    ensures edges { OnOk result (AreInto (Widened f.now expansions.now) n room.new.edges.items) }
    ensures whole { OnOk result (AreWhole f.now (Widened f.now expansions.now) methods.new.items pairs.new) }
    ensures kept { OnOk result (KeepsAsked pairs.old.asked.items pairs.new.asked.items) }
    ensures served { OnOk result (IsAsked f.now (Widened f.now expansions.now) methods.new.items pairs.new.asked.items n) }
    ensures needed { OnOk result ((seeds : List NodeId) → IsInSlice (Widened f.now expansions.now) (Contains seeds) n → AreNeeded f.now (Widened f.now expansions.now) seeds pairs.old.asked.items → AreNeeded f.now (Widened f.now expansions.now) seeds pairs.new.asked.items) }
    ensures turns { OnOk result (AreTurns f.now pairs.old pairs.new steps.old steps.new) }
    ensures within { (seeds : List NodeId) → IsInSlice (Widened f.now expansions.now) (Contains seeds) n → AreNeeded f.now (Widened f.now expansions.now) seeds pairs.old.asked.items → AreWithin f.now (IsOpened expansions.now) seeds pairs.old steps.old steps.new }
{
    let m = owner(f, n);
    meet_method(alloc, f, graphs, m, methods)?;
    edges_into(f, graphs, expansions, m, n, &mut room.edges)?;
    exits_near(f, n, &room.edges, &mut room.exits)?;
    ask_all(
        alloc,
        f,
        graphs,
        expansions,
        &room.exits,
        methods,
        pairs,
        tally,
    )?;
    run(alloc, f, graphs, expansions, methods, pairs, tally, steps)?;
    Ok(())
}

/// Adds all of the nodes.
pub fn add_nodes(f: &Facts, nodes: &[NodeId], marks: &mut MarkedNodes)
    requires nodes { (n : NodeId) → Contains nodes.now n → n.0 < count f.now }
    requires marks { AreNodesOf f.now marks.old }
    ensures marks { AreNodesOf f.now marks.new }
    ensures grown { Grows (found marks.old) (found marks.new) (Contains nodes.now) }
{
    for node in nodes {
        marks.add(*node);
    }
}

// Marks what a step back from a node leads to, after it was prepared.
fn mark_back(
    f: &Facts,
    expansions: &Expansions,
    phase: Phase,
    n: NodeId,
    methods: &Vec<Option<Method>>,
    pairs: &Pairs,
    room: &mut Room,
    marks: &mut MarkedNodes,
) -> Result<(), NoMemory>
    requires edges { AreInto (Widened f.now expansions.now) n room.old.edges.items }
    requires whole { AreWhole f.now (Widened f.now expansions.now) methods.now.items pairs.now }
    requires served { IsAsked f.now (Widened f.now expansions.now) methods.now.items pairs.now.asked.items n }
    requires marks { AreNodesOf f.now marks.old }
    ensures marks { OnOk result (AreNodesOf f.now marks.new) }
    ensures grown { OnOk result (Grows (found marks.old) (found marks.new) (GoesBack (Widened f.now expansions.now) phase n)) }
{
    room.nodes.clear();
    pass_edges(f, methods, &pairs.found, &room.edges, &mut room.nodes)?;
    follow_edges(f, Mode::Full, phase, &room.edges, marks);
    add_nodes(f, &room.nodes, marks);
    Ok(())
}

// A step back from a node.
fn step_back<G: Graphs, T: Ledger, L: Ledger>(
    alloc: Global,
    f: &Facts,
    graphs: &mut G,
    expansions: &Expansions,
    phase: Phase,
    n: NodeId,
    room: &mut Room,
    methods: &mut Vec<Option<Method>>,
    pairs: &mut Pairs,
    marks: &mut MarkedNodes,
    tally: &mut Steps<T>,
    steps: &mut Steps<L>,
) -> Result<(), NoMemory>
    requires graphs { G.sound graphs.old × (G.facts graphs.old ≡ f.now) }
    requires expansions { AreExpansions f.now expansions.now }
    requires node { n.0 < count f.now }
    requires whole { AreWhole f.now (Widened f.now expansions.now) methods.old.items pairs.old }
    requires marks { AreNodesOf f.now marks.old }
    ensures graphs { G.sound graphs.new × G.later graphs.old graphs.new }
    ensures methods { AreMethods f.now methods.new.items × KeepsMet methods.old.items methods.new.items }
    ensures whole { OnOk result (AreWhole f.now (Widened f.now expansions.now) methods.new.items pairs.new) }
    ensures kept { OnOk result (KeepsAsked pairs.old.asked.items pairs.new.asked.items) }
    ensures served { OnOk result (IsAsked f.now (Widened f.now expansions.now) methods.new.items pairs.new.asked.items n) }
    ensures needed { OnOk result ((seeds : List NodeId) → Leads (Widened f.now expansions.now) seeds phase n → AreNeeded f.now (Widened f.now expansions.now) seeds pairs.old.asked.items → AreNeeded f.now (Widened f.now expansions.now) seeds pairs.new.asked.items) }
    ensures turns { OnOk result (AreTurns f.now pairs.old pairs.new steps.old steps.new) }
    ensures within { (seeds : List NodeId) → Leads (Widened f.now expansions.now) seeds phase n → AreNeeded f.now (Widened f.now expansions.now) seeds pairs.old.asked.items → AreWithin f.now (IsOpened expansions.now) seeds pairs.old steps.old steps.new }
    ensures marks { OnOk result (AreNodesOf f.now marks.new) }
    ensures grown { OnOk result (Grows (found marks.old) (found marks.new) (GoesBack (Widened f.now expansions.now) phase n)) }
{
    prepare(
        alloc, f, graphs, expansions, n, room, methods, pairs, tally, steps,
    )?;
    mark_back(f, expansions, phase, n, methods, pairs, room, marks)?;
    Ok(())
}

// A step back from a node, if it is marked.
fn step_if_marked<G: Graphs, T: Ledger, L: Ledger>(
    alloc: Global,
    f: &Facts,
    graphs: &mut G,
    expansions: &Expansions,
    phase: Phase,
    n: NodeId,
    room: &mut Room,
    methods: &mut Vec<Option<Method>>,
    pairs: &mut Pairs,
    marks: &mut MarkedNodes,
    tally: &mut Steps<T>,
    steps: &mut Steps<L>,
) -> Result<(), NoMemory>
    requires graphs { G.sound graphs.old × (G.facts graphs.old ≡ f.now) }
    requires expansions { AreExpansions f.now expansions.now }
    requires node { n.0 < count f.now }
    requires whole { AreWhole f.now (Widened f.now expansions.now) methods.old.items pairs.old }
    requires marks { AreNodesOf f.now marks.old }
    ensures graphs { G.sound graphs.new × G.later graphs.old graphs.new }
    ensures methods { AreMethods f.now methods.new.items × KeepsMet methods.old.items methods.new.items }
    ensures whole { OnOk result (AreWhole f.now (Widened f.now expansions.now) methods.new.items pairs.new) }
    ensures kept { OnOk result (KeepsAsked pairs.old.asked.items pairs.new.asked.items) }
    ensures needed { OnOk result ((seeds : List NodeId) → AreLeading (Widened f.now expansions.now) seeds phase (found marks.old) → AreNeeded f.now (Widened f.now expansions.now) seeds pairs.old.asked.items → AreNeeded f.now (Widened f.now expansions.now) seeds pairs.new.asked.items) }
    ensures turns { OnOk result (AreTurns f.now pairs.old pairs.new steps.old steps.new) }
    ensures within { (seeds : List NodeId) → AreLeading (Widened f.now expansions.now) seeds phase (found marks.old) → AreNeeded f.now (Widened f.now expansions.now) seeds pairs.old.asked.items → AreWithin f.now (IsOpened expansions.now) seeds pairs.old steps.old steps.new }
    ensures marks { OnOk result (AreNodesOf f.now marks.new) }
    ensures leading { OnOk result ((seeds : List NodeId) → AreLeading (Widened f.now expansions.now) seeds phase (found marks.old) → AreLeading (Widened f.now expansions.now) seeds phase (found marks.new)) }
    ensures front { OnOk result ((more : List NodeId) × (found marks.new ≡ found marks.old ++ more)) }
    ensures steps { OnOk result ((q : NodeId) → Contains (found marks.old) n → GoesBack (Widened f.now expansions.now) phase n q → Contains (found marks.new) q) }
{
    if !marks.has(n) {
        return Ok(());
    }
    step_back(
        alloc, f, graphs, expansions, phase, n, room, methods, pairs, marks, tally, steps,
    )?;
    Ok(())
}

// Steps back from those of some nodes that are marked.
fn step_again<G: Graphs, T: Ledger, L: Ledger>(
    alloc: Global,
    f: &Facts,
    graphs: &mut G,
    expansions: &Expansions,
    phase: Phase,
    nodes: &[NodeId],
    room: &mut Room,
    methods: &mut Vec<Option<Method>>,
    pairs: &mut Pairs,
    marks: &mut MarkedNodes,
    tally: &mut Steps<T>,
    steps: &mut Steps<L>,
) -> Result<(), NoMemory>
    requires graphs { G.sound graphs.old × (G.facts graphs.old ≡ f.now) }
    requires expansions { AreExpansions f.now expansions.now }
    requires nodes { (n : NodeId) → Contains nodes.now n → n.0 < count f.now }
    requires whole { AreWhole f.now (Widened f.now expansions.now) methods.old.items pairs.old }
    requires marks { AreNodesOf f.now marks.old }
    ensures graphs { G.sound graphs.new × G.later graphs.old graphs.new }
    ensures methods { AreMethods f.now methods.new.items × KeepsMet methods.old.items methods.new.items }
    ensures whole { OnOk result (AreWhole f.now (Widened f.now expansions.now) methods.new.items pairs.new) }
    ensures kept { OnOk result (KeepsAsked pairs.old.asked.items pairs.new.asked.items) }
    ensures needed { OnOk result ((seeds : List NodeId) → AreLeading (Widened f.now expansions.now) seeds phase (found marks.old) → AreNeeded f.now (Widened f.now expansions.now) seeds pairs.old.asked.items → AreNeeded f.now (Widened f.now expansions.now) seeds pairs.new.asked.items) }
    ensures turns { OnOk result (AreTurns f.now pairs.old pairs.new steps.old steps.new) }
    ensures within { (seeds : List NodeId) → AreLeading (Widened f.now expansions.now) seeds phase (found marks.old) → AreNeeded f.now (Widened f.now expansions.now) seeds pairs.old.asked.items → AreWithin f.now (IsOpened expansions.now) seeds pairs.old steps.old steps.new }
    ensures marks { OnOk result (AreNodesOf f.now marks.new) }
    ensures leading { OnOk result ((seeds : List NodeId) → AreLeading (Widened f.now expansions.now) seeds phase (found marks.old) → AreLeading (Widened f.now expansions.now) seeds phase (found marks.new)) }
    ensures stepped { OnOk result (AreStepped (Widened f.now expansions.now) phase nodes.now (found marks.old) (found marks.new)) }
{
    for node in nodes {
        step_if_marked(
            alloc, f, graphs, expansions, phase, *node, room, methods, pairs, marks, tally, steps,
        )?;
    }
    Ok(())
}

// Marks what lies over calls whose returns lead to marked nodes.
fn mark_over(
    f: &Facts,
    expansions: &Expansions,
    methods: &Vec<Option<Method>>,
    pairs: &Pairs,
    nodes: &mut Vec<NodeId>,
    marks: &mut MarkedNodes,
) -> Result<(), NoMemory>
    requires whole { AreWhole f.now (Widened f.now expansions.now) methods.now.items pairs.now }
    requires marks { AreNodesOf f.now marks.old }
    ensures marks { OnOk result (AreNodesOf f.now marks.new) }
    ensures grown { OnOk result (Grows (found marks.old) (found marks.new) (IsOver f.now methods.now.items pairs.now.found.items (found marks.old))) }
{
    nodes.clear();
    pass_again(f, methods, &pairs.found, marks, nodes)?;
    add_nodes(f, nodes, marks);
    Ok(())
}

// Steps back from the marked nodes at place `taken` on, and from those that are marked on the way.
fn walk<G: Graphs, T: Ledger, L: Ledger>(
    alloc: Global,
    f: &Facts,
    graphs: &mut G,
    expansions: &Expansions,
    phase: Phase,
    taken: usize,
    room: &mut Room,
    methods: &mut Vec<Option<Method>>,
    pairs: &mut Pairs,
    marks: &mut MarkedNodes,
    tally: &mut Steps<T>,
    steps: &mut Steps<L>,
) -> Result<(), NoMemory>
    requires graphs { G.sound graphs.old × (G.facts graphs.old ≡ f.now) }
    requires expansions { AreExpansions f.now expansions.now }
    requires whole { AreWhole f.now (Widened f.now expansions.now) methods.old.items pairs.old }
    requires marks { AreNodesOf f.now marks.old }
    requires marking { IsMarking f.now (Widened f.now expansions.now) phase methods.old.items pairs.old.asked.items taken (found marks.old) }
    ensures graphs { G.sound graphs.new × G.later graphs.old graphs.new }
    ensures methods { AreMethods f.now methods.new.items × KeepsMet methods.old.items methods.new.items }
    ensures whole { OnOk result (AreWhole f.now (Widened f.now expansions.now) methods.new.items pairs.new) }
    ensures kept { OnOk result (KeepsAsked pairs.old.asked.items pairs.new.asked.items) }
    ensures needed { OnOk result ((seeds : List NodeId) → AreLeading (Widened f.now expansions.now) seeds phase (found marks.old) → AreNeeded f.now (Widened f.now expansions.now) seeds pairs.old.asked.items → AreNeeded f.now (Widened f.now expansions.now) seeds pairs.new.asked.items) }
    ensures turns { OnOk result (AreTurns f.now pairs.old pairs.new steps.old steps.new) }
    ensures within { (seeds : List NodeId) → AreLeading (Widened f.now expansions.now) seeds phase (found marks.old) → AreNeeded f.now (Widened f.now expansions.now) seeds pairs.old.asked.items → AreWithin f.now (IsOpened expansions.now) seeds pairs.old steps.old steps.new }
    ensures marks { OnOk result (AreNodesOf f.now marks.new) }
    ensures leading { OnOk result ((seeds : List NodeId) → AreLeading (Widened f.now expansions.now) seeds phase (found marks.old) → AreLeading (Widened f.now expansions.now) seeds phase (found marks.new)) }
    ensures front { OnOk result ((more : List NodeId) × (found marks.new ≡ found marks.old ++ more)) }
    ensures marking { OnOk result (IsMarking f.now (Widened f.now expansions.now) phase methods.new.items pairs.new.asked.items (length (found marks.new)) (found marks.new)) }
{
    let mut next = taken;
    while next < marks.count {
        let n = marks.at(next);
        step_back(
            alloc, f, graphs, expansions, phase, n, room, methods, pairs, marks, tally, steps,
        )?;
        next += 1;
    }
    Ok(())
}

/// Marks on in a phase. Steps back from the first `taken` nodes were taken before, but for those along base edges that end in the
/// nodes, which came in since, and over calls.
pub fn mark<G: Graphs, T: Ledger, L: Ledger>(
    alloc: Global,
    f: &Facts,
    graphs: &mut G,
    expansions: &Expansions,
    phase: Phase,
    nodes: &[NodeId],
    taken: usize,
    methods: &mut Vec<Option<Method>>,
    pairs: &mut Pairs,
    marks: &mut MarkedNodes,
    tally: &mut Steps<T>,
    steps: &mut Steps<L>,
) -> Result<(), NoMemory>
    requires graphs { G.sound graphs.old × (G.facts graphs.old ≡ f.now) }
    requires expansions { AreExpansions f.now expansions.now }
    requires nodes { (n : NodeId) → Contains nodes.now n → n.0 < count f.now }
    requires whole { AreWhole f.now (Widened f.now expansions.now) methods.old.items pairs.old }
    requires marks { AreNodesOf f.now marks.old }
    requires begun { IsBegun f.now (Widened f.now expansions.now) phase nodes.now methods.old.items pairs.old.asked.items taken (found marks.old) }
    ensures graphs { G.sound graphs.new × G.later graphs.old graphs.new }
    ensures methods { AreMethods f.now methods.new.items × KeepsMet methods.old.items methods.new.items }
    ensures whole { OnOk result (AreWhole f.now (Widened f.now expansions.now) methods.new.items pairs.new) }
    ensures kept { OnOk result (KeepsAsked pairs.old.asked.items pairs.new.asked.items) }
    ensures needed { OnOk result ((seeds : List NodeId) → AreLeading (Widened f.now expansions.now) seeds phase (found marks.old) → AreNeeded f.now (Widened f.now expansions.now) seeds pairs.old.asked.items → AreNeeded f.now (Widened f.now expansions.now) seeds pairs.new.asked.items) }
    ensures turns { OnOk result (AreTurns f.now pairs.old pairs.new steps.old steps.new) }
    ensures within { (seeds : List NodeId) → AreLeading (Widened f.now expansions.now) seeds phase (found marks.old) → AreNeeded f.now (Widened f.now expansions.now) seeds pairs.old.asked.items → AreWithin f.now (IsOpened expansions.now) seeds pairs.old steps.old steps.new }
    ensures marks { OnOk result (AreNodesOf f.now marks.new) }
    ensures leading { OnOk result ((seeds : List NodeId) → AreLeading (Widened f.now expansions.now) seeds phase (found marks.old) → AreLeading (Widened f.now expansions.now) seeds phase (found marks.new)) }
    ensures front { OnOk result ((more : List NodeId) × (found marks.new ≡ found marks.old ++ more)) }
    ensures marking { OnOk result (IsMarking f.now (Widened f.now expansions.now) phase methods.new.items pairs.new.asked.items (length (found marks.new)) (found marks.new)) }
{
    let mut room = Room {
        edges: Vec::new(alloc),
        exits: Vec::new(alloc),
        nodes: Vec::new(alloc),
    };
    step_again(
        alloc, f, graphs, expansions, phase, nodes, &mut room, methods, pairs, marks, tally, steps,
    )?;
    mark_over(f, expansions, methods, pairs, &mut room.nodes, marks)?;
    walk(
        alloc, f, graphs, expansions, phase, taken, &mut room, methods, pairs, marks, tally, steps,
    )?;
    Ok(())
}
