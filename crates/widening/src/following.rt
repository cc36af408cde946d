// Path edges are taken up, and what follows from them is found.
ghost use Rattle.std.specs.Prelude.{◌≡◌, ◌<◌, ◌≤◌, ◌+◌, ◌^◌, ℕ, [], List, OnOk, Contains, count_ones, length};
ghost use Rattle.bit_rows.specs.Words.{AreWords, ones_of};
ghost use Rattle.slicer_ids.specs.declared.ids.NodeId.{NodeId};
ghost use Rattle.tabulate.specs.Frames.{count, method_of, width};
ghost use Rattle.tabulate.specs.Methods.{AreMethods};
ghost use Rattle.tabulate.specs.Found.{IsOpen, total};
ghost use Rattle.tabulate.specs.States.{IsTakenUp};
ghost use Rattle.widening.specs.Edges.{AreExpansions, Widened, IsOpened};
ghost use Rattle.widening.specs.Pairs.{ArePairs, AreWhole, IsDone, AreNeeded, KeepsMet, KeepsAsked, Has, Waits, IsFollowed, IsFollowedAgain, AreFollowedAgain};
ghost use Rattle.widening.specs.Counts.{AreTurns, AreWithin};

use crate::asking::ask_all;
use crate::edges::edges_into;
use crate::expansions::Expansions;
use crate::pairs::Pairs;
use bit_rows::rows::is_empty;
use dep_form::facts::Facts;
use dep_form::graphs::Graphs;
use dep_form::node::Edge;
use slicer_ids::ids::{ExitId, Mode, NoMemory, NodeId};
use slicer_ids::steps::Steps;
use std::alloc::Global;
use std::sync::ledger::Ledger;
use tabulate::found::{copy, is_open};
use tabulate::hands::Hands;
use tabulate::meeting::exits_of_returns;
use tabulate::method::{Method, find_method, owner};
use tabulate::tabulation::{follow_from, take_next};

// Buffers that are used again.
#[derive(Drop)]
struct Buffers {
    spare: Vec<u64>,
    edges: Vec<Edge>,
    exits: Vec<ExitId>,
}

// How many bits of a word are set.
fn count_word(word: u64) -> u64
    ensures is { result ≡ count_ones word }
    ensures low { result ≤ 64 }
{
    u64::from(word.count_ones())
}

// How many bits are set.
fn count_bits(words: &[u64]) -> u64
    requires { length words.now < 2 ^ 32 }
    ensures is { result ≡ ones_of words.now }
    ensures words { AreWords words.now }
{
    let mut count = 0;
    for word in words {
        let ones = count_word(*word);
        count += ones;
    }
    count
}

// Back over the edges that end in a node, for pairs of it that were taken up: first the exits that return there are asked for.
fn follow_node<G: Graphs, T: Ledger>(
    alloc: Global,
    f: &Facts,
    graphs: &mut G,
    expansions: &Expansions,
    n: NodeId,
    delta: &[u64],
    buffers: &mut Buffers,
    methods: &mut Vec<Option<Method>>,
    pairs: &mut Pairs,
    tally: &mut Steps<T>,
) -> Result<(), NoMemory>
    requires graphs { G.sound graphs.old × (G.facts graphs.old ≡ f.now) }
    requires expansions { AreExpansions f.now expansions.now }
    requires node { (n.0 < count f.now) × IsOpen f.now pairs.old.found.items (method_of f.now n.0) }
    requires delta { (length delta.now ≡ width f.now (method_of f.now n.0)) × IsTakenUp f.now pairs.old.found.items n delta.now }
    requires pairs { ArePairs f.now (Widened f.now expansions.now) methods.old.items pairs.old }
    ensures graphs { G.sound graphs.new × G.later graphs.old graphs.new }
    ensures methods { AreMethods f.now methods.new.items × KeepsMet methods.old.items methods.new.items }
    ensures followed { OnOk result (IsFollowed f.now (Widened f.now expansions.now) n delta.now methods.new.items pairs.old pairs.new tally.old tally.new) }
    ensures turns { tally.new + total pairs.old.found.items ≡ tally.old + total pairs.new.found.items }
{
    if is_empty(delta) {
        return Ok(());
    }
    let m = owner(f, n);
    edges_into(f, graphs, expansions, m, n, &mut buffers.edges)?;
    exits_of_returns(f, &buffers.edges, &mut buffers.exits)?;
    ask_all(
        alloc,
        f,
        graphs,
        expansions,
        &buffers.exits,
        methods,
        pairs,
        tally,
    )?;
    let hands = Hands::new(alloc);
    follow_from(
        f,
        Mode::Full,
        methods,
        &hands,
        m,
        n,
        delta,
        &buffers.edges,
        &mut buffers.spare,
        &mut pairs.found,
        &mut pairs.queue,
        tally,
    )?;
    Ok(())
}

/// Takes up all that waits, and what follows from it. One turn is taken for each pair.
pub fn run<G: Graphs, T: Ledger, L: Ledger>(
    alloc: Global,
    f: &Facts,
    graphs: &mut G,
    expansions: &Expansions,
    methods: &mut Vec<Option<Method>>,
    pairs: &mut Pairs,
    tally: &mut Steps<T>,
    steps: &mut Steps<L>,
) -> Result<(), NoMemory>
    requires graphs { G.sound graphs.old × (G.facts graphs.old ≡ f.now) }
    requires expansions { AreExpansions f.now expansions.now }
    requires pairs { ArePairs f.now (Widened f.now expansions.now) methods.old.items pairs.old }
    requires done { IsDone f.now (Widened f.now expansions.now) (Has f.now pairs.old) (Waits f.now pairs.old) }
    ensures graphs { G.sound graphs.new × G.later graphs.old graphs.new }
    ensures methods { AreMethods f.now methods.new.items × KeepsMet methods.old.items methods.new.items }
    ensures whole { OnOk result (AreWhole f.now (Widened f.now expansions.now) methods.new.items pairs.new) }
    ensures kept { OnOk result (KeepsAsked pairs.old.asked.items pairs.new.asked.items) }
    ensures needed { OnOk result ((seeds : List NodeId) → AreNeeded f.now (Widened f.now expansions.now) seeds pairs.old.asked.items → AreNeeded f.now (Widened f.now expansions.now) seeds pairs.new.asked.items) }
    ensures turns { OnOk result (AreTurns f.now pairs.old pairs.new steps.old steps.new) }
    ensures within { (seeds : List NodeId) → AreNeeded f.now (Widened f.now expansions.now) seeds pairs.old.asked.items → AreWithin f.now (IsOpened expansions.now) seeds pairs.old steps.old steps.new }
{
    let mut delta = Vec::new(alloc);
    let mut buffers = Buffers {
        spare: Vec::new(alloc),
        edges: Vec::new(alloc),
        exits: Vec::new(alloc),
    };
    while let Some(n) = take_next(f, methods, &mut pairs.found, &mut pairs.queue, &mut delta)? {
        steps.turns(count_bits(&delta));
        follow_node(
            alloc,
            f,
            graphs,
            expansions,
            n,
            &delta,
            &mut buffers,
            methods,
            pairs,
            tally,
        )?;
    }
    Ok(())
}

// The pairs of a node follow the edges that end there once more.
fn follow_again<G: Graphs, T: Ledger>(
    alloc: Global,
    f: &Facts,
    graphs: &mut G,
    expansions: &Expansions,
    n: NodeId,
    delta: &mut Vec<u64>,
    buffers: &mut Buffers,
    methods: &mut Vec<Option<Method>>,
    pairs: &mut Pairs,
    tally: &mut Steps<T>,
) -> Result<(), NoMemory>
    requires graphs { G.sound graphs.old × (G.facts graphs.old ≡ f.now) }
    requires expansions { AreExpansions f.now expansions.now }
    requires node { n.0 < count f.now }
    requires pairs { ArePairs f.now (Widened f.now expansions.now) methods.old.items pairs.old }
    ensures graphs { G.sound graphs.new × G.later graphs.old graphs.new }
    ensures methods { AreMethods f.now methods.new.items × KeepsMet methods.old.items methods.new.items }
    ensures followed { OnOk result (IsFollowedAgain f.now (Widened f.now expansions.now) n methods.new.items pairs.old pairs.new) }
{
    let Some(method) = find_method(f, methods, owner(f, n)) else {
        return Ok(());
    };
    if !is_open(f, method, &pairs.found) {
        return Ok(());
    }
    copy(f, method, n, &pairs.found, delta)?;
    follow_node(
        alloc, f, graphs, expansions, n, delta, buffers, methods, pairs, tally,
    )?;
    Ok(())
}

/// The pairs of some nodes follow the edges that end there once more. It costs these edges, and a row of words for each.
pub fn follow_all_again<G: Graphs, T: Ledger>(
    alloc: Global,
    f: &Facts,
    graphs: &mut G,
    expansions: &Expansions,
    nodes: &[NodeId],
    methods: &mut Vec<Option<Method>>,
    pairs: &mut Pairs,
    tally: &mut Steps<T>,
) -> Result<(), NoMemory>
    requires graphs { G.sound graphs.old × (G.facts graphs.old ≡ f.now) }
    requires expansions { AreExpansions f.now expansions.now }
    requires nodes { (n : NodeId) → Contains nodes.now n → n.0 < count f.now }
    requires pairs { ArePairs f.now (Widened f.now expansions.now) methods.old.items pairs.old }
    ensures graphs { G.sound graphs.new × G.later graphs.old graphs.new }
    ensures methods { AreMethods f.now methods.new.items × KeepsMet methods.old.items methods.new.items }
    ensures followed { OnOk result (AreFollowedAgain f.now (Widened f.now expansions.now) nodes.now methods.new.items pairs.old pairs.new) }
{
    let mut delta = Vec::new(alloc);
    let mut buffers = Buffers {
        spare: Vec::new(alloc),
        edges: Vec::new(alloc),
        exits: Vec::new(alloc),
    };
    for node in nodes {
        follow_again(
            alloc,
            f,
            graphs,
            expansions,
            *node,
            &mut delta,
            &mut buffers,
            methods,
            pairs,
            tally,
        )?;
    }
    Ok(())
}
