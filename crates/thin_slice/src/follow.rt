// A step back from a node.
ghost use Rattle.std.specs.Prelude.{◌≡◌, ◌<◌, All, MatchOption};
ghost use Rattle.slicer_ids.specs.declared.ids.MethodId.{MethodId};
ghost use Rattle.dep_form.specs.declared.node.Edge.{Edge};
ghost use Rattle.dep_form.specs.Firsts.{node_count};
ghost use Rattle.dep_form.specs.Graphs.{IsGraphIn};
ghost use Rattle.dep_form.specs.Inputs.{IsEdge};
ghost use Rattle.dep_form.specs.LookUps.{IsMethodOfNode};
ghost use Rattle.dep_form.specs.Slices.{ModeEdges};
ghost use Rattle.worklists.specs.Growth.{Grows, FromOne};
ghost use Rattle.thin_slice.specs.Marks.{AreNodesOf, found};
ghost use Rattle.thin_slice.specs.Steps.{AreInto, FollowsOne, PassesOver, GoesBack, Moves, is_full, is_up, may_follow};
ghost use Rattle.thin_slice.specs.Needs.{IsServed, IsServedEdge, IsNeedIn, IsStep};
ghost use Rattle.thin_slice.specs.declared.needs.Go.TheVariants.{Finished};
ghost use Rattle.thin_slice.specs.declared.needs.Phase.TheVariants.{Down};

use crate::asked::{KnownRows, SeenGraphs};
use crate::marked::MarkedNodes;
use crate::needs::{Go, Phase, graph_at, is_need, need_at, need_in};
use crate::over::{add_if, caller_of, edges_into, over};
use dep_form::facts::Facts;
use dep_form::graph::Graph;
use dep_form::node::{Edge, Label};
use slicer_ids::ids::{MethodId, Mode, NodeId};

fn is_full_mode(mode: Mode) -> bool
    ensures { result ≡ is_full mode }
{
    match mode {
        Mode::Thin => false,
        Mode::Full => true,
    }
}

fn is_up_phase(phase: Phase) -> bool
    ensures { result ≡ is_up phase }
{
    match phase {
        Phase::Up => true,
        Phase::Down => false,
    }
}

// Whether a walk goes back along an edge of the label: to callers in the one phase, into methods called in the other.
fn may_follow_label(mode: Mode, phase: Phase, label: Label) -> bool
    ensures { result ≡ may_follow mode phase label }
{
    match label {
        Label::Thin => true,
        Label::Base => is_full_mode(mode),
        Label::Call(_) => is_up_phase(phase),
        Label::Return(_) => !is_up_phase(phase),
    }
}

fn follow_one(f: &Facts, mode: Mode, phase: Phase, edge: Edge, nodes: &mut MarkedNodes)
    requires nodes { AreNodesOf f.now nodes.old }
    requires within { edge.from.0 < node_count f.now.inputs }
    ensures nodes { AreNodesOf f.now nodes.new }
    ensures grown { Grows (found nodes.old) (found nodes.new) (FollowsOne mode phase edge) }
{
    let holds = may_follow_label(mode, phase, edge.label);
    add_if(f, holds, edge.from, nodes);
}

/// Back along the edges.
pub fn follow_edges(f: &Facts, mode: Mode, phase: Phase, edges: &[Edge], nodes: &mut MarkedNodes)
    requires nodes { AreNodesOf f.now nodes.old }
    requires within { All (λ (e : Edge). e.from.0 < node_count f.now.inputs) edges.now }
    ensures nodes { AreNodesOf f.now nodes.new }
    ensures grown { Grows (found nodes.old) (found nodes.new) (FromOne (FollowsOne mode phase) edges.now) }
{
    for edge in edges {
        follow_one(f, mode, phase, *edge, nodes);
    }
}

// Back over the call whose return the edge is.
fn pass_one<G: SeenGraphs, R: KnownRows>(
    f: &Facts,
    graphs: &G,
    rows: &mut R,
    mode: Mode,
    edge: Edge,
    nodes: &mut MarkedNodes,
)
    requires nodes { AreNodesOf f.now nodes.old }
    requires graphs { G.sound graphs.now }
    requires graph_facts { G.facts graphs.now ≡ f.now }
    requires rows { R.sound rows.old }
    requires row_facts { R.facts rows.old ≡ f.now }
    requires edge { IsEdge f.now.inputs edge }
    requires served { IsServedEdge f.now (G.has_seen graphs.now) (λ e. R.known rows.old e mode) edge }
    ensures nodes { AreNodesOf f.now nodes.new }
    ensures rows { R.sound rows.new }
    ensures later { R.later rows.old rows.new }
    ensures grown { Grows (found nodes.old) (found nodes.new) (PassesOver (ModeEdges f.now.inputs mode) edge) }
{
    match edge.label {
        Label::Return(c) => {
            let caller = caller_of(f, c, edge.to);
            over(f, graphs, rows, mode, edge.from, caller, nodes);
        }
        Label::Thin => {}
        Label::Base => {}
        Label::Call(_) => {}
    }
}

// Back over the calls whose returns are among the edges.
fn pass_edges<G: SeenGraphs, R: KnownRows>(
    f: &Facts,
    graphs: &G,
    rows: &mut R,
    mode: Mode,
    edges: &[Edge],
    nodes: &mut MarkedNodes,
)
    requires nodes { AreNodesOf f.now nodes.old }
    requires graphs { G.sound graphs.now }
    requires graph_facts { G.facts graphs.now ≡ f.now }
    requires rows { R.sound rows.old }
    requires row_facts { R.facts rows.old ≡ f.now }
    requires edges { All (IsEdge f.now.inputs) edges.now }
    requires served { All (IsServedEdge f.now (G.has_seen graphs.now) (λ e. R.known rows.old e mode)) edges.now }
    ensures nodes { AreNodesOf f.now nodes.new }
    ensures rows { R.sound rows.new }
    ensures later { R.later rows.old rows.new }
    ensures grown { Grows (found nodes.old) (found nodes.new) (FromOne (PassesOver (ModeEdges f.now.inputs mode)) edges.now) }
{
    for edge in edges {
        pass_one(f, graphs, rows, mode, *edge, nodes);
    }
}

// Back from a node along all edges that end there, and over the calls that return to it.
fn follow<G: SeenGraphs, R: KnownRows>(
    f: &Facts,
    graphs: &G,
    rows: &mut R,
    mode: Mode,
    phase: Phase,
    n: NodeId,
    edges: &[Edge],
    nodes: &mut MarkedNodes,
)
    requires nodes { AreNodesOf f.now nodes.old }
    requires graphs { G.sound graphs.now }
    requires graph_facts { G.facts graphs.now ≡ f.now }
    requires rows { R.sound rows.old }
    requires row_facts { R.facts rows.old ≡ f.now }
    requires edges { AreInto f.now.inputs n edges.now }
    requires served { IsNeedIn f.now (G.has_seen graphs.now) (λ e. R.known rows.old e mode) edges.now Finished }
    ensures nodes { AreNodesOf f.now nodes.new }
    ensures rows { R.sound rows.new }
    ensures later { R.later rows.old rows.new }
    ensures grown { Grows (found nodes.old) (found nodes.new) (GoesBack (ModeEdges f.now.inputs mode) phase n) }
{
    follow_edges(f, mode, phase, edges, nodes);
    pass_edges(f, graphs, rows, mode, edges, nodes);
}

// .. where nothing is missing at the exits that return to it.
fn step_in<G: SeenGraphs, R: KnownRows>(
    f: &Facts,
    graphs: &G,
    graph: &Graph,
    rows: &mut R,
    mode: Mode,
    phase: Phase,
    n: NodeId,
    nodes: &mut MarkedNodes,
) -> Go
    requires nodes { AreNodesOf f.now nodes.old }
    requires graphs { G.sound graphs.now }
    requires graph_facts { G.facts graphs.now ≡ f.now }
    requires rows { R.sound rows.old }
    requires row_facts { R.facts rows.old ≡ f.now }
    requires graph { (m : MethodId) × IsMethodOfNode f.now.inputs n m × IsGraphIn f.now.inputs m graph.now }
    requires served { IsServed f.now (G.has_seen graphs.now) (λ e. R.known rows.old e mode) n }
    ensures nodes { AreNodesOf f.now nodes.new }
    ensures rows { R.sound rows.new }
    ensures later { R.later rows.old rows.new }
    ensures step { IsStep f.now (G.has_seen graphs.now) (λ e. R.known rows.new e mode) (ModeEdges f.now.inputs mode) (GoesBack (ModeEdges f.now.inputs mode) phase n) n result (found nodes.old) (found nodes.new) }
{
    let edges = edges_into(f, graph, n);
    let need = need_in(f, graphs, rows, mode, edges);
    if is_need(need) {
        return need;
    }
    follow(f, graphs, rows, mode, phase, n, edges, nodes);
    Go::Finished
}

// A step back from a node, where nothing is missing at it.
fn step_at<G: SeenGraphs, R: KnownRows>(
    f: &Facts,
    graphs: &G,
    rows: &mut R,
    mode: Mode,
    phase: Phase,
    n: NodeId,
    nodes: &mut MarkedNodes,
) -> Go
    requires nodes { AreNodesOf f.now nodes.old }
    requires within { n.0 < node_count f.now.inputs }
    requires graphs { G.sound graphs.now }
    requires graph_facts { G.facts graphs.now ≡ f.now }
    requires rows { R.sound rows.old }
    requires row_facts { R.facts rows.old ≡ f.now }
    requires served { IsServed f.now (G.has_seen graphs.now) (λ e. R.known rows.old e mode) n }
    ensures nodes { AreNodesOf f.now nodes.new }
    ensures rows { R.sound rows.new }
    ensures later { R.later rows.old rows.new }
    ensures step { IsStep f.now (G.has_seen graphs.now) (λ e. R.known rows.new e mode) (ModeEdges f.now.inputs mode) (GoesBack (ModeEdges f.now.inputs mode) phase n) n result (found nodes.old) (found nodes.new) }
{
    match graph_at(f, graphs, n) {
        Ok(graph) => step_in(f, graphs, graph, rows, mode, phase, n, nodes),
        Err(m) => Go::NeedsGraph(m),
    }
}

/// A step back from a node, or what is missing for it: nothing was added then.
pub fn step<G: SeenGraphs, R: KnownRows>(
    f: &Facts,
    graphs: &G,
    rows: &mut R,
    mode: Mode,
    phase: Phase,
    n: NodeId,
    nodes: &mut MarkedNodes,
) -> Go
    requires nodes { AreNodesOf f.now nodes.old }
    requires within { n.0 < node_count f.now.inputs }
    requires graphs { G.sound graphs.now }
    requires graph_facts { G.facts graphs.now ≡ f.now }
    requires rows { R.sound rows.old }
    requires row_facts { R.facts rows.old ≡ f.now }
    ensures nodes { AreNodesOf f.now nodes.new }
    ensures rows { R.sound rows.new }
    ensures later { R.later rows.old rows.new }
    ensures step { IsStep f.now (G.has_seen graphs.now) (λ e. R.known rows.new e mode) (ModeEdges f.now.inputs mode) (GoesBack (ModeEdges f.now.inputs mode) phase n) n result (found nodes.old) (found nodes.new) }
{
    let need = need_at(f, graphs, rows, mode, n);
    if is_need(need) {
        return need;
    }
    step_at(f, graphs, rows, mode, phase, n, nodes)
}

// Down from a node of the first phase along the edges that end there.
fn move_down(f: &Facts, graph: &Graph, mode: Mode, n: NodeId, nodes: &mut MarkedNodes)
    requires nodes { AreNodesOf f.now nodes.old }
    requires graph { (m : MethodId) × IsMethodOfNode f.now.inputs n m × IsGraphIn f.now.inputs m graph.now }
    ensures nodes { AreNodesOf f.now nodes.new }
    ensures grown { Grows (found nodes.old) (found nodes.new) (Moves (ModeEdges f.now.inputs mode) Down n) }
{
    let edges = edges_into(f, graph, n);
    follow_edges(f, mode, Phase::Down, edges, nodes);
}

/// A step down from a node of the first phase, from which the calls that return to it were gone over.
pub fn step_again<G: SeenGraphs>(
    f: &Facts,
    graphs: &G,
    mode: Mode,
    n: NodeId,
    nodes: &mut MarkedNodes,
) -> Option<MethodId>
    requires nodes { AreNodesOf f.now nodes.old }
    requires within { n.0 < node_count f.now.inputs }
    requires graphs { G.sound graphs.now }
    requires graph_facts { G.facts graphs.now ≡ f.now }
    ensures nodes { AreNodesOf f.now nodes.new }
    ensures step { MatchOption result (Grows (found nodes.old) (found nodes.new) (Moves (ModeEdges f.now.inputs mode) Down n)) (λ m. (found nodes.new ≡ found nodes.old) × IsMethodOfNode f.now.inputs n m × (G.has_seen graphs.now m → ⊥)) }
{
    match graph_at(f, graphs, n) {
        Ok(graph) => {
            move_down(f, graph, mode, n, nodes);
            None
        }
        Err(m) => Some(m),
    }
}
