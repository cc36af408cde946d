// Back over a whole call, from an exit of the method called to the arguments of that call.
ghost use Rattle.std.specs.Prelude.{◌≡◌, ◌<◌, ◌≤◌, ◌↔◌, IsTrue, All, true, length, slice_get, Some};
ghost use Rattle.std.specs.Int.{bit_at};
ghost use Rattle.std.specs.List.Sorted.{IsNonDecreasingBy, IsPartitionPoint};
ghost use Rattle.slicer_ids.specs.declared.ids.MethodId.{MethodId};
ghost use Rattle.slicer_ids.specs.declared.ids.NodeId.{NodeId};
ghost use Rattle.dep_form.specs.declared.node.Edge.{Edge};
ghost use Rattle.dep_form.specs.declared.node.Label.TheVariants.{Call, Return};
ghost use Rattle.dep_form.specs.Firsts.{node_count};
ghost use Rattle.dep_form.specs.Graphs.{IsGraphIn};
ghost use Rattle.dep_form.specs.Inputs.{IsEdge};
ghost use Rattle.dep_form.specs.LookUps.{IsMethodOfNode};
ghost use Rattle.dep_form.specs.Phases.{edge};
ghost use Rattle.dep_form.specs.Slices.{ModeEdges};
ghost use Rattle.dep_form.specs.Summaries.{IsExitAt};
ghost use Rattle.worklists.specs.Growth.{Grows};
ghost use Rattle.thin_slice.specs.Marks.{AreNodesOf, found};
ghost use Rattle.thin_slice.specs.Steps.{AreInto, PassesBy, StartsCall, StartsBefore};
ghost use Rattle.thin_slice.specs.Needs.{IsServed};
ghost use Rattle.thin_slice.specs.Over.{node_at, AreCallers, CallsInto, IsCallee, IsCalleeAt, ByWord, ByRow};

use crate::asked::{KnownRows, SeenGraphs};
use crate::marked::MarkedNodes;
use crate::needs::{graph_at, method_at};
use dep_form::facts::Facts;
use dep_form::graph::Graph;
use dep_form::node::{Edge, Label};
use slicer_ids::ids::{CallId, ExitId, Mode, NodeId};

/// A call, and the nodes of the method that calls: those from `first` on and before `end`.
#[derive(Clone, Copy)]
pub struct Caller {
    pub call: CallId,
    pub first: u32,
    pub end: u32,
}

/// The call with a return edge into n.
pub fn caller_of(f: &Facts, c: CallId, n: NodeId) -> Caller
    requires { (x : NodeId) × IsEdge f.now.inputs (edge x (Return c) n) }
    ensures call { result.call ≡ c }
    ensures callers { AreCallers f.now result }
{
    let m = method_at(f, n);
    let input = f.input(m);
    let nodes = input.nodes.items();
    Caller {
        call: c,
        first: input.first.0,
        end: input.first.0 + nodes.len() as u32,
    }
}

// How many of the edges, which rise by where they start, start before a node.
fn count_before(edges: &[Edge], end: u32) -> usize
    requires { IsNonDecreasingBy (λ (e : Edge). e.from.0) edges.now }
    ensures bound { result ≤ length edges.now }
    ensures point { IsPartitionPoint (λ (e : Edge). e.from.0 < end) (λ (e : Edge). end ≤ e.from.0) edges.now result }
{
    edges.partition_point(|edge| edge.from.0 < end)
}

fn edge_at(edges: &[Edge], k: usize) -> Edge
    requires { k < length edges.now }
    ensures { slice_get edges.now k ≡ Some result }
{
    edges[k]
}

/// The edges that end in a node of the graph's method.
pub fn edges_into<'a>(f: &Facts, graph: &'a Graph, n: NodeId) -> &'a [Edge]
    requires { (m : MethodId) × IsMethodOfNode f.now.inputs n m × IsGraphIn f.now.inputs m graph.now }
    ensures into { AreInto f.now.inputs n result.now }
    ensures rise { IsNonDecreasingBy (λ (e : Edge). e.from.0) result.now }
{
    graph.incoming(n)
}

// Adds a node where a test holds.
pub fn add_if(f: &Facts, holds: bool, n: NodeId, nodes: &mut MarkedNodes)
    requires nodes { AreNodesOf f.now nodes.old }
    requires within { n.0 < node_count f.now.inputs }
    ensures nodes { AreNodesOf f.now nodes.new }
    ensures grown { Grows (found nodes.old) (found nodes.new) (λ q. (holds ≡ true) × (q ≡ n)) }
{
    if holds {
        nodes.add(n);
    }
}

// Whether it is the label of the call.
fn is_call(label: Label, c: CallId) -> bool
    ensures { IsTrue result ↔ (label ≡ Call c) }
{
    match label {
        Label::Call(d) => d == c,
        Label::Thin => false,
        Label::Base => false,
        Label::Return(_) => false,
    }
}

fn start_one(f: &Facts, edge: Edge, c: CallId, nodes: &mut MarkedNodes)
    requires nodes { AreNodesOf f.now nodes.old }
    requires within { edge.from.0 < node_count f.now.inputs }
    ensures nodes { AreNodesOf f.now nodes.new }
    ensures grown { Grows (found nodes.old) (found nodes.new) (StartsCall c edge) }
{
    let holds = is_call(edge.label, c);
    add_if(f, holds, edge.from, nodes);
}

// The starts of the edges of a call, among the edges from place `low` on and before place `high`.
fn starts(f: &Facts, edges: &[Edge], low: usize, high: usize, c: CallId, nodes: &mut MarkedNodes)
    requires nodes { AreNodesOf f.now nodes.old }
    requires edges { All (λ (e : Edge). e.from.0 < node_count f.now.inputs) edges.now }
    requires order { low ≤ high }
    requires within { high ≤ length edges.now }
    ensures nodes { AreNodesOf f.now nodes.new }
    ensures grown { Grows (found nodes.old) (found nodes.new) (StartsBefore c low edges.now high) }
{
    for k in low..high {
        let edge = edge_at(edges, k);
        start_one(f, edge, c, nodes);
    }
}

// The arguments of a call for the node of this number of the method called.
fn over_formal(f: &Facts, graph: &Graph, number: u32, c: Caller, nodes: &mut MarkedNodes)
    requires nodes { AreNodesOf f.now nodes.old }
    requires callers { AreCallers f.now c }
    requires callee { (m : MethodId) × IsGraphIn f.now.inputs m graph.now }
    requires within { number < length graph.now.incoming }
    ensures nodes { AreNodesOf f.now nodes.new }
    ensures grown { Grows (found nodes.old) (found nodes.new) (CallsInto f.now.inputs c.call (node_at graph.now number)) }
{
    let edges = edges_into(f, graph, NodeId(graph.first.0 + number));
    let low = count_before(edges, c.first);
    let high = count_before(edges, c.end);
    starts(f, edges, low, high, c.call, nodes);
}

// .. for a formal whose bit is set.
fn over_bit(
    f: &Facts,
    graph: &Graph,
    formals: u32,
    number: u64,
    holds: bool,
    c: Caller,
    nodes: &mut MarkedNodes,
)
    requires nodes { AreNodesOf f.now nodes.old }
    requires callers { AreCallers f.now c }
    requires callee { IsCallee f.now graph.now formals }
    ensures nodes { AreNodesOf f.now nodes.new }
    ensures grown { Grows (found nodes.old) (found nodes.new) (λ q. (holds ≡ true) × (number < formals) × CallsInto f.now.inputs c.call (node_at graph.now number) q) }
{
    if holds && number < formals as u64 {
        over_formal(f, graph, number as u32, c, nodes);
    }
}

// Whether a bit is set.
fn has_bit(word: u64, b: u32) -> bool
    requires { b < 64 }
    ensures { IsTrue result ↔ (bit_at word b ≡ 1) }
{
    (word >> b) & 1 == 1
}

// .. for the formals of the bits of word k.
fn over_bits(
    f: &Facts,
    graph: &Graph,
    formals: u32,
    k: u32,
    word: u64,
    c: Caller,
    nodes: &mut MarkedNodes,
)
    requires nodes { AreNodesOf f.now nodes.old }
    requires callers { AreCallers f.now c }
    requires callee { IsCallee f.now graph.now formals }
    ensures nodes { AreNodesOf f.now nodes.new }
    ensures grown { Grows (found nodes.old) (found nodes.new) (ByWord f.now c.call graph.now formals k word) }
{
    for b in 0..64u32 {
        over_bit(
            f,
            graph,
            formals,
            64 * k as u64 + b as u64,
            has_bit(word, b),
            c,
            nodes,
        );
    }
}

// The same in one step where no bit is set.
fn over_word(
    f: &Facts,
    graph: &Graph,
    formals: u32,
    k: u32,
    word: u64,
    c: Caller,
    nodes: &mut MarkedNodes,
)
    requires nodes { AreNodesOf f.now nodes.old }
    requires callers { AreCallers f.now c }
    requires callee { IsCallee f.now graph.now formals }
    ensures nodes { AreNodesOf f.now nodes.new }
    ensures grown { Grows (found nodes.old) (found nodes.new) (ByWord f.now c.call graph.now formals k word) }
{
    if word != 0 {
        over_bits(f, graph, formals, k, word, c, nodes);
    }
}

// .. for the formals in the row of an exit, which is known.
fn over_row<R: KnownRows>(
    f: &Facts,
    graph: &Graph,
    formals: u32,
    rows: &mut R,
    mode: Mode,
    e: ExitId,
    c: Caller,
    nodes: &mut MarkedNodes,
)
    requires nodes { AreNodesOf f.now nodes.old }
    requires callers { AreCallers f.now c }
    requires callee { IsCalleeAt f.now graph.now formals e }
    requires rows { R.sound rows.old }
    requires row_facts { R.facts rows.old ≡ f.now }
    requires known { R.known rows.old e mode }
    ensures nodes { AreNodesOf f.now nodes.new }
    ensures rows { R.sound rows.new }
    ensures later { R.later rows.old rows.new }
    ensures grown { Grows (found nodes.old) (found nodes.new) (ByRow f.now mode e c.call graph.now formals) }
{
    let words = ((formals as u64 + 63) / 64) as u32;
    for k in 0..words {
        let word = rows.word(e, mode, k);
        over_word(f, graph, formals, k, word, c, nodes);
    }
}

// .. from an exit of the graph's method.
fn over_exit<R: KnownRows>(
    f: &Facts,
    graph: &Graph,
    rows: &mut R,
    mode: Mode,
    x: NodeId,
    e: ExitId,
    c: Caller,
    nodes: &mut MarkedNodes,
)
    requires nodes { AreNodesOf f.now nodes.old }
    requires callers { AreCallers f.now c }
    requires exit { IsExitAt f.now e x }
    requires callee { (m : MethodId) × IsMethodOfNode f.now.inputs x m × IsGraphIn f.now.inputs m graph.now }
    requires rows { R.sound rows.old }
    requires row_facts { R.facts rows.old ≡ f.now }
    requires known { R.known rows.old e mode }
    ensures nodes { AreNodesOf f.now nodes.new }
    ensures rows { R.sound rows.new }
    ensures later { R.later rows.old rows.new }
    ensures grown { Grows (found nodes.old) (found nodes.new) (PassesBy (ModeEdges f.now.inputs mode) c.call x) }
{
    let formals = f.formals(graph.method);
    over_row(f, graph, formals, rows, mode, e, c, nodes);
}

// .. where the graph of the method was seen.
fn over_seen<G: SeenGraphs, R: KnownRows>(
    f: &Facts,
    graphs: &G,
    rows: &mut R,
    mode: Mode,
    x: NodeId,
    e: ExitId,
    c: Caller,
    nodes: &mut MarkedNodes,
)
    requires nodes { AreNodesOf f.now nodes.old }
    requires callers { AreCallers f.now c }
    requires graphs { G.sound graphs.now }
    requires graph_facts { G.facts graphs.now ≡ f.now }
    requires rows { R.sound rows.old }
    requires row_facts { R.facts rows.old ≡ f.now }
    requires within { x.0 < node_count f.now.inputs }
    requires exit { IsExitAt f.now e x }
    requires served { IsServed f.now (G.has_seen graphs.now) (λ e. R.known rows.old e mode) x }
    ensures nodes { AreNodesOf f.now nodes.new }
    ensures rows { R.sound rows.new }
    ensures later { R.later rows.old rows.new }
    ensures grown { Grows (found nodes.old) (found nodes.new) (PassesBy (ModeEdges f.now.inputs mode) c.call x) }
{
    match graph_at(f, graphs, x) {
        Ok(graph) => over_exit(f, graph, rows, mode, x, e, c, nodes),
        Err(_) => {}
    }
}

/// Back over a call whose return edge starts in x, an exit that is served.
pub fn over<G: SeenGraphs, R: KnownRows>(
    f: &Facts,
    graphs: &G,
    rows: &mut R,
    mode: Mode,
    x: NodeId,
    c: Caller,
    nodes: &mut MarkedNodes,
)
    requires nodes { AreNodesOf f.now nodes.old }
    requires callers { AreCallers f.now c }
    requires graphs { G.sound graphs.now }
    requires graph_facts { G.facts graphs.now ≡ f.now }
    requires rows { R.sound rows.old }
    requires row_facts { R.facts rows.old ≡ f.now }
    requires edge { (n : NodeId) × IsEdge f.now.inputs (edge x (Return c.call) n) }
    requires served { IsServed f.now (G.has_seen graphs.now) (λ e. R.known rows.old e mode) x }
    ensures nodes { AreNodesOf f.now nodes.new }
    ensures rows { R.sound rows.new }
    ensures later { R.later rows.old rows.new }
    ensures grown { Grows (found nodes.old) (found nodes.new) (PassesBy (ModeEdges f.now.inputs mode) c.call x) }
{
    match f.exit_of(x) {
        Some(e) => over_seen(f, graphs, rows, mode, x, e, c, nodes),
        None => {}
    }
}
