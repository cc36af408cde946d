// What a walk needs at a node before it goes on.
ghost use Rattle.std.specs.Prelude.{◌≡◌, ◌<◌, IfOk, IfErr, MatchOption, All, length};
ghost use Rattle.slicer_ids.specs.declared.ids.MethodId.{MethodId};
ghost use Rattle.slicer_ids.specs.declared.ids.ExitId.{ExitId};
ghost use Rattle.dep_form.specs.declared.node.Edge.{Edge};
ghost use Rattle.dep_form.specs.Firsts.{node_count};
ghost use Rattle.dep_form.specs.Graphs.{IsGraphIn};
ghost use Rattle.dep_form.specs.LookUps.{IsMethodOfNode};
ghost use Rattle.dep_form.specs.Summaries.{IsExitAt};
ghost use Rattle.thin_slice.specs.Needs.{IsNeedAt, IsNeedOfEdge, IsNeedIn, is_need};

use crate::asked::{KnownRows, SeenGraphs};
use dep_form::facts::Facts;
use dep_form::graph::Graph;
use dep_form::node::{Edge, Label};
use slicer_ids::ids::{ExitId, MethodId, Mode, NodeId};

/// How far a walk came.
#[derive(Clone, Copy, PartialEq, Eq, Debug, Drop)]
pub enum Go {
    /// All nodes of the slice were found.
    Finished,
    /// It goes on once the graph of this method was seen.
    NeedsGraph(MethodId),
    /// It goes on once the row of this exit is known.
    NeedsRow(ExitId),
}

/// Which way a walk goes between methods.
#[derive(Clone, Copy, PartialEq, Eq, Debug, Drop)]
pub enum Phase {
    /// Up to callers.
    Up,
    /// Down into methods called.
    Down,
}

// Whether it names a graph or a row.
pub fn is_need(go: Go) -> bool
    ensures { result ≡ is_need go }
{
    match go {
        Go::Finished => false,
        Go::NeedsGraph(_) => true,
        Go::NeedsRow(_) => true,
    }
}

/// The method of a node.
pub fn method_at(f: &Facts, n: NodeId) -> MethodId
    requires { n.0 < node_count f.now.inputs }
    ensures { IsMethodOfNode f.now.inputs n result }
{
    f.method_of(n)
}

// The graph of a node's method, or the method where its graph wasn't seen.
pub fn graph_at<'a, G: SeenGraphs>(
    f: &Facts,
    graphs: &'a G,
    n: NodeId,
) -> Result<&'a Graph, MethodId>
    requires sound { G.sound graphs.now }
    requires facts { G.facts graphs.now ≡ f.now }
    requires node { n.0 < node_count f.now.inputs }
    ensures found { IfOk result (λ g. (m : MethodId) × IsMethodOfNode f.now.inputs n m × G.has_seen graphs.now m × IsGraphIn f.now.inputs m g.now) }
    ensures missed { IfErr result (λ m. IsMethodOfNode f.now.inputs n m × (G.has_seen graphs.now m → ⊥)) }
{
    let m = method_at(f, n);
    match graphs.seen(m) {
        Some(graph) => Ok(graph),
        None => Err(m),
    }
}

// Whether the row of an exit isn't known.
fn misses<R: KnownRows>(rows: &mut R, e: ExitId, mode: Mode) -> Option<ExitId>
    requires sound { R.sound rows.old }
    requires inside { e.0 < length (R.facts rows.old).exits }
    ensures sound { R.sound rows.new }
    ensures later { R.later rows.old rows.new }
    ensures need { MatchOption result (R.known rows.new e mode) (λ x. (x ≡ e) × (R.known rows.new e mode → ⊥)) }
{
    if rows.knows(e, mode) { None } else { Some(e) }
}

// The exit whose node this is, where its row isn't known.
pub fn row_need<R: KnownRows>(f: &Facts, rows: &mut R, mode: Mode, n: NodeId) -> Option<ExitId>
    requires sound { R.sound rows.old }
    requires facts { R.facts rows.old ≡ f.now }
    ensures sound { R.sound rows.new }
    ensures later { R.later rows.old rows.new }
    ensures need { MatchOption result ((e : ExitId) → IsExitAt f.now e n → R.known rows.new e mode) (λ e. IsExitAt f.now e n × (R.known rows.new e mode → ⊥)) }
{
    match f.exit_of(n) {
        Some(e) => misses(rows, e, mode),
        None => None,
    }
}

// The method of a node, where its graph wasn't seen.
fn graph_need<G: SeenGraphs>(f: &Facts, graphs: &G, n: NodeId) -> Option<MethodId>
    requires sound { G.sound graphs.now }
    requires facts { G.facts graphs.now ≡ f.now }
    requires node { n.0 < node_count f.now.inputs }
    ensures { MatchOption result ((m : MethodId) → IsMethodOfNode f.now.inputs n m → G.has_seen graphs.now m) (λ m. IsMethodOfNode f.now.inputs n m × (G.has_seen graphs.now m → ⊥)) }
{
    match graph_at(f, graphs, n) {
        Ok(_) => None,
        Err(m) => Some(m),
    }
}

// What is missing at a node: the row, where it is an exit's, or the graph of its method.
pub fn need_at<G: SeenGraphs, R: KnownRows>(
    f: &Facts,
    graphs: &G,
    rows: &mut R,
    mode: Mode,
    n: NodeId,
) -> Go
    requires graphs { G.sound graphs.now }
    requires graph_facts { G.facts graphs.now ≡ f.now }
    requires rows { R.sound rows.old }
    requires row_facts { R.facts rows.old ≡ f.now }
    requires node { n.0 < node_count f.now.inputs }
    ensures rows { R.sound rows.new }
    ensures later { R.later rows.old rows.new }
    ensures need { IsNeedAt f.now (G.has_seen graphs.now) (λ e. R.known rows.new e mode) n result }
{
    match row_need(f, rows, mode, n) {
        Some(e) => Go::NeedsRow(e),
        None => match graph_need(f, graphs, n) {
            Some(m) => Go::NeedsGraph(m),
            None => Go::Finished,
        },
    }
}

// What is missing where a return edge starts.
fn need_of_edge<G: SeenGraphs, R: KnownRows>(
    f: &Facts,
    graphs: &G,
    rows: &mut R,
    mode: Mode,
    edge: Edge,
) -> Go
    requires graphs { G.sound graphs.now }
    requires graph_facts { G.facts graphs.now ≡ f.now }
    requires rows { R.sound rows.old }
    requires row_facts { R.facts rows.old ≡ f.now }
    requires node { edge.from.0 < node_count f.now.inputs }
    ensures rows { R.sound rows.new }
    ensures later { R.later rows.old rows.new }
    ensures need { IsNeedOfEdge f.now (G.has_seen graphs.now) (λ e. R.known rows.new e mode) edge result }
{
    match edge.label {
        Label::Return(_) => need_at(f, graphs, rows, mode, edge.from),
        Label::Thin => Go::Finished,
        Label::Base => Go::Finished,
        Label::Call(_) => Go::Finished,
    }
}

// What is missing where the return edges among these start.
pub fn need_in<G: SeenGraphs, R: KnownRows>(
    f: &Facts,
    graphs: &G,
    rows: &mut R,
    mode: Mode,
    edges: &[Edge],
) -> Go
    requires graphs { G.sound graphs.now }
    requires graph_facts { G.facts graphs.now ≡ f.now }
    requires rows { R.sound rows.old }
    requires row_facts { R.facts rows.old ≡ f.now }
    requires nodes { All (λ (e : Edge). e.from.0 < node_count f.now.inputs) edges.now }
    ensures rows { R.sound rows.new }
    ensures later { R.later rows.old rows.new }
    ensures need { IsNeedIn f.now (G.has_seen graphs.now) (λ e. R.known rows.new e mode) edges.now result }
{
    for edge in edges {
        let need = need_of_edge(f, graphs, rows, mode, *edge);
        if is_need(need) {
            return need;
        }
    }
    Go::Finished
}
