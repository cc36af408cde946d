// The two phases of a walk.
ghost use Rattle.std.specs.Prelude.{◌≡◌, ◌<◌, ◌≤◌, ◌⊎◌, ◌++◌, ◌↔◌, IsTrue, List, Contains, length, take};
ghost use Rattle.slicer_ids.specs.declared.ids.NodeId.{NodeId};
ghost use Rattle.dep_form.specs.Firsts.{node_count};
ghost use Rattle.dep_form.specs.Slices.{ModeEdges};
ghost use Rattle.thin_slice.specs.Marks.{AreNodesOf, found};
ghost use Rattle.thin_slice.specs.Needs.{IsServed, IsStepDown};
ghost use Rattle.thin_slice.specs.Walks.{IsUp, IsDown, IsStop};

use crate::asked::{KnownRows, SeenGraphs};
use crate::follow::{step, step_again};
use crate::marked::MarkedNodes;
use crate::needs::{Go, Phase, is_need};
use dep_form::facts::Facts;
use slicer_ids::ids::{Mode, NodeId};

/// Up to callers, from the node at place `next` on, until something is missing.
pub fn walk_up<G: SeenGraphs, R: KnownRows>(
    f: &Facts,
    graphs: &G,
    rows: &mut R,
    mode: Mode,
    nodes: &mut MarkedNodes,
    next: &mut usize,
) -> Go
    requires nodes { AreNodesOf f.now nodes.old }
    requires next { next.old ≤ length (found nodes.old) }
    requires graphs { G.sound graphs.now }
    requires graph_facts { G.facts graphs.now ≡ f.now }
    requires rows { R.sound rows.old }
    requires row_facts { R.facts rows.old ≡ f.now }
    requires served { (n : NodeId) → Contains (take next.old (found nodes.old)) n → IsServed f.now (G.has_seen graphs.now) (λ e. R.known rows.old e mode) n }
    ensures nodes { AreNodesOf f.now nodes.new }
    ensures rows { R.sound rows.new }
    ensures later { R.later rows.old rows.new }
    ensures front { (more : List NodeId) × (found nodes.new ≡ found nodes.old ++ more) }
    ensures walking { (seeds : List NodeId) → IsUp (ModeEdges f.now.inputs mode) seeds next.old (found nodes.old) → IsUp (ModeEdges f.now.inputs mode) seeds next.new (found nodes.new) }
    ensures served { (n : NodeId) → Contains (take next.new (found nodes.new)) n → IsServed f.now (G.has_seen graphs.now) (λ e. R.known rows.new e mode) n }
    ensures stop { IsStop f.now (G.has_seen graphs.now) (λ e. R.known rows.new e mode) (ModeEdges f.now.inputs mode) result next.new (found nodes.new) }
{
    while *next < nodes.count {
        let n = nodes.at(*next);
        let go = step(f, graphs, rows, mode, Phase::Up, n, nodes);
        if is_need(go) {
            return go;
        }
        *next += 1;
    }
    Go::Finished
}

// A step down from a node, which may be of the first phase.
fn step_down<G: SeenGraphs, R: KnownRows>(
    f: &Facts,
    graphs: &G,
    rows: &mut R,
    mode: Mode,
    first: bool,
    n: NodeId,
    nodes: &mut MarkedNodes,
) -> Go
    requires nodes { AreNodesOf f.now nodes.old }
    requires within { n.0 < node_count f.now.inputs }
    requires graphs { G.sound graphs.now }
    requires graph_facts { G.facts graphs.now ≡ f.now }
    requires rows { R.sound rows.old }
    requires row_facts { R.facts rows.old ≡ f.now }
    ensures nodes { AreNodesOf f.now nodes.new }
    ensures rows { R.sound rows.new }
    ensures later { R.later rows.old rows.new }
    ensures step { IsStepDown f.now (G.has_seen graphs.now) (λ e. R.known rows.new e mode) (ModeEdges f.now.inputs mode) first n result (found nodes.old) (found nodes.new) }
{
    if first {
        match step_again(f, graphs, mode, n, nodes) {
            None => Go::Finished,
            Some(m) => Go::NeedsGraph(m),
        }
    } else {
        step(f, graphs, rows, mode, Phase::Down, n, nodes)
    }
}

fn is_below(a: usize, b: usize) -> bool
    ensures { IsTrue result ↔ (a < b) }
{
    a < b
}

/// Down into the methods called, from the node at place `next` on, until something is missing. The first `ups` nodes are those of
/// the first phase.
pub fn walk_down<G: SeenGraphs, R: KnownRows>(
    f: &Facts,
    graphs: &G,
    rows: &mut R,
    mode: Mode,
    ups: usize,
    nodes: &mut MarkedNodes,
    next: &mut usize,
) -> Go
    requires nodes { AreNodesOf f.now nodes.old }
    requires next { next.old ≤ length (found nodes.old) }
    requires ups { ups ≤ length (found nodes.old) }
    requires graphs { G.sound graphs.now }
    requires graph_facts { G.facts graphs.now ≡ f.now }
    requires rows { R.sound rows.old }
    requires row_facts { R.facts rows.old ≡ f.now }
    requires served { (n : NodeId) → Contains (take ups (found nodes.old)) n ⊎ Contains (take next.old (found nodes.old)) n → IsServed f.now (G.has_seen graphs.now) (λ e. R.known rows.old e mode) n }
    ensures nodes { AreNodesOf f.now nodes.new }
    ensures rows { R.sound rows.new }
    ensures later { R.later rows.old rows.new }
    ensures front { (more : List NodeId) × (found nodes.new ≡ found nodes.old ++ more) }
    ensures walking { (seeds : List NodeId) → IsDown (ModeEdges f.now.inputs mode) seeds ups next.old (found nodes.old) → IsDown (ModeEdges f.now.inputs mode) seeds ups next.new (found nodes.new) }
    ensures served { (n : NodeId) → Contains (take ups (found nodes.new)) n ⊎ Contains (take next.new (found nodes.new)) n → IsServed f.now (G.has_seen graphs.now) (λ e. R.known rows.new e mode) n }
    ensures stop { IsStop f.now (G.has_seen graphs.now) (λ e. R.known rows.new e mode) (ModeEdges f.now.inputs mode) result next.new (found nodes.new) }
{
    while *next < nodes.count {
        let n = nodes.at(*next);
        let first = is_below(*next, ups);
        let go = step_down(f, graphs, rows, mode, first, n, nodes);
        if is_need(go) {
            return go;
        }
        *next += 1;
    }
    Go::Finished
}
