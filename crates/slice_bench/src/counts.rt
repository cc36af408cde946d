// How much was found.
ghost use Rattle.std.specs.Prelude.{◌≡◌, ◌<◌, All, true};
ghost use Rattle.slicer_ids.specs.declared.ids.NodeId.{NodeId};
ghost use Rattle.dep_form.specs.Firsts.{node_count};
ghost use Rattle.thin_slice.specs.Walks.{IsWalkOf};
ghost use Rattle.widening.specs.Widened.{IsWide};

use dep_form::facts::Facts;
use dep_form::graph::Graph;
use method_graph::build::build_graph;
use slicer_ids::ids::{NoMemory, NodeId};
use std::alloc::Global;
use std::fmt;
use thin_slice::walk::{Walk, count_nodes};
use widening::wide::Wide;

/// Nodes, and the edges that end in them.
#[derive(Clone, Copy, Debug, Drop)]
pub struct Marked {
    nodes: u64,
    edges: u64,
}

impl fmt::Display for Marked {
    fn fmt<W: fmt::Write>(&self, f: &mut fmt::Formatter<W>) -> fmt::Result {
        let nodes = self.nodes;
        let edges = self.edges;
        write!(f, "{nodes} nodes, {edges} edges end in them")
    }
}

// Whether it is a node of the facts, which have so many.
fn is_node(f: &Facts, size: usize, n: NodeId) -> bool
    requires { size ≡ node_count f.now.inputs }
    ensures { result ≡ true → n.0 < node_count f.now.inputs }
{
    (n.0 as usize) < size
}

/// Whether these are nodes of the facts.
pub fn are_nodes(f: &Facts, nodes: &[NodeId]) -> bool
    ensures { result ≡ true → All (λ (n : NodeId). n.0 < node_count f.now.inputs) nodes.now }
{
    let size = count_nodes(f);
    for n in nodes {
        if !is_node(f, size, *n) {
            return false;
        }
    }
    true
}

fn is_marked(f: &Facts, walk: &Walk, size: usize, n: NodeId) -> bool
    requires walk { IsWalkOf f.now walk.now }
    requires size { size ≡ node_count f.now.inputs }
{
    if !is_node(f, size, n) {
        return false;
    }
    walk.has(n)
}

// Adds the nodes of a method that a walk found.
fn add_marked(f: &Facts, walk: &Walk, size: usize, graph: &Graph, marked: &mut Marked)
    requires walk { IsWalkOf f.now walk.now }
    requires size { size ≡ node_count f.now.inputs }
{
    let mut n = graph.first.0;
    for edges in graph.incoming.items() {
        if is_marked(f, walk, size, NodeId(n)) {
            marked.nodes = marked.nodes.saturating_add(1);
            marked.edges = marked.edges.saturating_add(edges.items().len() as u64);
        }
        n = n.saturating_add(1);
    }
}

/// The nodes that a walk found. It builds the graph of each method once more.
pub fn marked_by(alloc: Global, f: &Facts, walk: &Walk) -> Result<Marked, NoMemory>
    requires { IsWalkOf f.now walk.now }
{
    let size = count_nodes(f);
    let mut marked = Marked { nodes: 0, edges: 0 };
    for input in f.inputs.items() {
        if let Some(input) = input {
            let graph = build_graph(alloc, input)?;
            add_marked(f, walk, size, &graph, &mut marked);
        }
    }
    Ok(marked)
}

fn has(f: &Facts, wide: &Wide, n: usize) -> bool
    requires wide { IsWide f.now wide.now }
    requires node { n < node_count f.now.inputs }
{
    wide.has(NodeId(n as u32))
}

/// How many nodes a slice has.
pub fn sliced_by(f: &Facts, wide: &Wide) -> u64
    requires { IsWide f.now wide.now }
{
    let mut count: u64 = 0;
    for n in 0..count_nodes(f) {
        if has(f, wide, n) {
            count = count.saturating_add(1);
        }
    }
    count
}
