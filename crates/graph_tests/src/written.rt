// All graphs of a program as text: for each method that is reached, and last for the root, a line with its name, and for each of its
// nodes a line with the node's number, what it stands for, and the edges that end in it: of each its label, with the number of its call
// where it has one, and the number of the node where it starts.

use dep_form::facts::Facts;
use dep_form::input::MethodInput;
use dep_form::node::{Edge, Label, Node};
use method_graph::build::build_graph;
use slicer_ids::list::List;
use std::alloc::Global;
use std::test::Fail;

fn node_text(alloc: Global, node: &Node) -> Result<String, Fail> {
    let text = match node {
        Node::Formal(i) => format!(in alloc; "formal {i}")?,
        Node::HeapIn(l) => format!(in alloc; "heap in {}", l.0)?,
        Node::Own(pc) => format!(in alloc; "own {pc}")?,
        Node::Argument(pc, i) => format!(in alloc; "argument {pc} {i}")?,
        Node::Result(pc) => format!(in alloc; "result {pc}")?,
        Node::Exception(pc) => format!(in alloc; "exception {pc}")?,
        Node::HeapArg(pc, l) => format!(in alloc; "heap argument {pc} {}", l.0)?,
        Node::HeapResult(pc, l) => format!(in alloc; "heap result {pc} {}", l.0)?,
        Node::Return => format!(in alloc; "return")?,
        Node::Thrown => format!(in alloc; "thrown")?,
        Node::HeapOut(l) => format!(in alloc; "heap out {}", l.0)?,
    };
    Ok(text)
}

fn edge_text(alloc: Global, edge: &Edge) -> Result<String, Fail> {
    let from = edge.from.0;
    let text = match edge.label {
        Label::Thin => format!(in alloc; ", thin {from}")?,
        Label::Base => format!(in alloc; ", base {from}")?,
        Label::Call(c) => format!(in alloc; ", call {} from {from}", c.0)?,
        Label::Return(c) => format!(in alloc; ", return {} from {from}", c.0)?,
    };
    Ok(text)
}

// Adds the edges that end in a node; an error where one ends elsewhere.
fn add_edges(alloc: Global, text: &mut String, number: u32, edges: &[Edge]) -> Result<(), Fail> {
    for edge in edges {
        if edge.to.0 != number {
            return Err("an edge ends elsewhere".into());
        }
        let more = edge_text(alloc, edge)?;
        text.push_str(more.as_str())?;
    }
    text.push_str("\n")?;
    Ok(())
}

// Adds a node's line.
fn add_node(
    alloc: Global,
    text: &mut String,
    number: u32,
    node: &Node,
    edges: &[Edge],
) -> Result<(), Fail> {
    let what = node_text(alloc, node)?;
    let start = format!(in alloc; "{number} {what}")?;
    text.push_str(start.as_str())?;
    add_edges(alloc, text, number, edges)
}

// The edges at a place of a graph.
fn edges_at(incoming: &[List<Edge>], place: usize) -> &[Edge] {
    match incoming.get(place) {
        Some(edges) => edges.items(),
        None => &[],
    }
}

// Adds the graph of a method.
fn add_method(alloc: Global, text: &mut String, input: &MethodInput) -> Result<(), Fail> {
    let graph = build_graph(alloc, input)?;
    let incoming = graph.incoming.items();
    for (place, node) in input.nodes.items().iter().enumerate() {
        let number = input.first.0.wrapping_add(place as u32);
        add_node(alloc, text, number, node, edges_at(incoming, place))?;
    }
    Ok(())
}

// Adds the name of a method, and its graph. The root has no name.
fn add_input(
    alloc: Global,
    text: &mut String,
    f: &Facts,
    input: &Option<MethodInput>,
) -> Result<(), Fail> {
    match input {
        Some(input) => {
            text.push_str(str::from_utf8(f.method_name(input.method)).unwrap_or("?"))?;
            text.push_str(":\n")?;
            add_method(alloc, text, input)
        }
        None => Ok(()),
    }
}

/// All graphs as text.
pub fn graphs_of(alloc: Global, f: &Facts) -> Result<String, Fail> {
    let mut text = String::new(alloc);
    for input in f.inputs.items() {
        add_input(alloc, &mut text, f, input)?;
    }
    Ok(text)
}
