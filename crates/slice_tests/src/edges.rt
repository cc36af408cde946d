// All edges of facts, in a list.

use dep_form::facts::Facts;
use dep_form::graph::Graph;
use dep_form::input::MethodInput;
use dep_form::node::Edge;
use method_graph::build::build_graph;
use slicer_ids::ids::NoMemory;
use std::alloc::Global;

/// The edges of the graphs of all methods.
pub fn edges_of(alloc: Global, f: &Facts) -> Result<Vec<Edge>, NoMemory> {
    let mut edges = Vec::new(alloc);
    for input in f.inputs.items() {
        add_input(alloc, &mut edges, input)?;
    }
    Ok(edges)
}

fn add_input(
    alloc: Global,
    edges: &mut Vec<Edge>,
    input: &Option<MethodInput>,
) -> Result<(), NoMemory> {
    match input {
        Some(input) => {
            let graph = build_graph(alloc, input)?;
            add_graph(edges, &graph)
        }
        None => Ok(()),
    }
}

fn add_graph(edges: &mut Vec<Edge>, graph: &Graph) -> Result<(), NoMemory> {
    for into in graph.incoming.items() {
        edges.extend_from_slice(into.items())?;
    }
    Ok(())
}
