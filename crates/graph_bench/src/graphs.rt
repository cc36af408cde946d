// The time and the memory that graphs take.

use crate::inputs::{Sizes, inputs};
use anyhow::{Result, bail};
use bench_tools::memory::resident;
use bench_tools::watch::Watch;
use dep_form::graph::Graph;
use dep_form::input::MethodInput;
use method_graph::build::build_graph;
use slicer_ids::ids::NoMemory;
use std::alloc::Global;

fn build_all(alloc: Global, inputs: &[MethodInput]) -> Result<Vec<Graph>, NoMemory> {
    let mut graphs = Vec::new(alloc);
    for input in inputs {
        graphs.push(build_graph(alloc, input)?)?;
    }
    Ok(graphs)
}

fn node_count(graphs: &[Graph]) -> u64 {
    let mut count: u64 = 0;
    for graph in graphs {
        count = count.saturating_add(graph.incoming.items().len() as u64);
    }
    count
}

fn edge_count(graphs: &[Graph]) -> u64 {
    let mut count: u64 = 0;
    for graph in graphs {
        for edges in graph.incoming.items() {
            count = count.saturating_add(edges.items().len() as u64);
        }
    }
    count
}

/// Prints how long the graphs of so many nodes take, in so many methods.
pub fn measure_graphs(rt: &HostRuntime, nodes: u32, methods: u32) -> Result<()> {
    let sizes = Sizes::of(nodes / methods.max(1));
    let Some(inputs) = inputs(rt.alloc(), methods, sizes)? else {
        bail!("the parts don't fit together");
    };
    let before = resident(rt)?;
    let watch = Watch::start(rt)?;
    let graphs = build_all(rt.alloc(), &inputs)?;
    let spent = watch.spent(rt)?;
    let taken = resident(rt)?.saturating_sub(before).saturating_mul(1024);
    let edges = edge_count(&graphs);
    println!(rt; "  {} nodes, {edges} edges, {spent}", node_count(&graphs))?;
    println!(rt; "  {} bytes an edge stay in memory", taken / edges.max(1))?;
    Ok(())
}
