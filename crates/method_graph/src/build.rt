// The graph.
ghost use Rattle.std.specs.Prelude.{◌≡◌, ◌<◌, ◌≤◌, ◌+◌, ◌↔◌, ◌++◌, ◌∷◌, [], ℕ, length, map, slice_get, Some, IfOk, OnOk, Contains};
ghost use Rattle.worklists.specs.Growth.{Grows, FromOne};
ghost use Rattle.dep_form.specs.declared.node.Edge.{Edge};
ghost use Rattle.dep_form.specs.Graphs.{IsGraphOf};
ghost use Rattle.dep_form.specs.Inputs.{IsEdgeOf};
ghost use Rattle.method_graph.specs.declared.edges.Ending.{Ending};
ghost use Rattle.method_graph.specs.Edges.{ending_of, edge_of, AreIncoming};

use crate::edges::{Ending, in_order, incoming_of};
use crate::heap_flows::{add_flows, heap_of};
use dep_form::graph::Graph;
use dep_form::input::MethodInput;
use dep_form::node::Edge;
use slicer_ids::ids::NoMemory;
use slicer_ids::list::List;
use std::alloc::Global;
use worklists::add;

// The edges that the input lists.
fn direct_edges(alloc: Global, edges: &[Edge]) -> Result<Vec<Ending>, NoMemory>
    ensures { IfOk result (λ v. (x : Ending) → Contains v.items x ↔ FromOne (λ e y. y ≡ ending_of e) edges.now x) }
{
    let mut all = Vec::new(alloc);
    for edge in edges {
        let ending = Ending {
            to: edge.to,
            from: edge.from,
            label: edge.label,
        };
        add(&mut all, ending)?;
    }
    Ok(all)
}

// All edges that the input describes.
fn all_edges(alloc: Global, input: &MethodInput) -> Result<Vec<Ending>, NoMemory>
    ensures { IfOk result (λ v. (x : Ending) → Contains v.items x ↔ IsEdgeOf input.now (edge_of x)) }
{
    let heap = heap_of(alloc, input)?;
    let mut edges = direct_edges(alloc, input.direct.items())?;
    add_flows(&mut edges, &heap)?;
    Ok(edges)
}

/// The graph of a method: exactly the edges that its input describes, by the node that they end in, in order.
///
/// Takes a step of 64 bits for each 64 points and step of control, as often as loops lie in loops; for each edge a few steps; for
/// each definition and use of one location one look at a bit; and it sorts the edges.
pub fn build_graph(alloc: Global, input: &MethodInput) -> Result<Graph, NoMemory>
    ensures { IfOk result (IsGraphOf input.now) }
{
    let edges = in_order(all_edges(alloc, input)?);
    let incoming = incoming_of(alloc, &edges, input.first.0, input.nodes.items().len())?;
    Ok(Graph {
        method: input.method,
        first: input.first,
        incoming: List::from_vec(incoming),
    })
}
