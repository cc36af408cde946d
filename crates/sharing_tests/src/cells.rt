// Cells that one pass fills and another sees: what no clause says is that the calls succeed, and that a cell is empty at first.

use crate::one_method::one_method;
use dep_form::graph::Graph;
use dep_form::node::Edge;
use graph_store::store::GraphStore;
use slicer_ids::ids::MethodId;
use slicer_ids::list::List;
use std::test::Fail;

fn edge_count(graph: &Graph) -> usize {
    let mut count: usize = 0;
    for edges in graph.incoming.items() {
        count = count.saturating_add(edges.items().len());
    }
    count
}

fn are_same_edges(a: &[List<Edge>], b: &[List<Edge>]) -> bool {
    if a.len() != b.len() {
        return false;
    }
    for k in 0..a.len() {
        if a[k].items() != b[k].items() {
            return false;
        }
    }
    true
}

// Whether both are there, and equal.
fn are_same_graphs(a: Option<&Graph>, b: Option<&Graph>) -> bool {
    match (a, b) {
        (Some(a), Some(b)) => {
            a.method == b.method
                && a.first == b.first
                && are_same_edges(a.incoming.items(), b.incoming.items())
        }
        _ => false,
    }
}

#[test]
fn a_graph_is_shared_once_somebody_asked(rt: HostRuntime) -> Result<(), Fail> {
    let facts = one_method(rt.alloc())?;
    let store = GraphStore::new(rt.alloc(), &facts)?;
    let mut first = store.open_pass()?;
    let mut second = store.open_pass()?;
    assert!(rt; !store.shared(&facts, MethodId(0), &mut second));
    let edges = edge_count(first.graph(&store, &facts, MethodId(0))?);
    assert_eq!(rt; edges, 1);
    assert!(rt; store.shared(&facts, MethodId(0), &mut second));
    assert!(rt; !store.shared(&facts, MethodId(1), &mut second));
    Ok(())
}

#[test]
fn two_passes_see_equal_graphs(rt: HostRuntime) -> Result<(), Fail> {
    let facts = one_method(rt.alloc())?;
    let store = GraphStore::new(rt.alloc(), &facts)?;
    let mut first = store.open_pass()?;
    let mut second = store.open_pass()?;
    first.fetch(&store, &facts, MethodId(0))?;
    assert!(rt; second.seen(MethodId(0)).is_none());
    assert!(rt; store.shared(&facts, MethodId(0), &mut second));
    assert!(rt; are_same_graphs(first.seen(MethodId(0)), second.seen(MethodId(0))));
    Ok(())
}
