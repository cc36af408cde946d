// The nodes of seeds.
ghost use Rattle.std.specs.Prelude.{◌≡◌, ◌⊎◌, ◌<◌, ◌≤◌, ◌+◌, ◌++◌, ◌∷◌, [], ◌↔◌, AllPairs, Contains, IsTrue, vec_len, vec_capacity};
ghost use Rattle.slicer_ids.specs.declared.ids.NodeId.{NodeId};
ghost use Rattle.slicer_ids.specs.Order.{StatementBefore};
ghost use Rattle.dep_form.specs.Firsts.{node_count};
ghost use Rattle.dep_form.specs.Slices.{NodesOf};

use dep_form::facts::Facts;
use slicer_ids::ids::{NodeId, Statement};

/// Adds an item at the end, where there is room.
pub fn put<T: Drop>(list: &mut Vec<T>, item: T)
    requires { vec_len list.old < vec_capacity list.old }
    ensures items { list.new.items ≡ list.old.items ++ item ∷ [] }
    ensures len { vec_len list.new ≡ vec_len list.old + 1 }
    ensures capacity { vec_capacity list.old ≤ vec_capacity list.new }
{
    match list.push(item) {
        Ok(()) => {}
        Err(_) => unreachable!(),
    }
}

// Whether a statement is in a list in order.
fn has(list: &[Statement], s: Statement) -> bool
    requires { AllPairs StatementBefore list.now }
    ensures { IsTrue result ↔ Contains list.now s }
{
    match list.binary_search(&s) {
        Ok(_) => true,
        Err(_) => false,
    }
}

// Adds a node, where it belongs to one of the statements.
fn add_node(f: &Facts, n: NodeId, seeds: &[Statement], nodes: &mut Vec<NodeId>)
    requires node { n.0 < node_count f.now.inputs }
    requires order { AllPairs StatementBefore seeds.now }
    requires room { vec_len nodes.old < vec_capacity nodes.old }
    ensures members { (x : NodeId) → Contains nodes.new.items x ↔ (Contains nodes.old.items x ⊎ ((x ≡ n) × NodesOf f.now.inputs (Contains seeds.now) x)) }
    ensures len { vec_len nodes.new ≤ vec_len nodes.old + 1 }
    ensures capacity { vec_capacity nodes.old ≤ vec_capacity nodes.new }
{
    let Some(s) = f.statement(n) else {
        return;
    };
    if has(seeds, s) {
        put(nodes, n);
    }
}

/// All nodes of the statements, of so many nodes in all.
pub fn list_nodes(f: &Facts, size: u32, seeds: &[Statement], nodes: &mut Vec<NodeId>)
    requires size { size ≡ node_count f.now.inputs }
    requires order { AllPairs StatementBefore seeds.now }
    requires room { size ≤ vec_capacity nodes.old }
    ensures members { (x : NodeId) → Contains nodes.new.items x ↔ NodesOf f.now.inputs (Contains seeds.now) x }
    ensures capacity { size ≤ vec_capacity nodes.new }
{
    nodes.clear();
    for n in 0..size {
        add_node(f, NodeId(n), seeds, nodes);
    }
}
