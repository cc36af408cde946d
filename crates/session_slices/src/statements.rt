// The statements of what a walk found.
ghost use Rattle.std.specs.Prelude.{◌≡◌, ◌⊎◌, ◌<◌, ◌≤◌, ◌+◌, ◌↔◌, AllPairs, Contains, vec_len, vec_capacity};
ghost use Rattle.slicer_ids.specs.declared.ids.NodeId.{NodeId};
ghost use Rattle.slicer_ids.specs.declared.ids.Statement.{Statement};
ghost use Rattle.slicer_ids.specs.Order.{StatementBefore};
ghost use Rattle.slicer_ids.specs.Sets.{IsOrderedListOf};
ghost use Rattle.dep_form.specs.Firsts.{node_count};
ghost use Rattle.dep_form.specs.Inputs.{BelongsTo};
ghost use Rattle.dep_form.specs.Slices.{StatementsOf};
ghost use Rattle.thin_slice.specs.Walks.{IsWalkOf, nodes_of};

use crate::nodes::put;
use dep_form::facts::Facts;
use slicer_ids::ids::{NodeId, Statement};
use thin_slice::walk::Walk;

// Adds the statement of a node, where it has one.
fn add_statement(f: &Facts, n: NodeId, found: &mut Vec<Statement>)
    requires node { n.0 < node_count f.now.inputs }
    requires room { vec_len found.old < vec_capacity found.old }
    ensures members { (s : Statement) → Contains found.new.items s ↔ (Contains found.old.items s ⊎ BelongsTo f.now.inputs n s) }
    ensures len { vec_len found.new ≤ vec_len found.old + 1 }
    ensures capacity { vec_capacity found.old ≤ vec_capacity found.new }
{
    if let Some(s) = f.statement(n) {
        put(found, s);
    }
}

// Adds the statement of a node that a walk found.
fn add_found(f: &Facts, walk: &Walk, n: NodeId, found: &mut Vec<Statement>)
    requires node { n.0 < node_count f.now.inputs }
    requires walk { IsWalkOf f.now walk.now }
    requires room { vec_len found.old < vec_capacity found.old }
    ensures members { (s : Statement) → Contains found.new.items s ↔ (Contains found.old.items s ⊎ (Contains (nodes_of walk.now) n × BelongsTo f.now.inputs n s)) }
    ensures len { vec_len found.new ≤ vec_len found.old + 1 }
    ensures capacity { vec_capacity found.old ≤ vec_capacity found.new }
{
    if walk.has(n) {
        add_statement(f, n, found);
    }
}

// The statements of all nodes that a walk found.
fn collect(f: &Facts, walk: &Walk, size: u32, found: &mut Vec<Statement>)
    requires size { size ≡ node_count f.now.inputs }
    requires walk { IsWalkOf f.now walk.now }
    requires room { size ≤ vec_capacity found.old }
    ensures members { (s : Statement) → Contains found.new.items s ↔ StatementsOf f.now.inputs (Contains (nodes_of walk.now)) s }
    ensures capacity { size ≤ vec_capacity found.new }
{
    found.clear();
    for n in 0..size {
        add_found(f, walk, NodeId(n), found);
    }
}

// The same statements, in order, each once.
fn put_in_order(found: &mut Vec<Statement>)
    ensures order { AllPairs StatementBefore found.new.items }
    ensures members { (s : Statement) → Contains found.new.items s ↔ Contains found.old.items s }
    ensures capacity { vec_capacity found.new ≡ vec_capacity found.old }
{
    found.sort_unstable();
    found.dedup();
}

/// The statements of the nodes that a walk found, in order, each once. It costs one look at each node, and the order.
pub fn list_statements(f: &Facts, walk: &Walk, size: u32, found: &mut Vec<Statement>)
    requires size { size ≡ node_count f.now.inputs }
    requires walk { IsWalkOf f.now walk.now }
    requires room { size ≤ vec_capacity found.old }
    ensures statements { IsOrderedListOf StatementBefore found.new.items (StatementsOf f.now.inputs (Contains (nodes_of walk.now))) }
    ensures capacity { size ≤ vec_capacity found.new }
{
    collect(f, walk, size, found);
    put_in_order(found);
}
