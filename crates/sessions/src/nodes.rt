// The nodes of seeds, and the statements of a widened slice.
ghost use Rattle.std.specs.Prelude.{◌≡◌, ◌≢◌, ◌⊎◌, ◌<◌, [], ◌↔◌, AllPairs, Contains, IsTrue, IfOk, OnOk, true, false};
ghost use Rattle.slicer_ids.specs.declared.ids.NodeId.{NodeId};
ghost use Rattle.slicer_ids.specs.declared.ids.Statement.{Statement};
ghost use Rattle.slicer_ids.specs.Order.{StatementBefore};
ghost use Rattle.slicer_ids.specs.Sets.{IsOrderedListOf};
ghost use Rattle.dep_form.specs.Firsts.{node_count};
ghost use Rattle.dep_form.specs.Inputs.{BelongsTo};
ghost use Rattle.dep_form.specs.Slices.{Slice, NodesOf, StatementsOf};
ghost use Rattle.widening.specs.Widened.{IsWide, seeds_of, expansions_of};

use dep_form::facts::Facts;
use slicer_ids::ids::{NoMemory, NodeId, Statement};
use std::alloc::Global;
use thin_slice::walk::count_nodes;
use widening::wide::Wide;

/// Whether a statement is in a list in order.
pub fn has(list: &[Statement], s: Statement) -> bool
    requires { AllPairs StatementBefore list.now }
    ensures { IsTrue result ↔ Contains list.now s }
{
    match list.binary_search(&s) {
        Ok(_) => true,
        Err(_) => false,
    }
}

/// Whether a list has no statements.
pub fn is_none(list: &[Statement]) -> bool
    ensures yes { result ≡ true → list.now ≡ [] }
    ensures no { result ≡ false → list.now ≢ [] }
{
    list.is_empty()
}

// Adds a node, where it belongs to one of the statements.
fn add_node(
    f: &Facts,
    n: NodeId,
    seeds: &[Statement],
    nodes: &mut Vec<NodeId>,
) -> Result<(), NoMemory>
    requires node { n.0 < node_count f.now.inputs }
    requires order { AllPairs StatementBefore seeds.now }
    ensures { OnOk result ((x : NodeId) → Contains nodes.new.items x ↔ (Contains nodes.old.items x ⊎ ((x ≡ n) × NodesOf f.now.inputs (Contains seeds.now) x))) }
{
    let Some(s) = f.statement(n) else {
        return Ok(());
    };
    if !has(seeds, s) {
        return Ok(());
    }
    nodes.push(n)?;
    Ok(())
}

/// All nodes of the statements. It costs a look at each node of the facts.
pub fn list_nodes(alloc: Global, f: &Facts, seeds: &[Statement]) -> Result<Vec<NodeId>, NoMemory>
    requires { AllPairs StatementBefore seeds.now }
    ensures { IfOk result (λ v. (x : NodeId) → Contains v.items x ↔ NodesOf f.now.inputs (Contains seeds.now) x) }
{
    let mut nodes = Vec::new(alloc);
    let size = count_nodes(f) as u32;
    for n in 0..size {
        add_node(f, NodeId(n), seeds, &mut nodes)?;
    }
    Ok(nodes)
}

// Adds the statement of a node, where it has one.
fn add_statement(f: &Facts, n: NodeId, found: &mut Vec<Statement>) -> Result<(), NoMemory>
    requires { n.0 < node_count f.now.inputs }
    ensures { OnOk result ((s : Statement) → Contains found.new.items s ↔ (Contains found.old.items s ⊎ BelongsTo f.now.inputs n s)) }
{
    let Some(s) = f.statement(n) else {
        return Ok(());
    };
    found.push(s)?;
    Ok(())
}

// Adds the statement of a node of the slice.
fn add_found(f: &Facts, wide: &Wide, n: NodeId, found: &mut Vec<Statement>) -> Result<(), NoMemory>
    requires node { n.0 < node_count f.now.inputs }
    requires wide { IsWide f.now wide.now }
    ensures { OnOk result ((s : Statement) → Contains found.new.items s ↔ (Contains found.old.items s ⊎ (Slice f.now.inputs (Contains (expansions_of wide.now)) (Contains (seeds_of wide.now)) n × BelongsTo f.now.inputs n s))) }
{
    if !wide.has(n) {
        return Ok(());
    }
    add_statement(f, n, found)?;
    Ok(())
}

// The statements of the slice.
fn collect(alloc: Global, f: &Facts, wide: &Wide) -> Result<Vec<Statement>, NoMemory>
    requires { IsWide f.now wide.now }
    ensures { IfOk result (λ v. (s : Statement) → Contains v.items s ↔ StatementsOf f.now.inputs (Slice f.now.inputs (Contains (expansions_of wide.now)) (Contains (seeds_of wide.now))) s) }
{
    let mut found = Vec::new(alloc);
    let size = count_nodes(f) as u32;
    for n in 0..size {
        add_found(f, wide, NodeId(n), &mut found)?;
    }
    Ok(found)
}

// The same statements, in order, each once.
fn put_in_order(found: &mut Vec<Statement>)
    ensures order { AllPairs StatementBefore found.new.items }
    ensures members { (s : Statement) → Contains found.new.items s ↔ Contains found.old.items s }
{
    found.sort_unstable();
    found.dedup();
}

/// The statements of a widened slice, in order, each once. It costs a look at each node of the facts, and the order.
pub fn statements_of(alloc: Global, f: &Facts, wide: &Wide) -> Result<Vec<Statement>, NoMemory>
    requires { IsWide f.now wide.now }
    ensures { IfOk result (λ v. IsOrderedListOf StatementBefore v.items (StatementsOf f.now.inputs (Slice f.now.inputs (Contains (expansions_of wide.now)) (Contains (seeds_of wide.now))))) }
{
    let mut found = collect(alloc, f, wide)?;
    put_in_order(&mut found);
    Ok(found)
}
