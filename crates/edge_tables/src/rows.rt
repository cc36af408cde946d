// Rows of nodes, and the numbers of their first ones.
ghost use Rattle.std.specs.Prelude.{◌≡◌, ◌<◌, ◌≤◌, ◌+◌, ◌^◌, ◌↔◌, ◌++◌, ◌∷◌, [], ℕ, true, AllPairs, Contains, IfOk, OnOk, Some, drop, length, slice_get, sum_by};
ghost use Rattle.std.specs.Global.{Vec};
ghost use Rattle.dep_form.specs.declared.node.Node.{Node};
ghost use Rattle.dep_form.specs.Nodes.{ComesBefore, is_exit, is_formal};
ghost use Rattle.edge_tables.specs.Rows.{AreFirsts, AreRows, IsRow, size_of};

use crate::scene::Row;
use dep_form::node::Node;
use slicer_ids::ids::{MethodId, NoMemory};
use std::alloc::Global;

fn push(firsts: &mut Vec<u32>, first: u32) -> Result<(), NoMemory>
    ensures { OnOk result (firsts.new.items ≡ firsts.old.items ++ first ∷ []) }
{
    match firsts.push(first) {
        Ok(()) => Ok(()),
        Err(_) => Err(NoMemory),
    }
}

/// For each row how many nodes the rows before it have: the number of its first node.
pub fn firsts_of(alloc: Global, rows: &[Vec<Node>]) -> Result<Vec<u32>, NoMemory>
    requires { sum_by size_of rows.now ≤ 2 ^ 24 }
    ensures { IfOk result (λ v. AreFirsts rows.now v.items) }
{
    let mut firsts = Vec::new(alloc);
    let mut next = 0;
    for row in rows {
        push(&mut firsts, next)?;
        next += row.len() as u32;
    }
    Ok(firsts)
}

fn first_at(firsts: &[u32], number: usize) -> u32
    requires { number < length firsts.now }
    ensures { slice_get firsts.now number ≡ Some result }
{
    firsts[number]
}

fn nodes_at(rows: &[Vec<Node>], number: usize) -> &[Node]
    requires { number < length rows.now }
    ensures { (row : Vec Node) × (slice_get rows.now number ≡ Some row) × (row.items ≡ result.now) }
{
    rows[number].as_slice()
}

/// The row of a method.
pub fn row_of<'a>(rows: &'a [Vec<Node>], firsts: &[u32], m: MethodId) -> Row<'a>
    requires rows { AreRows rows.now firsts.now }
    requires number { m.0 < length rows.now }
    ensures row { IsRow rows.now firsts.now m result.first result.nodes.now }
    ensures order { AllPairs ComesBefore result.nodes.now }
    ensures numbers { result.first + length result.nodes.now ≤ 2 ^ 24 }
{
    let first = first_at(firsts, m.0 as usize);
    let nodes = nodes_at(rows, m.0 as usize);
    Row { first, nodes }
}

fn is_formal(node: Node) -> bool
    ensures { result ≡ is_formal node }
{
    match node {
        Node::Formal(_) => true,
        Node::HeapIn(_) => true,
        _ => false,
    }
}

fn is_exit(node: Node) -> bool
    ensures { result ≡ is_exit node }
{
    match node {
        Node::Return => true,
        Node::Thrown => true,
        Node::HeapOut(_) => true,
        _ => false,
    }
}

/// The formals among nodes in their order: they come first.
pub fn formals_of(nodes: &[Node]) -> &[Node]
    requires { AllPairs ComesBefore nodes.now }
    ensures { (k : Node) → Contains result.now k ↔ (Contains nodes.now k × (is_formal k ≡ true)) }
{
    let count = nodes.partition_point(|k| is_formal(*k));
    &nodes[..count]
}

// The nodes without so many at their front.
fn behind(nodes: &[Node], start: usize) -> &[Node]
    requires { start ≤ length nodes.now }
    ensures { result.now ≡ drop start nodes.now }
{
    &nodes[start..]
}

/// The exits: they come last.
pub fn exits_of(nodes: &[Node]) -> &[Node]
    requires { AllPairs ComesBefore nodes.now }
    ensures { (k : Node) → Contains result.now k ↔ (Contains nodes.now k × (is_exit k ≡ true)) }
{
    let count = nodes.partition_point(|k| !is_exit(*k));
    behind(nodes, count)
}
