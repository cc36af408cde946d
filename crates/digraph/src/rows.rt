// What is reached from each node, as rows of bits.
ghost use Rattle.std.specs.Prelude.{◌≡◌, ◌<◌, ◌≤◌, ◌+◌, ◌*◌, ◌/◌, ◌↔◌, ◌⊎◌, ◌++◌, ◌∷◌, [], ℕ, length, vec_len, IsTrue, IfOk, OnOk};
ghost use Rattle.digraph.specs.Graphs.{targets};
ghost use Rattle.digraph.specs.Orders.{IsOrder};
ghost use Rattle.digraph.specs.Rows.{HasBit, IsRowOf, HaveRows, AreRows};

use slicer_ids::ids::NoMemory;
use std::alloc::Global;

/// Whether a row has the bit of a node.
pub fn has_bit(row: &[u64], node: u32) -> bool
    ensures { IsTrue result ↔ HasBit row.now node }
{
    let word = node as usize / 64;
    if word >= row.len() {
        return false;
    }
    (row[word] >> (node % 64)) & 1 == 1
}

// Adds the bit of a node.
fn set_bit(row: &mut Vec<u64>, node: u32)
    requires { node / 64 < vec_len row.old }
    ensures len { vec_len row.new ≡ vec_len row.old }
    ensures bits { (b : ℕ) → HasBit row.new.items b ↔ (HasBit row.old.items b ⊎ (b ≡ node)) }
{
    row[node as usize / 64] |= 1 << (node % 64);
}

// Adds the bits of another row.
fn add_row(row: &mut Vec<u64>, other: &[u64])
    requires { length other.now ≡ vec_len row.old }
    ensures len { vec_len row.new ≡ vec_len row.old }
    ensures bits { (b : ℕ) → HasBit row.new.items b ↔ (HasBit row.old.items b ⊎ HasBit other.now b) }
{
    for i in 0..other.len() {
        row[i] |= other[i];
    }
}

// As many words without bits.
fn no_bits(alloc: Global, words: usize) -> Result<Vec<u64>, NoMemory>
    ensures len { IfOk result (λ row. vec_len row ≡ words) }
    ensures none { IfOk result (λ row. (b : ℕ) → HasBit row.items b → ⊥) }
{
    match vec![in alloc; 0u64; words] {
        Ok(row) => Ok(row),
        Err(_) => Err(NoMemory),
    }
}

// The row of a node, from those of the nodes to which its edges lead.
fn row_of(
    alloc: Global,
    graph: &[Vec<u32>],
    rows: &[Vec<u64>],
    node: u32,
    words: usize,
) -> Result<Vec<u64>, NoMemory>
    requires node { node < length graph.now }
    requires words { length graph.now ≤ 64 * words }
    requires rows { HaveRows graph.now rows.now words (targets graph.now node) }
    ensures len { IfOk result (λ row. vec_len row ≡ words) }
    ensures row { IfOk result (λ row. IsRowOf graph.now row.items node) }
{
    let mut row = no_bits(alloc, words)?;
    set_bit(&mut row, node);
    let edges = graph[node as usize].as_slice();
    for target in edges {
        let other = rows[*target as usize].as_slice();
        add_row(&mut row, other);
    }
    Ok(row)
}

// As many rows without words.
fn no_rows(alloc: Global, len: usize) -> Result<Vec<Vec<u64>>, NoMemory>
    ensures { IfOk result (λ rows. vec_len rows ≡ len) }
{
    let mut rows = Vec::new(alloc);
    for _ in 0..len {
        push_row(&mut rows, Vec::new(alloc))?;
    }
    Ok(rows)
}

// Adds a row.
fn push_row(rows: &mut Vec<Vec<u64>>, row: Vec<u64>) -> Result<(), NoMemory>
    ensures { OnOk result (rows.new.items ≡ rows.old.items ++ row ∷ []) }
{
    match rows.push(row) {
        Ok(()) => Ok(()),
        Err(_) => Err(NoMemory),
    }
}

/// For each node, the nodes to which edges lead from it, itself among them, as a row of bits.
/// Takes one word for 64 nodes and node, and as many steps for each edge.
pub fn reach_rows(
    alloc: Global,
    graph: &[Vec<u32>],
    order: &[u32],
) -> Result<Vec<Vec<u64>>, NoMemory>
    requires { IsOrder graph.now order.now }
    ensures { IfOk result (λ rows. AreRows graph.now rows.items) }
{
    let words = graph.len() / 64 + 1;
    let mut rows = no_rows(alloc, graph.len())?;
    for node in order {
        let row = row_of(alloc, graph, &rows, *node, words)?;
        rows[*node as usize] = row;
    }
    Ok(rows)
}
