// A search in depth for an order in which each edge leads back.
ghost use Rattle.std.specs.Prelude.{◌≡◌, ◌<◌, ◌≤◌, ◌+◌, ◌^◌, ℕ, [], ◌∷◌, ◌++◌, true, false, length, slice_set, slice_index, replicate, map, OnOk, IfOk, IfSome, MatchOption};
ghost use Rattle.std.specs.Bool.{OnTrue, OnFalse};
ghost use Rattle.digraph.specs.Graphs.{IsGraph, IsMarked, is_marked};
ghost use Rattle.digraph.specs.Orders.{IsOrder, IsOnCycle};
ghost use Rattle.digraph.specs.Searches.{IsSearch, steps_left};

use slicer_ids::ids::NoMemory;
use std::alloc::{AllocError, Global};

// The state of a search.
#[derive(Drop)]
struct Search {
    // nodes whose edges were all followed
    done: Vec<bool>,
    // nodes that were met
    met: Vec<bool>,
    // how many edges of each node are still to be followed
    left: Vec<usize>,
    order: Vec<u32>,
    // a path of met nodes that aren't done
    stack: Vec<u32>,
}

// Adds a node to a list.
fn push(nodes: &mut Vec<u32>, node: u32) -> Result<(), NoMemory>
    ensures { OnOk result (nodes.new.items ≡ nodes.old.items ++ node ∷ []) }
{
    match nodes.push(node) {
        Ok(()) => Ok(()),
        Err(_) => Err(NoMemory),
    }
}

impl Search {
    // No node was met yet.
    fn new(alloc: Global, graph: &[Vec<u32>]) -> Result<Search, NoMemory>
        ensures { IfOk result (λ s. IsSearch graph.now s.done.items s.met.items s.left.items s.order.items [] × (s.stack.items ≡ [])) }
    {
        let done = marks(alloc, graph.len())?;
        let met = marks(alloc, graph.len())?;
        let left = degrees(alloc, graph)?;
        Ok(Search {
            done,
            met,
            left,
            order: Vec::new(alloc),
            stack: Vec::new(alloc),
        })
    }

    // Follows one edge of a node that was taken from the stack, or finishes it. False where the edge closes a cycle.
    fn advance(&mut self, graph: &[Vec<u32>], node: u32) -> Result<bool, NoMemory>
        requires graph { IsGraph graph.now }
        requires search { IsSearch graph.now self.old.done.items self.old.met.items self.old.left.items self.old.order.items (self.old.stack.items ++ node ∷ []) }
        ensures search { IfOk result (λ going. OnTrue going (IsSearch graph.now self.new.done.items self.new.met.items self.new.left.items self.new.order.items self.new.stack.items)) }
        ensures fewer { IfOk result (λ going. OnTrue going
            (steps_left self.new.met.items self.new.left.items self.new.stack.items < steps_left self.old.met.items self.old.left.items (self.old.stack.items ++ node ∷ []))) }
        ensures cyclic { IfOk result (λ going. OnFalse going ((n : ℕ) × (n < length graph.now) × IsOnCycle graph.now n)) }
        ensures stays { IfOk result (λ going. (n : ℕ) → IsMarked self.old.met.items n → IsMarked self.new.met.items n) }
    {
        let left = self.left[node as usize];
        if left == 0 {
            self.done[node as usize] = true;
            push(&mut self.order, node)?;
            return Ok(true);
        }
        let target = graph[node as usize][left - 1];
        if self.done[target as usize] {
            self.left[node as usize] = left - 1;
            push(&mut self.stack, node)?;
            return Ok(true);
        }
        if self.met[target as usize] {
            return Ok(false);
        }
        self.met[target as usize] = true;
        push(&mut self.stack, node)?;
        push(&mut self.stack, target)?;
        Ok(true)
    }

    // Follows all that leads from a node. False where that closes a cycle.
    fn visit(&mut self, graph: &[Vec<u32>], start: u32) -> Result<bool, NoMemory>
        requires graph { IsGraph graph.now }
        requires start { start < length graph.now }
        requires search { IsSearch graph.now self.old.done.items self.old.met.items self.old.left.items self.old.order.items [] × (self.old.stack.items ≡ []) }
        ensures search { IfOk result (λ going. OnTrue going (IsSearch graph.now self.new.done.items self.new.met.items self.new.left.items self.new.order.items [] × (self.new.stack.items ≡ []))) }
        ensures met { IfOk result (λ going. OnTrue going (IsMarked self.new.met.items start × ((n : ℕ) → IsMarked self.old.met.items n → IsMarked self.new.met.items n))) }
        ensures cyclic { IfOk result (λ going. OnFalse going ((n : ℕ) × (n < length graph.now) × IsOnCycle graph.now n)) }
    {
        if self.met[start as usize] {
            return Ok(true);
        }
        self.met[start as usize] = true;
        push(&mut self.stack, start)?;
        while let Some(node) = self.stack.pop() {
            if !self.advance(graph, node)? {
                return Ok(false);
            }
        }
        Ok(true)
    }
}

// As many marks that aren't set.
fn marks(alloc: Global, len: usize) -> Result<Vec<bool>, NoMemory>
    ensures { IfOk result (λ v. v.items ≡ replicate len false) }
{
    match vec![in alloc; false; len] {
        Ok(marks) => Ok(marks),
        Err(_) => Err(NoMemory),
    }
}

// How many edges each node has.
fn degrees(alloc: Global, graph: &[Vec<u32>]) -> Result<Vec<usize>, NoMemory>
    ensures { IfOk result (λ v. v.items ≡ map (λ row. length row.items) graph.now) }
{
    let degrees: Result<Vec<usize>, AllocError> = graph.iter().map(|row| row.len()).collect(alloc);
    match degrees {
        Ok(degrees) => Ok(degrees),
        Err(_) => Err(NoMemory),
    }
}

/// An order of the nodes in which each edge leads back; none where edges lead from some node back to itself.
/// Each edge is followed at most twice.
pub fn find_order(alloc: Global, graph: &[Vec<u32>]) -> Result<Option<Vec<u32>>, NoMemory>
    requires graph { IsGraph graph.now }
    requires few { length graph.now < 2 ^ 32 }
    ensures { IfOk result (λ found. MatchOption found ((n : ℕ) × (n < length graph.now) × IsOnCycle graph.now n) (λ order. IsOrder graph.now order.items)) }
{
    let mut search = Search::new(alloc, graph)?;
    for start in 0..graph.len() {
        if !search.visit(graph, start as u32)? {
            return Ok(None);
        }
    }
    let Search {
        done: _,
        met: _,
        left: _,
        order,
        stack: _,
    } = search;
    Ok(Some(order))
}
