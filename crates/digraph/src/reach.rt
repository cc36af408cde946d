// Which nodes of a graph are reached from one.
ghost use Rattle.std.specs.Prelude.{◌≡◌, ◌<◌, ◌↔◌, ℕ, true, if◌then◌else◌, ◌++◌, ◌∷◌, [], length, All, OnOk, IfOk, slice_set, slice_index_or, vec_len};
ghost use Rattle.slicer_ids.specs.Walks.{Leads};
ghost use Rattle.digraph.specs.Graphs.{HasEdge, IsGraph, IsMarked, is_marked};

use std::alloc::{AllocError, Global};

// Marks a node, and adds it to the work if it had no mark.
fn mark(marks: &mut Vec<bool>, work: &mut Vec<u32>, node: u32) -> Result<(), AllocError>
    requires { node < vec_len marks.old }
    ensures marks { OnOk result (marks.new.items ≡ slice_set marks.old.items node true) }
    ensures len { vec_len marks.new ≡ vec_len marks.old }
    ensures work { OnOk result (work.new.items ≡ (if is_marked marks.old.items node then work.old.items else work.old.items ++ node ∷ [])) }
{
    if !marks[node as usize] {
        marks[node as usize] = true;
        work.push(node)?;
    }
    Ok(())
}

// The nodes that are reached from `start`. Each edge is followed once.
pub fn reached(alloc: Global, graph: &[Vec<u32>], start: u32) -> Result<Vec<bool>, AllocError>
    requires graph { IsGraph graph.now }
    requires start { start < length graph.now }
    ensures len { IfOk result (λ marks. length marks.items ≡ length graph.now) }
    ensures exact { IfOk result (λ marks. (n : ℕ) → IsMarked marks.items n ↔ Leads (HasEdge graph.now) start n) }
{
    let mut marks = vec![in alloc; false; graph.len()]?;
    let mut work = Vec::new(alloc);
    mark(&mut marks, &mut work, start)?;
    while let Some(node) = work.pop() {
        for target in &graph[node as usize] {
            mark(&mut marks, &mut work, *target)?;
        }
    }
    Ok(marks)
}
