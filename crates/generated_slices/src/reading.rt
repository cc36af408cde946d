// Slices of many seeds over one set of edges, read off its same-level paths.

use dep_form::node::{Edge, Label};
use plain_slice::edges::are_below;
use plain_slice::levels::levels;
use plain_slice::table::Pair;
use slicer_ids::ids::NoMemory;
use std::alloc::Global;

/// Edges, and the pairs of nodes with a same-level path from the first to the second: what takes the most time, and is the same for
/// all seeds.
#[derive(Drop)]
pub struct Reading {
    size: usize,
    edges: Vec<Edge>,
    levels: Vec<Pair>,
}

/// Which edges between methods a walk goes back along.
#[derive(Clone, Copy, Drop)]
enum Phase {
    Up,
    Down,
}

fn may_go(phase: Phase, label: Label) -> bool {
    match phase {
        Phase::Up => matches!(label, Label::Call(_)),
        Phase::Down => matches!(label, Label::Return(_)),
    }
}

fn is_marked(marks: &[bool], n: u32) -> bool {
    marks.get(n as usize).copied().unwrap_or(false)
}

fn mark(marks: &mut [bool], n: u32) {
    if let Some(slot) = marks.get_mut(n as usize) {
        *slot = true;
    }
}

// Back along each same-level path.
fn jump(marks: &mut [bool], levels: &[Pair]) {
    for level in levels {
        if is_marked(marks, level.place) {
            mark(marks, level.node);
        }
    }
}

// Back along each edge of the phase.
fn go(marks: &mut [bool], edges: &[Edge], phase: Phase) {
    for edge in edges {
        if may_go(phase, edge.label) && is_marked(marks, edge.to.0) {
            mark(marks, edge.from.0);
        }
    }
}

// The same-level paths of these edges; none where their nodes aren't below the size, or the size is great.
fn paths_of(alloc: Global, size: usize, edges: &[Edge]) -> Result<Option<Vec<Pair>>, NoMemory> {
    if size >= 1 << 16 {
        return Ok(None);
    }
    if !are_below(size, edges) {
        return Ok(None);
    }
    let paths = levels(alloc, size, edges)?;
    Ok(Some(paths))
}

/// The reading of these edges, whose nodes are below the size; none where they aren't.
pub fn read(alloc: Global, size: usize, edges: Vec<Edge>) -> Result<Option<Reading>, NoMemory> {
    match paths_of(alloc, size, &edges)? {
        Some(levels) => Ok(Some(Reading {
            size,
            edges,
            levels,
        })),
        None => Ok(None),
    }
}

impl Reading {
    // Until nothing is added: a walk that comes to a new node by each step has fewer steps than there are nodes.
    fn walk(&self, marks: &mut [bool], phase: Phase) {
        for _ in 0..self.size {
            jump(marks, &self.levels);
            go(marks, &self.edges, phase);
        }
        jump(marks, &self.levels);
    }

    /// The nodes of the slice of a seed, in order.
    pub fn slice(&self, alloc: Global, seed: u32) -> Result<Vec<u32>, NoMemory> {
        let mut marks = vec![in alloc; false; self.size]?;
        mark(&mut marks, seed);
        self.walk(&mut marks, Phase::Up);
        self.walk(&mut marks, Phase::Down);
        marked(alloc, &marks)
    }

    /// The edges.
    pub fn edges(&self) -> &[Edge] {
        self.edges.as_slice()
    }
}

fn marked(alloc: Global, marks: &[bool]) -> Result<Vec<u32>, NoMemory> {
    let mut nodes = Vec::new(alloc);
    let mut n = 0u32;
    for is_in in marks {
        if *is_in {
            nodes.push(n)?;
        }
        n = n.saturating_add(1);
    }
    Ok(nodes)
}
