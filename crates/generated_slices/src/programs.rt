// Programs that are made from numbers.

use crate::calls::{Wires, add_calls};
use crate::flows::{Accesses, Expansion, add_accesses, add_thin};
use crate::methods::{Draft, Sizes, make_method, make_root};
use crate::numbers::Numbers;
use checked_facts::nodes::is_exit;
use checked_facts::program::Heap;
use dep_form::facts::Facts;
use dep_form::node::Edge;
use slice_tests::long_program::LongProgram;
use slicer_ids::ids::{NoMemory, NodeId};
use std::alloc::Global;

/// A program that is made from a number, and its accesses.
#[derive(Drop)]
pub struct Program {
    /// None where the parts don't fit together.
    pub facts: Option<Facts>,
    pub expansions: Vec<Expansion>,
}

// The more methods, the smaller they are.
fn sizes_of(methods: u32) -> Sizes {
    match methods {
        2 => Sizes {
            statements: 3,
            calls: 2,
            locations: 2,
        },
        3 => Sizes {
            statements: 3,
            calls: 1,
            locations: 1,
        },
        _ => Sizes {
            statements: 2,
            calls: 1,
            locations: 1,
        },
    }
}

// The count as a number of 32 bits, or the greatest of these.
fn number(count: usize) -> u32 {
    if count < u32::MAX as usize {
        count as u32
    } else {
        u32::MAX
    }
}

// The number of the first node after a method.
fn end_of(draft: &Draft) -> u32 {
    draft.first.saturating_add(number(draft.nodes.len()))
}

// So many methods, their nodes numbered on.
fn make_methods(
    alloc: Global,
    numbers: &mut Numbers,
    sizes: Sizes,
    count: u32,
) -> Result<Vec<Draft>, NoMemory> {
    let mut methods = Vec::new(alloc);
    let mut first = 0;
    for _ in 0..count {
        let draft = make_method(alloc, numbers, sizes, first)?;
        first = end_of(&draft);
        methods.push(draft)?;
    }
    Ok(methods)
}

// The number of the first node after all methods.
fn end_of_all(methods: &[Draft]) -> u32 {
    match methods.last() {
        Some(last) => end_of(last),
        None => 0,
    }
}

// The edges of all calls, and all thin edges.
fn wire(
    alloc: Global,
    numbers: &mut Numbers,
    methods: &[Draft],
    root: &Draft,
) -> Result<Vec<Edge>, NoMemory> {
    let mut wires = Wires {
        edges: Vec::new(alloc),
        next: 0,
    };
    for draft in methods {
        add_calls(numbers, &mut wires, methods, draft)?;
        add_thin(alloc, numbers, draft, &mut wires.edges)?;
    }
    add_calls(numbers, &mut wires, methods, root)?;
    add_thin(alloc, numbers, root, &mut wires.edges)?;
    let Wires { edges, .. } = wires;
    Ok(edges)
}

// The accesses of all methods, with their base edges.
fn access_all(
    alloc: Global,
    numbers: &mut Numbers,
    methods: &[Draft],
    edges: &mut Vec<Edge>,
) -> Result<Accesses, NoMemory> {
    let mut accesses = Accesses {
        listed: Vec::new(alloc),
        expansions: Vec::new(alloc),
    };
    let mut method = 0u32;
    for draft in methods {
        add_accesses(alloc, numbers, method, draft, edges, &mut accesses)?;
        method = method.saturating_add(1);
    }
    Ok(accesses)
}

// The edges that end in a node of the method.
fn ending_in(alloc: Global, draft: &Draft, edges: &[Edge]) -> Result<Vec<Edge>, NoMemory> {
    let mut direct = Vec::new(alloc);
    for edge in edges {
        if draft.first <= edge.to.0 && edge.to.0 < end_of(draft) {
            direct.push(*edge)?;
        }
    }
    Ok(direct)
}

fn add_draft(
    alloc: Global,
    program: &mut LongProgram,
    draft: &Draft,
    edges: &[Edge],
) -> Result<bool, NoMemory> {
    let direct = ending_in(alloc, draft, edges)?;
    let heap = Heap {
        points: draft.control.points,
        flow: &draft.control.flow,
        puts: &draft.control.puts,
        gets: &draft.control.gets,
    };
    program.add(&draft.nodes, &direct, &heap)
}

// Whether all methods and the root could be added.
fn add_drafts(
    alloc: Global,
    program: &mut LongProgram,
    methods: &[Draft],
    root: &Draft,
    edges: &[Edge],
) -> Result<bool, NoMemory> {
    for draft in methods {
        if !add_draft(alloc, program, draft, edges)? {
            return Ok(false);
        }
    }
    add_draft(alloc, program, root, edges)
}

fn add_exits(exits: &mut Vec<NodeId>, draft: &Draft) -> Result<(), NoMemory> {
    let mut n = draft.first;
    for node in draft.nodes.as_slice() {
        if is_exit(*node) {
            exits.push(NodeId(n))?;
        }
        n = n.saturating_add(1);
    }
    Ok(())
}

// The exits of all methods.
fn exits_of(alloc: Global, methods: &[Draft]) -> Result<Vec<NodeId>, NoMemory> {
    let mut exits = Vec::new(alloc);
    for draft in methods {
        add_exits(&mut exits, draft)?;
    }
    Ok(exits)
}

/// The program of a number: two to four methods and a root, with some 20 to 35 nodes.
pub fn make_program(alloc: Global, number: u32) -> Result<Program, NoMemory> {
    let mut numbers = Numbers::new(number);
    let count = numbers.below(3).saturating_add(2);
    let sizes = sizes_of(count);
    let methods = make_methods(alloc, &mut numbers, sizes, count)?;
    let root = make_root(alloc, &mut numbers, sizes, end_of_all(&methods))?;
    let mut edges = wire(alloc, &mut numbers, &methods, &root)?;
    let accesses = access_all(alloc, &mut numbers, &methods, &mut edges)?;
    let Accesses { listed, expansions } = accesses;
    let mut program = LongProgram::new(alloc);
    if !add_drafts(alloc, &mut program, &methods, &root, &edges)? {
        return Ok(Program {
            facts: None,
            expansions,
        });
    }
    let exits = exits_of(alloc, &methods)?;
    let facts = program.facts(&exits, Vec::new(alloc), listed, Vec::new(alloc))?;
    Ok(Program { facts, expansions })
}
