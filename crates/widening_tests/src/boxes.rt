// A box that a method makes, fills and reads, its nodes and edges written by hand from its code.

use checked_facts::program::Heap;
use dep_form::access::Access;
use dep_form::facts::Facts;
use dep_form::node::{Edge, Node};
use slice_tests::examples::{access, back, base, call, thin};
use slice_tests::long_program::{LongProgram, no_heap};
use slicer_ids::ids::{LocId, NoMemory, NodeId, Statement};
use std::alloc::Global;

// Box.<init>: aload_0, Object.<init>, return.
fn add_constructor(program: &mut LongProgram) -> Result<bool, NoMemory> {
    let nodes = [
        Node::Formal(0),
        Node::Own(0),
        Node::Own(1),
        Node::Argument(1, 0),
        Node::Own(4),
    ];
    let edges = [thin(0, 1), thin(1, 3), call(0, 10, 0)];
    program.add(&nodes, &edges, &no_heap())
}

// Nodes 5 to 19.
fn filler_nodes() -> [Node; 15] {
    [
        Node::Formal(0),
        Node::HeapIn(LocId(0)),
        Node::Own(0),
        Node::Own(3),
        Node::Own(4),
        Node::Argument(4, 0),
        Node::Own(7),
        Node::Own(8),
        Node::Own(9),
        Node::Own(11),
        Node::Own(14),
        Node::Own(15),
        Node::Own(18),
        Node::Own(19),
        Node::HeapOut(LocId(0)),
    ]
}

// The points are the instructions in order: 11 is the sixth one behind the first, and 15 the eighth.
const FILLER_FLOW: &[(u32, u32)] = &[
    (0, 1),
    (1, 2),
    (2, 3),
    (3, 4),
    (4, 5),
    (5, 6),
    (6, 7),
    (7, 8),
    (8, 9),
    (9, 10),
];

// new Box, dup, 4: Box.<init>, 7: astore_1, 8: aload_1, 9: bipush 7, 11: putfield v, 14: aload_1, 15: getfield v, 18: istore_2, return.
fn add_filler(program: &mut LongProgram, root: u32) -> Result<bool, NoMemory> {
    let nodes = filler_nodes();
    let edges: [Edge; 10] = [
        thin(7, 10),
        thin(7, 11),
        thin(11, 12),
        base(12, 14),
        thin(13, 14),
        thin(11, 15),
        base(15, 16),
        thin(16, 17),
        call(1, root, 5),
        call(1, root.saturating_add(1), 6),
    ];
    let heap = Heap {
        points: 11,
        flow: FILLER_FLOW,
        puts: &[(6, NodeId(14), LocId(0))],
        gets: &[(8, NodeId(16), LocId(0))],
    };
    program.add(&nodes, &edges, &heap)
}

/// Adds the constructor of the box and the method that makes, fills and reads one, as the first two methods: 20 nodes. The first node
/// of the root is named.
pub fn add_box(program: &mut LongProgram, root: u32) -> Result<bool, NoMemory> {
    add_constructor(program)?;
    add_filler(program, root)
}

/// Adds the root, from this node on: what it hands to the method, and what the box holds at its start and at its end.
pub fn add_root(program: &mut LongProgram, first: u32) -> Result<bool, NoMemory> {
    let nodes = [
        Node::Argument(0, 0),
        Node::HeapArg(0, LocId(0)),
        Node::HeapResult(0, LocId(0)),
    ];
    let held = first.saturating_add(2);
    let edges = [back(1, 19, held), thin(held, first.saturating_add(1))];
    program.add(&nodes, &edges, &no_heap())
}

/// The two accesses of the box: 11 puts into it, and 15 reads it.
pub fn box_accesses(alloc: Global) -> Result<Vec<(Statement, Access)>, NoMemory> {
    let mut accesses = Vec::new(alloc);
    accesses.push(access(alloc, 1, 11, 12)?)?;
    accesses.push(access(alloc, 1, 15, 15)?)?;
    Ok(accesses)
}

/// The constructor, the method and the root, and nothing else.
pub fn boxed(alloc: Global) -> Result<Option<Facts>, NoMemory> {
    let mut program = LongProgram::new(alloc);
    add_box(&mut program, 20)?;
    add_root(&mut program, 20)?;
    let accesses = box_accesses(alloc)?;
    program.facts(&[NodeId(19)], Vec::new(alloc), accesses, Vec::new(alloc))
}
