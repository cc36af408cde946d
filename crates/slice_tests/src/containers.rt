// A program that puts what it made into a container outside of the folder, and takes it out again, its nodes and edges written by hand
// from its code.

use crate::examples::{access, back, base, call, thin};
use checked_facts::program::{Heap, SmallProgram};
use dep_form::facts::Facts;
use dep_form::node::{Edge, Node};
use slicer_ids::ids::{LocId, NoMemory, NodeId};
use std::alloc::Global;

/// main: new StringBuilder, dup, 4: StringBuilder.<init>, ldc "n=", 9: append, aload_0, 13: arraylength, 14: append, 17: toString,
/// 20: astore_1, 21: new ArrayList, dup, 25: ArrayList.<init>, 28: astore_2, 29: aload_2, 30: aload_1, 31: add, pop, 35: aload_2,
/// iconst_0, 37: get, 40: checkcast, 43: astore_3, 44: getstatic, 47: aload_3, 48: println, return. All that it calls is outside.
///
/// The values that append and toString answer may be any string or builder before them, and what get answers may be all of these and
/// the list itself. The locations are the states of the builder, of the text, of what the first append answers afresh, of the list and
/// of the stream that prints; the states of all else that is read are written nowhere.
pub fn containers(alloc: Global) -> Result<Option<Facts>, NoMemory> {
    let mut program = SmallProgram::new(alloc);
    add_filler(alloc, &mut program)?;
    add_filler_root(&mut program)?;
    let mut accesses = Vec::new(alloc);
    accesses.push(access(alloc, 0, 13, 15)?)?;
    let exits = [NodeId(51), NodeId(52), NodeId(53), NodeId(54), NodeId(55)];
    program.facts(&exits, accesses, Vec::new(alloc))
}

// Nodes 0 to 24: what is there on entry, and the text that is made.
fn text_nodes() -> [Node; 25] {
    [
        Node::Formal(0),
        Node::HeapIn(LocId(0)),
        Node::HeapIn(LocId(1)),
        Node::HeapIn(LocId(2)),
        Node::HeapIn(LocId(3)),
        Node::HeapIn(LocId(4)),
        Node::Own(0),
        Node::Own(3),
        Node::Own(4),
        Node::Argument(4, 0),
        Node::Own(7),
        Node::Own(9),
        Node::Argument(9, 0),
        Node::Argument(9, 1),
        Node::Result(9),
        Node::Own(12),
        Node::Own(13),
        Node::Own(14),
        Node::Argument(14, 0),
        Node::Argument(14, 1),
        Node::Result(14),
        Node::Own(17),
        Node::Argument(17, 0),
        Node::Result(17),
        Node::Own(20),
    ]
}

// Nodes 25 to 44: the list, the text that goes into it, and what comes out of it.
fn list_nodes() -> [Node; 20] {
    [
        Node::Own(21),
        Node::Own(24),
        Node::Own(25),
        Node::Argument(25, 0),
        Node::Own(28),
        Node::Own(29),
        Node::Own(30),
        Node::Own(31),
        Node::Argument(31, 0),
        Node::Argument(31, 1),
        Node::Result(31),
        Node::Own(34),
        Node::Own(35),
        Node::Own(36),
        Node::Own(37),
        Node::Argument(37, 0),
        Node::Argument(37, 1),
        Node::Result(37),
        Node::Own(40),
        Node::Own(43),
    ]
}

// Nodes 45 to 55: what is printed, and what is there in the end.
fn last_nodes() -> [Node; 11] {
    [
        Node::Own(44),
        Node::Own(47),
        Node::Own(48),
        Node::Argument(48, 0),
        Node::Argument(48, 1),
        Node::Own(51),
        Node::HeapOut(LocId(0)),
        Node::HeapOut(LocId(1)),
        Node::HeapOut(LocId(2)),
        Node::HeapOut(LocId(3)),
        Node::HeapOut(LocId(4)),
    ]
}

// What enters the method, and how the text comes about.
fn text_edges() -> [Edge; 25] {
    [
        call(0, 56, 0),
        call(0, 57, 1),
        call(0, 58, 2),
        call(0, 59, 3),
        call(0, 60, 4),
        call(0, 61, 5),
        thin(6, 9),
        thin(6, 12),
        thin(10, 13),
        thin(12, 14),
        thin(13, 14),
        thin(13, 11),
        thin(0, 15),
        base(15, 16),
        thin(14, 18),
        thin(16, 19),
        thin(18, 20),
        thin(19, 20),
        thin(19, 17),
        thin(20, 22),
        thin(22, 23),
        thin(23, 24),
        thin(25, 28),
        thin(25, 29),
        thin(24, 31),
    ]
}

// How it goes into the list and comes out of it, and what is printed.
fn list_edges() -> [Edge; 17] {
    [
        thin(29, 30),
        thin(30, 33),
        thin(31, 34),
        thin(33, 35),
        thin(34, 35),
        thin(34, 32),
        thin(29, 37),
        thin(37, 40),
        thin(38, 41),
        thin(40, 42),
        thin(41, 42),
        thin(41, 39),
        thin(42, 43),
        thin(43, 44),
        thin(44, 46),
        thin(45, 48),
        thin(46, 49),
    ]
}

// The points are the instructions in order.
const FLOW: &[(u32, u32)] = &[
    (0, 1),
    (1, 2),
    (2, 3),
    (3, 4),
    (4, 5),
    (5, 6),
    (6, 7),
    (7, 8),
    (8, 9),
    (9, 10),
    (10, 11),
    (11, 12),
    (12, 13),
    (13, 14),
    (14, 15),
    (15, 16),
    (16, 17),
    (17, 18),
    (18, 19),
    (19, 20),
    (20, 21),
    (21, 22),
    (22, 23),
    (23, 24),
    (24, 25),
    (25, 26),
];

// The first append writes the builder's state; the second one that of each receiver that it may have; add and get write the list's, and
// println the stream's.
const PUTS: &[(u32, NodeId, LocId)] = &[
    (4, NodeId(11), LocId(0)),
    (7, NodeId(17), LocId(0)),
    (7, NodeId(17), LocId(1)),
    (7, NodeId(17), LocId(2)),
    (16, NodeId(32), LocId(3)),
    (20, NodeId(39), LocId(3)),
    (25, NodeId(47), LocId(4)),
];

// A call's result uses the states of its receivers and of its other arguments, and the call itself those of what it writes.
const GETS: &[(u32, NodeId, LocId)] = &[
    (4, NodeId(11), LocId(1)),
    (4, NodeId(14), LocId(0)),
    (4, NodeId(14), LocId(1)),
    (7, NodeId(20), LocId(0)),
    (7, NodeId(20), LocId(1)),
    (7, NodeId(20), LocId(2)),
    (8, NodeId(23), LocId(0)),
    (8, NodeId(23), LocId(1)),
    (8, NodeId(23), LocId(2)),
    (16, NodeId(32), LocId(0)),
    (16, NodeId(32), LocId(1)),
    (16, NodeId(32), LocId(2)),
    (16, NodeId(35), LocId(0)),
    (16, NodeId(35), LocId(1)),
    (16, NodeId(35), LocId(2)),
    (16, NodeId(35), LocId(3)),
    (20, NodeId(42), LocId(3)),
    (25, NodeId(47), LocId(0)),
    (25, NodeId(47), LocId(1)),
    (25, NodeId(47), LocId(2)),
    (25, NodeId(47), LocId(3)),
];

fn add_filler(alloc: Global, program: &mut SmallProgram) -> Result<bool, NoMemory> {
    let mut nodes = Vec::new(alloc);
    nodes.extend_from_slice(&text_nodes())?;
    nodes.extend_from_slice(&list_nodes())?;
    nodes.extend_from_slice(&last_nodes())?;
    let mut edges = Vec::new(alloc);
    edges.extend_from_slice(&text_edges())?;
    edges.extend_from_slice(&list_edges())?;
    edges.push(thin(49, 47))?;
    let heap = Heap {
        points: 27,
        flow: FLOW,
        puts: PUTS,
        gets: GETS,
    };
    program.add_with_heap(&nodes, &edges, &heap)
}

fn add_filler_root(program: &mut SmallProgram) -> Result<bool, NoMemory> {
    let nodes = [
        Node::Argument(0, 0),
        Node::HeapArg(0, LocId(0)),
        Node::HeapArg(0, LocId(1)),
        Node::HeapArg(0, LocId(2)),
        Node::HeapArg(0, LocId(3)),
        Node::HeapArg(0, LocId(4)),
        Node::HeapResult(0, LocId(0)),
        Node::HeapResult(0, LocId(1)),
        Node::HeapResult(0, LocId(2)),
        Node::HeapResult(0, LocId(3)),
        Node::HeapResult(0, LocId(4)),
    ];
    let edges = [
        back(0, 51, 62),
        back(0, 52, 63),
        back(0, 53, 64),
        back(0, 54, 65),
        back(0, 55, 66),
        thin(62, 57),
        thin(63, 58),
        thin(64, 59),
        thin(65, 60),
        thin(66, 61),
    ];
    program.add(&nodes, &edges)
}
