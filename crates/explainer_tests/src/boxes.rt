// A box that passes through a method, beside another one, their nodes and edges written by hand from their code.

use crate::parts::{access_of, add_values, site};
use checked_facts::program::Heap;
use dep_form::access::Access;
use dep_form::facts::Facts;
use dep_form::node::{Edge, Node};
use slice_tests::examples::{back, base, call, thin};
use slice_tests::long_program::{LongProgram, no_heap};
use slicer_ids::ids::{LocId, NoMemory, NodeId, SiteId, Statement};
use slicer_ids::list::List;
use std::alloc::Global;

// Box.<init>: aload_0, Object.<init>, return.
fn add_constructor(program: &mut LongProgram) -> Result<bool, NoMemory> {
    let nodes = [
        Node::Formal(0),
        Node::Own(0),
        Node::Own(1),
        Node::Argument(1, 0),
        Node::Own(4),
    ];
    let edges = [thin(0, 1), thin(1, 3), call(0, 10, 0), call(2, 26, 0)];
    program.add(&nodes, &edges, &no_heap())
}

// Nodes 5 to 30.
fn main_nodes() -> [Node; 26] {
    [
        Node::Formal(0),
        Node::HeapIn(LocId(0)),
        Node::Own(0),
        Node::Own(3),
        Node::Own(4),
        Node::Argument(4, 0),
        Node::Own(7),
        Node::Own(8),
        Node::Own(9),
        Node::Argument(9, 0),
        Node::Result(9),
        Node::Own(12),
        Node::Own(13),
        Node::Own(14),
        Node::Own(16),
        Node::Own(19),
        Node::Own(20),
        Node::Own(23),
        Node::Own(24),
        Node::Own(27),
        Node::Own(28),
        Node::Argument(28, 0),
        Node::Own(31),
        Node::Own(34),
        Node::Own(36),
        Node::HeapOut(LocId(0)),
    ]
}

fn main_edges() -> [Edge; 17] {
    [
        call(3, 35, 5),
        call(3, 36, 6),
        thin(7, 10),
        thin(7, 11),
        thin(11, 12),
        thin(12, 14),
        back(1, 34, 15),
        thin(15, 16),
        thin(11, 17),
        base(17, 19),
        thin(18, 19),
        thin(16, 20),
        base(20, 21),
        thin(21, 22),
        thin(23, 26),
        base(23, 27),
        thin(27, 28),
    ]
}

// The points are the instructions in order.
const MAIN_FLOW: &[(u32, u32)] = &[
    (0, 1),
    (1, 2),
    (2, 3),
    (3, 4),
    (4, 5),
    (5, 6),
    (6, 7),
    (7, 8),
    (8, 9),
    (9, 10),
    (10, 11),
    (11, 12),
    (12, 13),
    (13, 14),
    (14, 15),
    (15, 16),
    (16, 17),
    (17, 18),
];

fn add_main(program: &mut LongProgram) -> Result<bool, NoMemory> {
    let nodes = main_nodes();
    let edges = main_edges();
    let heap = Heap {
        points: 19,
        flow: MAIN_FLOW,
        puts: &[(9, NodeId(19), LocId(0))],
        gets: &[(11, NodeId(21), LocId(0))],
    };
    program.add(&nodes, &edges, &heap)
}

// pass (LBox;)LBox;: aload_0, areturn.
fn add_pass(program: &mut LongProgram) -> Result<bool, NoMemory> {
    let nodes = [Node::Formal(0), Node::Own(0), Node::Own(1), Node::Return];
    let edges = [call(1, 14, 31), thin(31, 32), thin(32, 33), thin(33, 34)];
    program.add(&nodes, &edges, &no_heap())
}

fn add_root(program: &mut LongProgram) -> Result<bool, NoMemory> {
    let nodes = [
        Node::Argument(0, 0),
        Node::HeapArg(0, LocId(0)),
        Node::HeapResult(0, LocId(0)),
    ];
    let edges = [back(3, 30, 37), thin(37, 36)];
    program.add(&nodes, &edges, &no_heap())
}

// The boxes that 16 puts into and that 20 reads are the first one; that of 31 is the second one.
fn accesses(alloc: Global) -> Result<Vec<(Statement, Access)>, NoMemory> {
    let mut accesses = Vec::new(alloc);
    accesses.push(access_of(alloc, 1, 16, 17, &[SiteId(0)])?)?;
    accesses.push(access_of(alloc, 1, 20, 20, &[SiteId(0)])?)?;
    accesses.push(access_of(alloc, 1, 31, 23, &[SiteId(2)])?)?;
    Ok(accesses)
}

// What statements push, store, pass on, hand to calls or get from them. The constructor is called for both boxes.
fn values(alloc: Global) -> Result<Vec<(Statement, List<SiteId>)>, NoMemory> {
    let both: &[SiteId] = &[SiteId(0), SiteId(2)];
    let first: &[SiteId] = &[SiteId(0)];
    let second: &[SiteId] = &[SiteId(2)];
    let mut values = Vec::new(alloc);
    add_values(alloc, &mut values, 0, &[(0, both), (1, both)])?;
    let listed = [
        (0, first),
        (4, first),
        (7, first),
        (8, first),
        (9, first),
        (12, first),
        (13, first),
        (19, first),
        (24, second),
        (28, second),
    ];
    add_values(alloc, &mut values, 1, &listed)?;
    add_values(alloc, &mut values, 2, &[(0, first), (1, first)])?;
    Ok(values)
}

/// Box.<init>, 0; main, 1: new Box, dup, 4: Box.<init>, 7: astore_1, 8: aload_1, 9: pass, 12: astore_2, 13: aload_1, bipush 7, 16: putfield
/// v, 19: aload_2, 20: getfield v, 23: istore_3, 24: new Box, dup, 28: Box.<init>, 31: getfield v, 34: istore 4, return; pass, 2: aload_0,
/// areturn. The sites are those of 0, of 9, which nothing outside makes, and of 24.
pub fn passed_box(alloc: Global) -> Result<Option<Facts>, NoMemory> {
    let mut program = LongProgram::new(alloc);
    add_constructor(&mut program)?;
    add_main(&mut program)?;
    add_pass(&mut program)?;
    add_root(&mut program)?;
    let mut sites = Vec::new(alloc);
    sites.push(site(alloc, b"Box", 1, 0)?)?;
    sites.push(site(alloc, b"Box", 1, 9)?)?;
    sites.push(site(alloc, b"Box", 1, 24)?)?;
    let accesses = accesses(alloc)?;
    let values = values(alloc)?;
    program.facts(&[NodeId(30), NodeId(34)], sites, accesses, values)
}
