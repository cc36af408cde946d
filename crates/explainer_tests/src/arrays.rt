// An array that is one of two, its nodes and edges written by hand from its code.

use crate::parts::{access_of, add_values, root_site, site};
use checked_facts::program::Heap;
use dep_form::access::Access;
use dep_form::facts::Facts;
use dep_form::node::{Edge, Node};
use slice_tests::examples::{back, base, call, thin};
use slice_tests::long_program::{LongProgram, no_heap};
use slicer_ids::ids::{LocId, NoMemory, NodeId, SiteId, Statement};
use slicer_ids::list::List;
use std::alloc::Global;

fn main_nodes() -> [Node; 25] {
    [
        Node::Formal(0),
        Node::HeapIn(LocId(0)),
        Node::Own(0),
        Node::Own(1),
        Node::Own(3),
        Node::Own(4),
        Node::Own(5),
        Node::Own(7),
        Node::Own(8),
        Node::Own(9),
        Node::Own(10),
        Node::Own(13),
        Node::Own(14),
        Node::Own(17),
        Node::Own(18),
        Node::Own(19),
        Node::Own(20),
        Node::Own(21),
        Node::Own(23),
        Node::Own(24),
        Node::Own(25),
        Node::Own(26),
        Node::Own(27),
        Node::Own(29),
        Node::HeapOut(LocId(0)),
    ]
}

fn main_edges() -> [Edge; 21] {
    [
        call(0, 25, 0),
        call(0, 26, 1),
        thin(2, 3),
        thin(3, 4),
        thin(5, 6),
        thin(6, 7),
        thin(0, 8),
        base(8, 9),
        thin(9, 10),
        thin(4, 11),
        thin(7, 13),
        thin(11, 14),
        thin(13, 14),
        thin(14, 15),
        base(15, 18),
        base(16, 18),
        thin(17, 18),
        thin(4, 19),
        base(19, 21),
        base(20, 21),
        thin(21, 22),
    ]
}

// The points are the instructions in order. 10 goes on to 13 or to 17, and 14 to 18.
const MAIN_FLOW: &[(u32, u32)] = &[
    (0, 1),
    (1, 2),
    (2, 3),
    (3, 4),
    (4, 5),
    (5, 6),
    (6, 7),
    (7, 8),
    (8, 9),
    (8, 11),
    (9, 10),
    (10, 12),
    (11, 12),
    (12, 13),
    (13, 14),
    (14, 15),
    (15, 16),
    (16, 17),
    (17, 18),
    (18, 19),
    (19, 20),
    (20, 21),
];

fn add_main(program: &mut LongProgram) -> Result<bool, NoMemory> {
    let nodes = main_nodes();
    let edges = main_edges();
    let heap = Heap {
        points: 22,
        flow: MAIN_FLOW,
        puts: &[(16, NodeId(18), LocId(0))],
        gets: &[(19, NodeId(21), LocId(0))],
    };
    program.add(&nodes, &edges, &heap)
}

fn add_root(program: &mut LongProgram) -> Result<bool, NoMemory> {
    let nodes = [
        Node::Argument(0, 0),
        Node::HeapArg(0, LocId(0)),
        Node::HeapResult(0, LocId(0)),
    ];
    let edges = [back(0, 24, 27), thin(27, 26)];
    program.add(&nodes, &edges, &no_heap())
}

// The array of 9 is the one that main is given, that of 23 one of the two, that of 26 the first.
fn accesses(alloc: Global) -> Result<Vec<(Statement, Access)>, NoMemory> {
    let mut accesses = Vec::new(alloc);
    accesses.push(access_of(alloc, 0, 9, 8, &[SiteId(2)])?)?;
    accesses.push(access_of(alloc, 0, 23, 15, &[SiteId(0), SiteId(1)])?)?;
    accesses.push(access_of(alloc, 0, 26, 19, &[SiteId(0)])?)?;
    Ok(accesses)
}

// What statements push, store or read; the others' values are numbers.
fn values(alloc: Global) -> Result<Vec<(Statement, List<SiteId>)>, NoMemory> {
    let both: &[SiteId] = &[SiteId(0), SiteId(1)];
    let first: &[SiteId] = &[SiteId(0)];
    let second: &[SiteId] = &[SiteId(1)];
    let given: &[SiteId] = &[SiteId(2)];
    let mut values = Vec::new(alloc);
    let listed = [
        (1, first),
        (3, first),
        (5, second),
        (7, second),
        (8, given),
        (13, first),
        (17, second),
        (18, both),
        (19, both),
        (24, first),
    ];
    add_values(alloc, &mut values, 0, &listed)?;
    Ok(values)
}

/// main: iconst_1, 1: newarray, 3: astore_1, iconst_2, 5: newarray, 7: astore_2, 8: aload_0, 9: arraylength, 10: ifeq 17, 13: aload_1, 14:
/// goto 18, 17: aload_2, 18: astore_3, 19: aload_3, iconst_0, bipush 9, 23: iastore, 24: aload_1, iconst_0, 26: iaload, 27: istore 4,
/// return. The sites are those of 1 and 5, and the array that main is given; the location is the elements of the first.
pub fn one_of_two(alloc: Global) -> Result<Option<Facts>, NoMemory> {
    let mut program = LongProgram::new(alloc);
    add_main(&mut program)?;
    add_root(&mut program)?;
    let mut sites = Vec::new(alloc);
    sites.push(site(alloc, b"[I", 0, 1)?)?;
    sites.push(site(alloc, b"[I", 0, 5)?)?;
    sites.push(root_site(alloc)?)?;
    let accesses = accesses(alloc)?;
    let values = values(alloc)?;
    program.facts(&[NodeId(24)], sites, accesses, values)
}
