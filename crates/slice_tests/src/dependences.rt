// Small programs with exceptions, arrays, static fields, dispatch and outside calls, their nodes and edges written by hand from their
// code.

use crate::examples::{access, back, base, call, thin};
use checked_facts::program::{Heap, SmallProgram};
use dep_form::facts::Facts;
use dep_form::node::{Edge, Node};
use slicer_ids::ids::{LocId, NoMemory, NodeId};
use std::alloc::Global;

/// boom (LE;)V: aload_0, athrow. main: new E, dup, E.<init>, 7: boom, 10: new E, dup, E.<init>, 17: athrow, 18: astore_1, aload_1, pop,
/// return, with a handler at 18 for all that 7 to 17 throw. E.<init>: aload_0, Exception.<init>, return.
pub fn exceptions(alloc: Global) -> Result<Option<Facts>, NoMemory> {
    let mut program = SmallProgram::new(alloc);
    add_constructor(&mut program)?;
    add_thrower(&mut program)?;
    add_catcher(&mut program)?;
    add_catcher_root(&mut program)?;
    program.facts(&[NodeId(8)], Vec::new(alloc), Vec::new(alloc))
}

fn add_constructor(program: &mut SmallProgram) -> Result<bool, NoMemory> {
    let nodes = [
        Node::Formal(0),
        Node::Own(0),
        Node::Own(1),
        Node::Argument(1, 0),
        Node::Own(4),
    ];
    let edges = [thin(0, 1), thin(1, 3), call(0, 13, 0), call(2, 20, 0)];
    program.add(&nodes, &edges)
}

fn add_thrower(program: &mut SmallProgram) -> Result<bool, NoMemory> {
    let nodes = [Node::Formal(0), Node::Own(0), Node::Own(1), Node::Thrown];
    let edges = [thin(5, 6), thin(6, 7), thin(7, 8), call(1, 15, 5)];
    program.add(&nodes, &edges)
}

fn add_catcher(program: &mut SmallProgram) -> Result<bool, NoMemory> {
    let nodes = [
        Node::Formal(0),
        Node::Own(0),
        Node::Own(3),
        Node::Own(4),
        Node::Argument(4, 0),
        Node::Own(7),
        Node::Argument(7, 0),
        Node::Exception(7),
        Node::Own(10),
        Node::Own(13),
        Node::Own(14),
        Node::Argument(14, 0),
        Node::Own(17),
        Node::Own(18),
        Node::Own(19),
        Node::Own(20),
        Node::Own(21),
    ];
    let edges = [
        thin(10, 13),
        thin(10, 15),
        back(1, 8, 16),
        thin(17, 20),
        thin(17, 21),
        thin(16, 22),
        thin(21, 22),
        thin(22, 23),
        call(3, 26, 9),
    ];
    program.add(&nodes, &edges)
}

fn add_catcher_root(program: &mut SmallProgram) -> Result<bool, NoMemory> {
    let nodes = [Node::Argument(0, 0)];
    program.add(&nodes, &[])
}

/// main: iconst_1, newarray, 3: astore_1, aload_1, iconst_0, 6: bipush 9, 8: iastore, iconst_1, newarray, 12: astore_2, aload_1, iconst_0,
/// aload_2, iconst_0, iconst_1, 18: arraycopy, 21: aload_2, iconst_0, iaload, 24: istore_3, return. The locations are the elements of
/// the one array and of the other.
pub fn array_copies(alloc: Global) -> Result<Option<Facts>, NoMemory> {
    let mut program = SmallProgram::new(alloc);
    add_copier(&mut program)?;
    add_copier_root(&mut program)?;
    let mut accesses = Vec::new(alloc);
    accesses.push(access(alloc, 0, 8, 6)?)?;
    accesses.push(access(alloc, 0, 23, 24)?)?;
    program.facts(&[NodeId(29), NodeId(30)], accesses, Vec::new(alloc))
}

fn copier_nodes() -> [Node; 31] {
    [
        Node::Formal(0),
        Node::HeapIn(LocId(0)),
        Node::HeapIn(LocId(1)),
        Node::Own(0),
        Node::Own(1),
        Node::Own(3),
        Node::Own(4),
        Node::Own(5),
        Node::Own(6),
        Node::Own(8),
        Node::Own(9),
        Node::Own(10),
        Node::Own(12),
        Node::Own(13),
        Node::Own(14),
        Node::Own(15),
        Node::Own(16),
        Node::Own(17),
        Node::Own(18),
        Node::Argument(18, 0),
        Node::Argument(18, 1),
        Node::Argument(18, 2),
        Node::Argument(18, 3),
        Node::Argument(18, 4),
        Node::Own(21),
        Node::Own(22),
        Node::Own(23),
        Node::Own(24),
        Node::Own(25),
        Node::HeapOut(LocId(0)),
        Node::HeapOut(LocId(1)),
    ]
}

fn copier_edges() -> [Edge; 27] {
    [
        thin(3, 4),
        thin(4, 5),
        thin(5, 6),
        base(6, 9),
        base(7, 9),
        thin(8, 9),
        thin(10, 11),
        thin(11, 12),
        thin(5, 13),
        thin(12, 15),
        thin(13, 19),
        thin(14, 20),
        thin(15, 21),
        thin(16, 22),
        thin(17, 23),
        thin(19, 18),
        thin(20, 18),
        thin(21, 18),
        thin(22, 18),
        thin(23, 18),
        thin(12, 24),
        base(24, 26),
        base(25, 26),
        thin(26, 27),
        call(0, 31, 0),
        call(0, 32, 1),
        call(0, 33, 2),
    ]
}

const COPIER_FLOW: &[(u32, u32)] = &[
    (0, 1),
    (1, 2),
    (2, 3),
    (3, 4),
    (4, 5),
    (5, 6),
    (6, 7),
    (7, 8),
    (8, 9),
    (9, 10),
    (10, 11),
    (11, 12),
    (12, 13),
    (13, 14),
    (14, 15),
    (15, 16),
    (16, 17),
    (17, 18),
    (18, 19),
    (19, 20),
];

fn add_copier(program: &mut SmallProgram) -> Result<bool, NoMemory> {
    let heap = Heap {
        points: 21,
        flow: COPIER_FLOW,
        puts: &[
            (6, NodeId(9), LocId(0)),
            (15, NodeId(18), LocId(0)),
            (15, NodeId(18), LocId(1)),
        ],
        gets: &[
            (15, NodeId(18), LocId(0)),
            (15, NodeId(18), LocId(1)),
            (18, NodeId(26), LocId(1)),
        ],
    };
    let nodes = copier_nodes();
    let edges = copier_edges();
    program.add_with_heap(&nodes, &edges, &heap)
}

fn add_copier_root(program: &mut SmallProgram) -> Result<bool, NoMemory> {
    let nodes = [
        Node::Argument(0, 0),
        Node::HeapArg(0, LocId(0)),
        Node::HeapArg(0, LocId(1)),
        Node::HeapResult(0, LocId(0)),
        Node::HeapResult(0, LocId(1)),
    ];
    let edges = [back(0, 29, 34), thin(34, 32), back(0, 30, 35), thin(35, 33)];
    program.add(&nodes, &edges)
}

/// K.<clinit>: bipush 5, putstatic K.n, return. main: getstatic K.n, 3: istore_1, return. The root calls both.
pub fn initializers(alloc: Global) -> Result<Option<Facts>, NoMemory> {
    let mut program = SmallProgram::new(alloc);
    add_initializer(&mut program)?;
    add_static_reader(&mut program)?;
    add_initializer_root(&mut program)?;
    program.facts(&[NodeId(3)], Vec::new(alloc), Vec::new(alloc))
}

fn add_initializer(program: &mut SmallProgram) -> Result<bool, NoMemory> {
    let nodes = [
        Node::Own(0),
        Node::Own(2),
        Node::Own(5),
        Node::HeapOut(LocId(0)),
    ];
    let edges = [thin(0, 1)];
    let heap = Heap {
        points: 3,
        flow: &[(0, 1), (1, 2)],
        puts: &[(1, NodeId(1), LocId(0))],
        gets: &[],
    };
    program.add_with_heap(&nodes, &edges, &heap)
}

fn add_static_reader(program: &mut SmallProgram) -> Result<bool, NoMemory> {
    let nodes = [
        Node::Formal(0),
        Node::HeapIn(LocId(0)),
        Node::Own(0),
        Node::Own(3),
        Node::Own(4),
    ];
    let edges = [thin(6, 7), call(1, 10, 4), call(1, 11, 5)];
    let heap = Heap {
        points: 3,
        flow: &[(0, 1), (1, 2)],
        puts: &[],
        gets: &[(0, NodeId(6), LocId(0))],
    };
    program.add_with_heap(&nodes, &edges, &heap)
}

fn add_initializer_root(program: &mut SmallProgram) -> Result<bool, NoMemory> {
    let nodes = [
        Node::HeapResult(0, LocId(0)),
        Node::Argument(1, 0),
        Node::HeapArg(1, LocId(0)),
    ];
    let edges = [back(0, 3, 9), thin(9, 11)];
    program.add(&nodes, &edges)
}

/// A.get ()I: iconst_1, ireturn. B.get ()I: iconst_2, ireturn. main: new B, dup, B.<init>, 7: astore_1, aload_1, 9: A.get, 12: istore_2,
/// 13: new A, dup, A.<init>, 20: A.get, 23: istore_3, return. The constructors: aload_0, that of the superclass, return.
pub fn dispatch(alloc: Global) -> Result<Option<Facts>, NoMemory> {
    let mut program = SmallProgram::new(alloc);
    add_first_constructor(&mut program)?;
    add_first_getter(&mut program)?;
    add_second_constructor(&mut program)?;
    add_second_getter(&mut program)?;
    add_dispatcher(&mut program)?;
    add_dispatcher_root(&mut program)?;
    program.facts(&[NodeId(8), NodeId(17)], Vec::new(alloc), Vec::new(alloc))
}

fn add_first_constructor(program: &mut SmallProgram) -> Result<bool, NoMemory> {
    let nodes = [
        Node::Formal(0),
        Node::Own(0),
        Node::Own(1),
        Node::Argument(1, 0),
        Node::Own(4),
    ];
    let edges = [thin(0, 1), thin(1, 3), call(0, 12, 0), call(3, 32, 0)];
    program.add(&nodes, &edges)
}

fn add_first_getter(program: &mut SmallProgram) -> Result<bool, NoMemory> {
    let nodes = [Node::Formal(0), Node::Own(0), Node::Own(1), Node::Return];
    let edges = [thin(6, 7), thin(7, 8), call(4, 34, 5)];
    program.add(&nodes, &edges)
}

fn add_second_constructor(program: &mut SmallProgram) -> Result<bool, NoMemory> {
    let nodes = [
        Node::Formal(0),
        Node::Own(0),
        Node::Own(1),
        Node::Argument(1, 0),
        Node::Own(4),
    ];
    let edges = [thin(9, 10), thin(10, 12), call(1, 22, 9)];
    program.add(&nodes, &edges)
}

fn add_second_getter(program: &mut SmallProgram) -> Result<bool, NoMemory> {
    let nodes = [Node::Formal(0), Node::Own(0), Node::Own(1), Node::Return];
    let edges = [thin(15, 16), thin(16, 17), call(2, 26, 14)];
    program.add(&nodes, &edges)
}

fn add_dispatcher(program: &mut SmallProgram) -> Result<bool, NoMemory> {
    let nodes = [
        Node::Formal(0),
        Node::Own(0),
        Node::Own(3),
        Node::Own(4),
        Node::Argument(4, 0),
        Node::Own(7),
        Node::Own(8),
        Node::Own(9),
        Node::Argument(9, 0),
        Node::Result(9),
        Node::Own(12),
        Node::Own(13),
        Node::Own(16),
        Node::Own(17),
        Node::Argument(17, 0),
        Node::Own(20),
        Node::Argument(20, 0),
        Node::Result(20),
        Node::Own(23),
        Node::Own(24),
    ];
    let edges = [
        thin(19, 22),
        thin(19, 23),
        thin(23, 24),
        thin(24, 26),
        back(2, 17, 27),
        thin(27, 28),
        thin(29, 32),
        thin(29, 34),
        back(4, 8, 35),
        thin(35, 36),
        call(5, 38, 18),
    ];
    program.add(&nodes, &edges)
}

fn add_dispatcher_root(program: &mut SmallProgram) -> Result<bool, NoMemory> {
    let nodes = [Node::Argument(0, 0)];
    program.add(&nodes, &[])
}

/// main: ldc "a,b", ldc ",", 4: String.split, iconst_0, 8: aaload, 9: String.length, 12: istore_1, return. The locations are the state of
/// the first string, which the call may change, and the elements of the array that it answers.
pub fn outside_arrays(alloc: Global) -> Result<Option<Facts>, NoMemory> {
    let mut program = SmallProgram::new(alloc);
    add_splitter(&mut program)?;
    add_splitter_root(&mut program)?;
    let mut accesses = Vec::new(alloc);
    accesses.push(access(alloc, 0, 8, 8)?)?;
    program.facts(&[NodeId(16), NodeId(17)], accesses, Vec::new(alloc))
}

fn splitter_nodes() -> [Node; 18] {
    [
        Node::Formal(0),
        Node::HeapIn(LocId(0)),
        Node::HeapIn(LocId(1)),
        Node::Own(0),
        Node::Own(2),
        Node::Own(4),
        Node::Argument(4, 0),
        Node::Argument(4, 1),
        Node::Result(4),
        Node::Own(7),
        Node::Own(8),
        Node::Own(9),
        Node::Argument(9, 0),
        Node::Result(9),
        Node::Own(12),
        Node::Own(13),
        Node::HeapOut(LocId(0)),
        Node::HeapOut(LocId(1)),
    ]
}

fn add_splitter(program: &mut SmallProgram) -> Result<bool, NoMemory> {
    let nodes = splitter_nodes();
    let edges = [
        thin(3, 6),
        thin(4, 7),
        thin(6, 8),
        thin(7, 8),
        thin(7, 5),
        base(8, 10),
        base(9, 10),
        thin(10, 12),
        thin(12, 13),
        thin(13, 14),
        call(0, 18, 0),
        call(0, 19, 1),
        call(0, 20, 2),
    ];
    let heap = Heap {
        points: 8,
        flow: &[(0, 1), (1, 2), (2, 3), (3, 4), (4, 5), (5, 6), (6, 7)],
        puts: &[(2, NodeId(5), LocId(0)), (2, NodeId(8), LocId(1))],
        gets: &[(2, NodeId(8), LocId(0)), (4, NodeId(10), LocId(1))],
    };
    program.add_with_heap(&nodes, &edges, &heap)
}

fn add_splitter_root(program: &mut SmallProgram) -> Result<bool, NoMemory> {
    let nodes = [
        Node::Argument(0, 0),
        Node::HeapArg(0, LocId(0)),
        Node::HeapArg(0, LocId(1)),
        Node::HeapResult(0, LocId(0)),
        Node::HeapResult(0, LocId(1)),
    ];
    let edges = [back(0, 16, 21), thin(21, 19), back(0, 17, 22), thin(22, 20)];
    program.add(&nodes, &edges)
}
