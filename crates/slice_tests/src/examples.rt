// Small programs, their nodes and edges written by hand from their code.

use checked_facts::program::{Heap, SmallProgram};
use dep_form::access::Access;
use dep_form::facts::Facts;
use dep_form::node::{Edge, Label, Node};
use slicer_ids::ids::{CallId, LocId, MethodId, NoMemory, NodeId, Statement};
use slicer_ids::list::List;
use std::alloc::Global;

fn edge(from: u32, to: u32, label: Label) -> Edge {
    Edge {
        from: NodeId(from),
        to: NodeId(to),
        label,
    }
}

/// A flow of a value.
pub fn thin(from: u32, to: u32) -> Edge {
    edge(from, to, Label::Thin)
}

/// A use of a base pointer or an index.
pub fn base(from: u32, to: u32) -> Edge {
    edge(from, to, Label::Base)
}

/// What a call hands to a formal.
pub fn call(c: u32, from: u32, to: u32) -> Edge {
    edge(from, to, Label::Call(CallId(c)))
}

/// What a call gets back.
pub fn back(c: u32, from: u32, to: u32) -> Edge {
    edge(from, to, Label::Return(CallId(c)))
}

/// The facts, with a root that calls methods without arguments.
pub fn whole(
    alloc: Global,
    mut program: SmallProgram,
    exits: &[NodeId],
    accesses: Vec<(Statement, Access)>,
) -> Result<Option<Facts>, NoMemory> {
    program.add(&[], &[])?;
    program.facts(exits, accesses, Vec::new(alloc))
}

/// id (I)I: iload_0, ireturn. main: iconst_1, id, istore_1, iconst_2, id, istore_2.
pub fn two_calls(alloc: Global) -> Result<Option<Facts>, NoMemory> {
    let mut program = SmallProgram::new(alloc);
    let nodes = [Node::Formal(0), Node::Own(0), Node::Own(1), Node::Return];
    let edges = [
        thin(0, 1),
        thin(1, 2),
        thin(2, 3),
        call(0, 6, 0),
        call(1, 11, 0),
    ];
    program.add(&nodes, &edges)?;
    let nodes = [
        Node::Own(0),
        Node::Own(1),
        Node::Argument(1, 0),
        Node::Result(1),
        Node::Own(4),
        Node::Own(5),
        Node::Own(6),
        Node::Argument(6, 0),
        Node::Result(6),
        Node::Own(9),
    ];
    let edges = [
        thin(4, 6),
        back(0, 3, 7),
        thin(7, 8),
        thin(9, 11),
        back(1, 3, 12),
        thin(12, 13),
    ];
    program.add(&nodes, &edges)?;
    whole(alloc, program, &[NodeId(3)], Vec::new(alloc))
}

/// rec (I)I: iload_0, ifne 6, iconst_5, ireturn, 6: iload_0, iconst_1, isub, invokestatic rec, ireturn. main: iconst_3, rec.
pub fn recursion(alloc: Global) -> Result<Option<Facts>, NoMemory> {
    let mut program = SmallProgram::new(alloc);
    add_recursive(&mut program)?;
    add_first_caller(&mut program)?;
    whole(alloc, program, &[NodeId(12)], Vec::new(alloc))
}

fn add_recursive(program: &mut SmallProgram) -> Result<bool, NoMemory> {
    let nodes = [
        Node::Formal(0),
        Node::Own(0),
        Node::Own(1),
        Node::Own(4),
        Node::Own(5),
        Node::Own(6),
        Node::Own(7),
        Node::Own(8),
        Node::Own(9),
        Node::Argument(9, 0),
        Node::Result(9),
        Node::Own(12),
        Node::Return,
    ];
    let edges = [
        thin(0, 1),
        thin(1, 2),
        thin(3, 4),
        thin(4, 12),
        thin(0, 5),
        thin(5, 7),
        thin(6, 7),
        thin(7, 9),
        thin(10, 11),
        thin(11, 12),
        call(0, 9, 0),
        back(0, 12, 10),
        call(1, 15, 0),
    ];
    program.add(&nodes, &edges)
}

fn add_first_caller(program: &mut SmallProgram) -> Result<bool, NoMemory> {
    let nodes = [
        Node::Own(0),
        Node::Own(1),
        Node::Argument(1, 0),
        Node::Result(1),
    ];
    let edges = [thin(13, 15), back(1, 12, 16)];
    program.add(&nodes, &edges)
}

/// The statement of a method at a pc.
pub fn at(method: u32, pc: u16) -> Statement {
    Statement {
        method: MethodId(method),
        pc,
    }
}

/// An access whose object is produced at a node.
pub fn access(
    alloc: Global,
    method: u32,
    pc: u16,
    object: u32,
) -> Result<(Statement, Access), NoMemory> {
    let object = vec![in alloc; NodeId(object)]?;
    let access = Access {
        object: List::from_vec(object),
        sites: List::from_vec(Vec::new(alloc)),
    };
    Ok((at(method, pc), access))
}

/// set (LBox;I)V: aload_0, iload_1, putfield v, return. main: new Box, astore_1, aload_1, iconst_5, set, aload_1, getfield v, istore_2.
pub fn field_written_by_a_call(alloc: Global) -> Result<Option<Facts>, NoMemory> {
    let mut program = SmallProgram::new(alloc);
    add_setter(&mut program)?;
    add_reader(&mut program)?;
    let mut accesses = Vec::new(alloc);
    accesses.push(access(alloc, 0, 2, 2)?)?;
    accesses.push(access(alloc, 1, 12, 14)?)?;
    whole(alloc, program, &[NodeId(5)], accesses)
}

/// Adds the method that writes a field, as the first one.
pub fn add_setter(program: &mut SmallProgram) -> Result<bool, NoMemory> {
    let nodes = [
        Node::Formal(0),
        Node::Formal(1),
        Node::Own(0),
        Node::Own(1),
        Node::Own(2),
        Node::HeapOut(LocId(0)),
    ];
    let edges = [
        thin(0, 2),
        thin(1, 3),
        base(2, 4),
        thin(3, 4),
        call(0, 11, 0),
        call(0, 12, 1),
    ];
    let heap = Heap {
        points: 4,
        flow: &[(0, 1), (1, 2), (2, 3)],
        puts: &[(2, NodeId(4), LocId(0))],
        gets: &[],
    };
    program.add_with_heap(&nodes, &edges, &heap)
}

/// Adds the method that calls it and reads the field.
pub fn add_reader(program: &mut SmallProgram) -> Result<bool, NoMemory> {
    let nodes = [
        Node::Own(0),
        Node::Own(3),
        Node::Own(6),
        Node::Own(7),
        Node::Own(8),
        Node::Argument(8, 0),
        Node::Argument(8, 1),
        Node::HeapResult(8, LocId(0)),
        Node::Own(11),
        Node::Own(12),
        Node::Own(15),
    ];
    let edges = [
        thin(6, 7),
        thin(7, 8),
        thin(8, 11),
        thin(9, 12),
        back(0, 5, 13),
        thin(7, 14),
        base(14, 15),
        thin(15, 16),
    ];
    let heap = Heap {
        points: 8,
        flow: &[(0, 1), (1, 2), (2, 3), (3, 4), (4, 5), (5, 6), (6, 7)],
        puts: &[(4, NodeId(13), LocId(0))],
        gets: &[(6, NodeId(15), LocId(0))],
    };
    program.add_with_heap(&nodes, &edges, &heap)
}
