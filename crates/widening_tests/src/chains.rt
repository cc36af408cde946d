// A long chain of calls beside a box.

use crate::boxes::{add_box, add_root, box_accesses};
use dep_form::facts::Facts;
use dep_form::node::Node;
use slice_tests::examples::{back, call, thin};
use slice_tests::long_program::{LongProgram, no_heap};
use slicer_ids::ids::{NoMemory, NodeId};
use std::alloc::Global;

/// How many methods of the chain call the next one.
const LINKS: u32 = 99;

/// The first node of a method of the chain: before the chain there are 20 nodes, and each method of it but the last has seven.
fn first_of(link: u32) -> u32 {
    link.saturating_mul(7).saturating_add(20)
}

/// The number of the call that enters a method of the chain; those of the box are 0 and 1.
fn entry_of(link: u32) -> u32 {
    link.saturating_add(2)
}

/// The argument of the call that enters a method of the chain.
fn argument_of(link: u32) -> u32 {
    match link {
        0 => first_of(LINKS).saturating_add(6),
        _ => first_of(link.saturating_sub(1)).saturating_add(3),
    }
}

/// The node of what a method of the chain answers.
fn answer_of(link: u32) -> u32 {
    if link < LINKS {
        first_of(link).saturating_add(6)
    } else {
        first_of(link).saturating_add(3)
    }
}

// iload_0, invokestatic of the next method, ireturn.
fn add_link(program: &mut LongProgram, link: u32) -> Result<bool, NoMemory> {
    let nodes = [
        Node::Formal(0),
        Node::Own(0),
        Node::Own(1),
        Node::Argument(1, 0),
        Node::Result(1),
        Node::Own(4),
        Node::Return,
    ];
    let first = first_of(link);
    let next = link.saturating_add(1);
    let argument = argument_of(next);
    let result = first.saturating_add(4);
    let edges = [
        thin(first, first.saturating_add(1)),
        thin(first.saturating_add(1), argument),
        back(entry_of(next), answer_of(next), result),
        thin(result, first.saturating_add(5)),
        thin(first.saturating_add(5), answer_of(link)),
        call(entry_of(link), argument_of(link), first),
    ];
    program.add(&nodes, &edges, &no_heap())
}

// iload_0, ireturn.
fn add_last(program: &mut LongProgram) -> Result<bool, NoMemory> {
    let nodes = [Node::Formal(0), Node::Own(0), Node::Own(1), Node::Return];
    let first = first_of(LINKS);
    let edges = [
        thin(first, first.saturating_add(1)),
        thin(first.saturating_add(1), first.saturating_add(2)),
        thin(first.saturating_add(2), answer_of(LINKS)),
        call(entry_of(LINKS), argument_of(LINKS), first),
    ];
    program.add(&nodes, &edges, &no_heap())
}

// iconst_1, invokestatic of the first method, istore_1.
fn add_caller(program: &mut LongProgram) -> Result<bool, NoMemory> {
    let nodes = [
        Node::Own(0),
        Node::Own(1),
        Node::Argument(1, 0),
        Node::Result(1),
        Node::Own(4),
    ];
    let argument = argument_of(0);
    let result = argument.saturating_add(1);
    let edges = [
        thin(argument.saturating_sub(2), argument),
        back(entry_of(0), answer_of(0), result),
        thin(result, result.saturating_add(1)),
    ];
    program.add(&nodes, &edges, &no_heap())
}

// What the box holds at the end of its method, and what each method of the chain answers.
fn exits(alloc: Global) -> Result<Vec<NodeId>, NoMemory> {
    let mut exits = Vec::new(alloc);
    exits.push(NodeId(19))?;
    for link in 0..LINKS {
        exits.push(NodeId(answer_of(link)))?;
    }
    exits.push(NodeId(answer_of(LINKS)))?;
    Ok(exits)
}

/// The methods of the box, 0 and 1; a chain of a hundred methods that each call the next one and answer what it answers, 2 to 101; the
/// method that calls the first of them, 102; and the root, 103. Nodes of the chain's methods but the last: the formal, iload_0, the call,
/// its argument, its result, ireturn, the return node. Nodes of the method that calls the first: 717 iconst_1, 718 the call, 719 its
/// argument, 720 its result, 721 istore_1. Those of the root begin at 722.
pub fn chain_beside_a_box(alloc: Global) -> Result<Option<Facts>, NoMemory> {
    let mut program = LongProgram::new(alloc);
    add_box(&mut program, 722)?;
    for link in 0..LINKS {
        add_link(&mut program, link)?;
    }
    add_last(&mut program)?;
    add_caller(&mut program)?;
    add_root(&mut program, 722)?;
    let accesses = box_accesses(alloc)?;
    let exits = exits(alloc)?;
    program.facts(&exits, Vec::new(alloc), accesses, Vec::new(alloc))
}
