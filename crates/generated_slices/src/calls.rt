// The edges of calls, made from numbers.

use crate::methods::{Draft, call_pc};
use crate::numbers::Numbers;
use dep_form::node::{Edge, Label, Node};
use slicer_ids::ids::{CallId, LocId, NoMemory, NodeId};

/// The edges of calls, as they are made, and the number of the next call.
#[derive(Drop)]
pub struct Wires {
    pub edges: Vec<Edge>,
    pub next: u32,
}

// An edge between two nodes, where both are there.
fn join(
    edges: &mut Vec<Edge>,
    from: Option<NodeId>,
    to: Option<NodeId>,
    label: Label,
) -> Result<(), NoMemory> {
    if let Some(from) = from {
        if let Some(to) = to {
            edges.push(Edge { from, to, label })?;
        }
    }
    Ok(())
}

// What the call hands to the formals.
fn hand_arguments(
    edges: &mut Vec<Edge>,
    caller: &Draft,
    pc: u16,
    target: &Draft,
    call: CallId,
) -> Result<(), NoMemory> {
    for k in 0..2u8 {
        let argument = caller.find(Node::Argument(pc, k));
        let formal = target.find(Node::Formal(k));
        join(edges, argument, formal, Label::Call(call))?;
    }
    Ok(())
}

// The locations as the call finds them, and as it leaves them.
fn hand_locations(
    edges: &mut Vec<Edge>,
    caller: &Draft,
    pc: u16,
    target: &Draft,
    call: CallId,
) -> Result<(), NoMemory> {
    for l in 0..2 {
        let location = LocId(l);
        let before = caller.find(Node::HeapArg(pc, location));
        let entry = target.find(Node::HeapIn(location));
        join(edges, before, entry, Label::Call(call))?;
        let exit = target.find(Node::HeapOut(location));
        let after = caller.find(Node::HeapResult(pc, location));
        join(edges, exit, after, Label::Return(call))?;
    }
    Ok(())
}

// What the call answers and throws.
fn hand_back(
    edges: &mut Vec<Edge>,
    caller: &Draft,
    pc: u16,
    target: &Draft,
    call: CallId,
) -> Result<(), NoMemory> {
    let returned = target.find(Node::Return);
    let result = caller.find(Node::Result(pc));
    join(edges, returned, result, Label::Return(call))?;
    let thrown = target.find(Node::Thrown);
    let exception = caller.find(Node::Exception(pc));
    join(edges, thrown, exception, Label::Return(call))
}

// All edges of one call of one target. Once in five times nothing comes back.
fn add_call(
    numbers: &mut Numbers,
    wires: &mut Wires,
    caller: &Draft,
    pc: u16,
    target: &Draft,
) -> Result<(), NoMemory> {
    let call = CallId(wires.next);
    hand_arguments(&mut wires.edges, caller, pc, target, call)?;
    hand_locations(&mut wires.edges, caller, pc, target, call)?;
    if !numbers.once_in(5) {
        hand_back(&mut wires.edges, caller, pc, target, call)?;
    }
    Ok(())
}

// A call of any of the methods.
fn add_any(
    numbers: &mut Numbers,
    wires: &mut Wires,
    methods: &[Draft],
    caller: &Draft,
    pc: u16,
) -> Result<(), NoMemory> {
    let target = numbers.below(methods.len().min(1 << 16) as u32);
    match methods.get(target as usize) {
        Some(target) => add_call(numbers, wires, caller, pc, target),
        None => Ok(()),
    }
}

// A call of one method, or of two: these have one number or two.
fn add_one_or_two(
    numbers: &mut Numbers,
    wires: &mut Wires,
    methods: &[Draft],
    caller: &Draft,
    pc: u16,
) -> Result<(), NoMemory> {
    add_any(numbers, wires, methods, caller, pc)?;
    if numbers.once_in(3) {
        wires.next = wires.next.saturating_add(numbers.below(2));
        add_any(numbers, wires, methods, caller, pc)?;
    }
    wires.next = wires.next.saturating_add(1);
    Ok(())
}

/// Adds the edges of all calls of a method or of the root.
pub fn add_calls(
    numbers: &mut Numbers,
    wires: &mut Wires,
    methods: &[Draft],
    caller: &Draft,
) -> Result<(), NoMemory> {
    for j in 0..caller.calls {
        add_one_or_two(numbers, wires, methods, caller, call_pc(j))?;
    }
    Ok(())
}
