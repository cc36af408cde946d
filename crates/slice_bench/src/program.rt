// Generated programs: a chain of methods that each call the next one.

use crate::sizes::{PASSED, Sizes, pc};
use bench_tools::numbers::Numbers;
use checked_facts::facts::{Parts, facts_of};
use checked_facts::input::{InputParts, input_of};
use dep_form::access::Access;
use dep_form::facts::Facts;
use dep_form::input::MethodInput;
use dep_form::node::{Edge, Label, Node};
use dep_form::texts::MethodText;
use slicer_ids::ids::{CallId, ClassId, LocId, MethodId, NoMemory, NodeId, Statement};
use slicer_ids::list::List;
use slicer_ids::name::Name;
use std::alloc::Global;

// Edges that end in a value or a pointer, but for bases.
const EDGES: u32 = 4;

// How far they reach.
const REACH: u32 = 100;

fn edge(from: u32, to: u32, label: Label) -> Edge {
    Edge {
        from: NodeId(from),
        to: NodeId(to),
        label,
    }
}

// ---- nodes
// What is handed on first is an argument, and what comes back first an answer; the others are locations.
fn formal(k: u32) -> Node {
    match k {
        0 => Node::Formal(0),
        _ => Node::HeapIn(LocId(k)),
    }
}

fn argument(call: u16, k: u32) -> Node {
    match k {
        0 => Node::Argument(call, 0),
        _ => Node::HeapArg(call, LocId(k)),
    }
}

fn result(call: u16, k: u32) -> Node {
    match k {
        0 => Node::Result(call),
        _ => Node::HeapResult(call, LocId(k)),
    }
}

fn exit(k: u32) -> Node {
    match k {
        0 => Node::Return,
        _ => Node::HeapOut(LocId(k)),
    }
}

fn add_formals(into: &mut Vec<Node>) -> Result<(), NoMemory> {
    for k in 0..PASSED {
        into.push(formal(k))?;
    }
    Ok(())
}

fn add_own(sizes: Sizes, into: &mut Vec<Node>) -> Result<(), NoMemory> {
    for k in 0..sizes.values.saturating_add(sizes.pointers) {
        into.push(Node::Own(pc(k)))?;
    }
    Ok(())
}

fn add_arguments(call: u16, into: &mut Vec<Node>) -> Result<(), NoMemory> {
    for k in 0..PASSED {
        into.push(argument(call, k))?;
    }
    Ok(())
}

fn add_results(call: u16, into: &mut Vec<Node>) -> Result<(), NoMemory> {
    for k in 0..PASSED {
        into.push(result(call, k))?;
    }
    Ok(())
}

fn add_exits(into: &mut Vec<Node>) -> Result<(), NoMemory> {
    for k in 0..PASSED {
        into.push(exit(k))?;
    }
    Ok(())
}

fn nodes_of(alloc: Global, sizes: Sizes) -> Result<Vec<Node>, NoMemory> {
    let call = pc(sizes.call());
    let mut nodes = Vec::new(alloc);
    add_formals(&mut nodes)?;
    add_own(sizes, &mut nodes)?;
    add_arguments(call, &mut nodes)?;
    add_results(call, &mut nodes)?;
    add_exits(&mut nodes)?;
    Ok(nodes)
}

// ---- edges
// Edges from nodes before it, but not before the first one.
fn add_near(
    first: u32,
    to: u32,
    numbers: &mut Numbers,
    into: &mut Vec<Edge>,
) -> Result<(), NoMemory> {
    for _ in 1..EDGES {
        let step = numbers.below(REACH).saturating_add(1);
        let from = to.saturating_sub(step).max(first);
        into.push(edge(from, to, Label::Thin))?;
    }
    Ok(())
}

// So many nodes, each with edges from the one before it and from others before it.
fn add_chain(
    first: u32,
    count: u32,
    numbers: &mut Numbers,
    into: &mut Vec<Edge>,
) -> Result<(), NoMemory> {
    for k in 1..count {
        let to = first.saturating_add(k);
        into.push(edge(to.saturating_sub(1), to, Label::Thin))?;
        add_near(first, to, numbers, into)?;
    }
    Ok(())
}

// What is handed from the call of the method before it to its formals, and on to its first values.
fn add_entry(sizes: Sizes, method: u32, into: &mut Vec<Edge>) -> Result<(), NoMemory> {
    for k in 0..PASSED {
        let formal = sizes.first(method).saturating_add(k);
        if method > 0 {
            let caller = method - 1;
            let label = Label::Call(CallId(method));
            into.push(edge(sizes.argument(caller, k), formal, label))?;
        }
        into.push(edge(formal, sizes.value(method, k), Label::Thin))?;
    }
    Ok(())
}

// Values at the call flow to its arguments, exits of the method called to its results, and results to values behind it.
fn add_call(sizes: Sizes, method: u32, into: &mut Vec<Edge>) -> Result<(), NoMemory> {
    let call = sizes.call();
    let callee = method.saturating_add(1);
    for k in 0..PASSED {
        let before = sizes.value(method, call.saturating_sub(k));
        let behind = sizes.value(method, call.saturating_add(k).saturating_add(1));
        let result = sizes.result(method, k);
        into.push(edge(before, sizes.argument(method, k), Label::Thin))?;
        into.push(edge(result, behind, Label::Thin))?;
        if callee < sizes.methods {
            let label = Label::Return(CallId(callee));
            into.push(edge(sizes.exit(callee, k), result, label))?;
        }
    }
    Ok(())
}

// The last values flow to the exits.
fn add_ends(sizes: Sizes, method: u32, into: &mut Vec<Edge>) -> Result<(), NoMemory> {
    for k in 0..PASSED {
        let last = sizes.values.saturating_sub(1).saturating_sub(k);
        let value = sizes.value(method, last);
        into.push(edge(value, sizes.exit(method, k), Label::Thin))?;
    }
    Ok(())
}

fn add_bases(sizes: Sizes, method: u32, into: &mut Vec<Edge>) -> Result<(), NoMemory> {
    for k in 0..sizes.values {
        if sizes.is_access(k) {
            let pointer = sizes.pointer(method, k);
            into.push(edge(pointer, sizes.value(method, k), Label::Base))?;
        }
    }
    Ok(())
}

fn edges_of(
    alloc: Global,
    sizes: Sizes,
    method: u32,
    numbers: &mut Numbers,
) -> Result<Vec<Edge>, NoMemory> {
    let values = sizes.value(method, 0);
    let pointers = sizes.pointer(method, 0);
    let mut edges = Vec::new(alloc);
    add_entry(sizes, method, &mut edges)?;
    add_chain(values, sizes.values, numbers, &mut edges)?;
    add_chain(pointers, sizes.pointers, numbers, &mut edges)?;
    add_call(sizes, method, &mut edges)?;
    add_ends(sizes, method, &mut edges)?;
    add_bases(sizes, method, &mut edges)?;
    Ok(edges)
}

// ---- methods
fn input(
    alloc: Global,
    method: u32,
    first: u32,
    nodes: Vec<Node>,
    direct: Vec<Edge>,
) -> Option<MethodInput> {
    input_of(InputParts {
        method: MethodId(method),
        first: NodeId(first),
        nodes: List::from_vec(nodes),
        points: 0,
        flow: List::from_vec(Vec::new(alloc)),
        direct: List::from_vec(direct),
        puts: List::from_vec(Vec::new(alloc)),
        gets: List::from_vec(Vec::new(alloc)),
    })
}

// All methods, and a root that calls the first one without arguments.
fn inputs_of(alloc: Global, sizes: Sizes) -> Result<Vec<Option<MethodInput>>, NoMemory> {
    let mut numbers = Numbers::new(1);
    let mut inputs = Vec::new(alloc);
    for method in 0..sizes.methods {
        let nodes = nodes_of(alloc, sizes)?;
        let edges = edges_of(alloc, sizes, method, &mut numbers)?;
        inputs.push(input(alloc, method, sizes.first(method), nodes, edges))?;
    }
    let root = sizes.methods;
    let first = sizes.first(root);
    inputs.push(input(alloc, root, first, Vec::new(alloc), Vec::new(alloc)))?;
    Ok(inputs)
}

fn exits_of(alloc: Global, sizes: Sizes) -> Result<Vec<NodeId>, NoMemory> {
    let mut exits = Vec::new(alloc);
    for method in 0..sizes.methods {
        for k in 0..PASSED {
            exits.push(NodeId(sizes.exit(method, k)))?;
        }
    }
    Ok(exits)
}

fn digit(number: u32) -> u8 {
    b'0' + (number % 10) as u8
}

fn text(alloc: Global, method: u32) -> Result<MethodText, NoMemory> {
    let name = [
        b'm',
        digit(method / 1_000),
        digit(method / 100),
        digit(method / 10),
        digit(method),
    ];
    Ok(MethodText {
        class: ClassId(0),
        name: Name::from_bytes(alloc, &name)?,
        descriptor: Name::from_bytes(alloc, b"()V")?,
        lines: List::from_vec(Vec::new(alloc)),
    })
}

fn texts_of(alloc: Global, sizes: Sizes) -> Result<Vec<MethodText>, NoMemory> {
    let mut texts = Vec::new(alloc);
    for method in 0..sizes.methods {
        texts.push(text(alloc, method)?)?;
    }
    Ok(texts)
}

fn access(alloc: Global, object: u32) -> Result<Access, NoMemory> {
    let mut nodes = Vec::new(alloc);
    nodes.push(NodeId(object))?;
    Ok(Access {
        object: List::from_vec(nodes),
        sites: List::from_vec(Vec::new(alloc)),
    })
}

fn add_accesses(
    alloc: Global,
    sizes: Sizes,
    method: u32,
    into: &mut Vec<(Statement, Access)>,
) -> Result<(), NoMemory> {
    for k in 0..sizes.values {
        if sizes.is_access(k) {
            let place = Statement {
                method: MethodId(method),
                pc: pc(k),
            };
            let access = access(alloc, sizes.pointer(method, k))?;
            into.push((place, access))?;
        }
    }
    Ok(())
}

fn accesses_of(alloc: Global, sizes: Sizes) -> Result<Vec<(Statement, Access)>, NoMemory> {
    let mut accesses = Vec::new(alloc);
    for method in 0..sizes.methods {
        add_accesses(alloc, sizes, method, &mut accesses)?;
    }
    Ok(accesses)
}

/// A program of these sizes. None where the parts don't fit together.
pub fn program(alloc: Global, sizes: Sizes) -> Result<Option<Facts>, NoMemory> {
    let mut classes = Vec::new(alloc);
    classes.push(Name::from_bytes(alloc, b"A")?)?;
    let parts = Parts {
        inputs: List::from_vec(inputs_of(alloc, sizes)?),
        exits: List::from_vec(exits_of(alloc, sizes)?),
        classes: List::from_vec(classes),
        methods: List::from_vec(texts_of(alloc, sizes)?),
        sites: List::from_vec(Vec::new(alloc)),
        lines: List::from_vec(Vec::new(alloc)),
        accesses: List::from_vec(accesses_of(alloc, sizes)?),
        values: List::from_vec(Vec::new(alloc)),
    };
    facts_of(alloc, parts)
}
