// Control flow, and where locations are defined and used, made from numbers.

use crate::numbers::Numbers;
use dep_form::node::Node;
use slicer_ids::ids::{LocId, NoMemory, NodeId};
use std::alloc::Global;

/// A point for each pc of a method, see `statement_pc` and `call_pc`.
const POINTS: u32 = 6;

/// The flow of control of a method, and its definitions and uses.
#[derive(Drop)]
pub struct Control {
    pub points: u32,
    pub flow: Vec<(u32, u32)>,
    pub puts: Vec<(u32, NodeId, LocId)>,
    pub gets: Vec<(u32, NodeId, LocId)>,
}

impl Control {
    fn put(&mut self, pc: u16, n: NodeId, location: LocId) -> Result<(), NoMemory> {
        self.puts.push((pc as u32, n, location))?;
        Ok(())
    }

    fn get(&mut self, pc: u16, n: NodeId, location: LocId) -> Result<(), NoMemory> {
        self.gets.push((pc as u32, n, location))?;
        Ok(())
    }
}

// From each point to the next, and from one point to any other: a loop, or a jump over some.
fn flow_of(alloc: Global, numbers: &mut Numbers) -> Result<Vec<(u32, u32)>, NoMemory> {
    let mut flow = Vec::new(alloc);
    for p in 1..POINTS {
        flow.push((p - 1, p))?;
    }
    flow.push((numbers.below(POINTS), numbers.below(POINTS)))?;
    Ok(flow)
}

// What a statement does with a location: it defines it, uses it, or neither.
fn add_statement(
    numbers: &mut Numbers,
    control: &mut Control,
    pc: u16,
    n: NodeId,
    location: LocId,
) -> Result<(), NoMemory> {
    match numbers.below(3) {
        0 => control.put(pc, n, location),
        1 => control.get(pc, n, location),
        _ => Ok(()),
    }
}

// A call uses what it finds, and defines what it leaves.
fn add_node(
    numbers: &mut Numbers,
    control: &mut Control,
    n: NodeId,
    node: Node,
    locations: u32,
) -> Result<(), NoMemory> {
    match node {
        Node::Own(pc) => {
            let location = LocId(numbers.below(locations));
            add_statement(numbers, control, pc, n, location)
        }
        Node::HeapArg(pc, location) => control.get(pc, n, location),
        Node::HeapResult(pc, location) => control.put(pc, n, location),
        _ => Ok(()),
    }
}

/// The control flow of a method with these nodes, of which the first has this number.
pub fn control_of(
    alloc: Global,
    numbers: &mut Numbers,
    first: u32,
    nodes: &[Node],
    locations: u32,
) -> Result<Control, NoMemory> {
    let mut control = Control {
        points: POINTS,
        flow: flow_of(alloc, numbers)?,
        puts: Vec::new(alloc),
        gets: Vec::new(alloc),
    };
    let mut n = first;
    for node in nodes {
        add_node(numbers, &mut control, NodeId(n), *node, locations)?;
        n = n.saturating_add(1);
    }
    Ok(control)
}
