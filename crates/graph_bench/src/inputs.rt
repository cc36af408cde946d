// Generated methods.

use bench_tools::numbers::Numbers;
use checked_facts::input::{InputParts, input_of};
use dep_form::input::MethodInput;
use dep_form::node::{Edge, Label, Node};
use slicer_ids::ids::{LocId, MethodId, NoMemory, NodeId};
use slicer_ids::list::List;
use std::alloc::Global;

/// How many of each thing a method has: locations, which it has a node for on entry and one as it leaves, and statements.
#[derive(Clone, Copy)]
pub struct Sizes {
    locations: u32,
    statements: u32,
    nodes: u32,
}

impl Sizes {
    /// A method of about so many nodes, with a location for each hundred.
    pub fn of(nodes: u32) -> Sizes {
        let nodes = nodes.clamp(100, 60_000);
        let locations = nodes / 100;
        Sizes {
            locations,
            statements: nodes - 2 * locations,
            nodes,
        }
    }

    fn statement(self, number: u32) -> u32 {
        self.locations.saturating_add(number)
    }
}

// Edges that end in a statement, but for those of locations.
const EDGES: u32 = 4;

// The nodes: locations on entry, statements, locations as it leaves them.
fn nodes_of(alloc: Global, sizes: Sizes) -> Result<Vec<Node>, NoMemory> {
    let mut nodes = Vec::new(alloc);
    for k in 0..sizes.locations {
        nodes.push(Node::HeapIn(LocId(k)))?;
    }
    for k in 0..sizes.statements {
        nodes.push(Node::Own((k % 65_536) as u16))?;
    }
    for k in 0..sizes.locations {
        nodes.push(Node::HeapOut(LocId(k)))?;
    }
    Ok(nodes)
}

// Edges between statements that lie near to each other.
fn direct_of(
    alloc: Global,
    sizes: Sizes,
    first: u32,
    numbers: &mut Numbers,
) -> Result<Vec<Edge>, NoMemory> {
    let mut direct = Vec::new(alloc);
    for k in 0..sizes.statements {
        let to = NodeId(first.saturating_add(sizes.statement(k)));
        for _ in 0..EDGES {
            let before = k.saturating_sub(numbers.below(100));
            let from = NodeId(first.saturating_add(sizes.statement(before)));
            let label = Label::Thin;
            direct.push(Edge { from, to, label })?;
        }
    }
    Ok(direct)
}

// Control goes from each statement to the next one, and from one in ten to one of the fifty before or after it.
fn flow_of(
    alloc: Global,
    sizes: Sizes,
    numbers: &mut Numbers,
) -> Result<Vec<(u32, u32)>, NoMemory> {
    let last = sizes.statements.saturating_sub(1);
    let mut flow = Vec::new(alloc);
    for k in 0..last {
        flow.push((k, k.saturating_add(1)))?;
        if k % 10 == 0 {
            let ahead = k.saturating_add(numbers.below(100));
            flow.push((k, ahead.saturating_sub(50).min(last)))?;
        }
    }
    Ok(flow)
}

// One statement in four defines a location, or uses one; `turn` says which.
fn touches_of(
    alloc: Global,
    sizes: Sizes,
    first: u32,
    turn: u32,
    numbers: &mut Numbers,
) -> Result<Vec<(u32, NodeId, LocId)>, NoMemory> {
    let mut touches = Vec::new(alloc);
    for k in 0..sizes.statements {
        if k % 4 == turn {
            let node = NodeId(first.saturating_add(sizes.statement(k)));
            let location = LocId(numbers.below(sizes.locations.max(1)));
            touches.push((k, node, location))?;
        }
    }
    Ok(touches)
}

/// A method with this number and first node. None where its parts don't fit together.
pub fn input(
    alloc: Global,
    method: u32,
    first: u32,
    sizes: Sizes,
    numbers: &mut Numbers,
) -> Result<Option<MethodInput>, NoMemory> {
    let nodes = nodes_of(alloc, sizes)?;
    let direct = direct_of(alloc, sizes, first, numbers)?;
    let flow = flow_of(alloc, sizes, numbers)?;
    let puts = touches_of(alloc, sizes, first, 0, numbers)?;
    let gets = touches_of(alloc, sizes, first, 1, numbers)?;
    Ok(input_of(InputParts {
        method: MethodId(method),
        first: NodeId(first),
        nodes: List::from_vec(nodes),
        points: sizes.statements,
        flow: List::from_vec(flow),
        direct: List::from_vec(direct),
        puts: List::from_vec(puts),
        gets: List::from_vec(gets),
    }))
}

/// So many methods, whose nodes are numbered on.
pub fn inputs(
    alloc: Global,
    methods: u32,
    sizes: Sizes,
) -> Result<Option<Vec<MethodInput>>, NoMemory> {
    let mut numbers = Numbers::new(1);
    let mut inputs = Vec::new(alloc);
    let mut first: u32 = 0;
    for method in 0..methods {
        let Some(input) = input(alloc, method, first, sizes, &mut numbers)? else {
            return Ok(None);
        };
        inputs.push(input)?;
        first = first.saturating_add(sizes.nodes);
    }
    Ok(Some(inputs))
}
