// Generated programs: a method with many exits, and a caller whose answer needs them all.
ghost use Rattle.std.specs.Prelude.{◌<◌};

use bench_tools::numbers::Numbers;
use checked_facts::facts::{Parts, facts_of};
use checked_facts::input::{InputParts, input_of};
use dep_form::facts::Facts;
use dep_form::input::MethodInput;
use dep_form::node::{Edge, Label, Node};
use dep_form::texts::MethodText;
use slicer_ids::ids::{CallId, ClassId, LocId, MethodId, NoMemory, NodeId};
use slicer_ids::list::List;
use slicer_ids::name::Name;
use std::alloc::Global;
use std::fmt;

/// Where the edges that end in a node of the method come from.
#[derive(Clone, Copy, PartialEq, Eq, Debug, Drop)]
pub enum Shape {
    /// From any node.
    Any,
    /// From one of the hundred nodes before it, but for one edge in twenty, which comes from one of the hundred after it.
    Near,
    /// From a node of its group: there is a group for each hundred nodes.
    Groups,
}

/// Edges that end in a node.
const EDGES: u32 = 10;

/// The nodes of a group, and how far edges reach.
const REACH: u32 = 100;

const CALL: CallId = CallId(0);

/// How many nodes of each kind the method has. The caller has an argument for each formal, a result for each exit, and what it answers.
#[derive(Clone, Copy)]
pub struct Sizes {
    /// The locations that it reads, and those that it writes.
    pub locations: u32,
    /// All nodes but those of locations that it writes.
    pub inner: u32,
    pub nodes: u32,
}

impl Sizes {
    /// A method of about so many nodes, of which one in ten is an exit and one in ten a formal.
    pub fn of(nodes: u32) -> Sizes {
        let nodes = nodes.clamp(1_000, 100_000);
        let locations = nodes / 10;
        Sizes {
            locations,
            inner: nodes - locations,
            nodes,
        }
    }
}

impl fmt::Display for Shape {
    fn fmt<W: fmt::Write>(&self, f: &mut fmt::Formatter<W>) -> fmt::Result {
        match self {
            Shape::Any => write!(f, "from any node"),
            Shape::Near => write!(f, "from near nodes"),
            Shape::Groups => write!(f, "within groups"),
        }
    }
}

// The node from which an edge to this node of the method comes.
fn source(shape: Shape, sizes: Sizes, to: u32, numbers: &mut Numbers) -> u32 {
    let inner = sizes.inner.max(1);
    match shape {
        Shape::Any => numbers.below(inner),
        Shape::Near => near(inner, to, numbers),
        Shape::Groups => {
            let groups = (sizes.nodes / REACH).max(1);
            let member = numbers.below((inner / groups).max(1));
            (to % groups).saturating_add(member.saturating_mul(groups))
        }
    }
}

fn near(inner: u32, to: u32, numbers: &mut Numbers) -> u32
    requires { 0 < inner }
{
    let step = numbers.below(REACH).saturating_add(1);
    let node = if numbers.below(20) == 0 {
        to.saturating_add(step)
    } else {
        to.saturating_sub(step)
    };
    node.min(inner - 1)
}

fn flow(from: u32, to: u32) -> Edge {
    Edge {
        from: NodeId(from),
        to: NodeId(to),
        label: Label::Thin,
    }
}

fn pc(node: u32) -> u16 {
    (node % 65_536) as u16
}

// The method: locations on entry, statements, locations as it leaves them. Each argument of the call flows to its formal.
fn callee(
    alloc: Global,
    shape: Shape,
    sizes: Sizes,
    numbers: &mut Numbers,
) -> Result<Option<MethodInput>, NoMemory> {
    let mut nodes = Vec::new(alloc);
    let mut direct = Vec::new(alloc);
    for formal in 0..sizes.locations {
        nodes.push(Node::HeapIn(LocId(formal)))?;
        direct.push(Edge {
            from: NodeId(sizes.nodes.saturating_add(formal)),
            to: NodeId(formal),
            label: Label::Call(CALL),
        })?;
    }
    for node in sizes.locations..sizes.inner {
        nodes.push(Node::Own(pc(node)))?;
    }
    for exit in 0..sizes.locations {
        nodes.push(Node::HeapOut(LocId(exit)))?;
    }
    for to in sizes.locations..sizes.nodes {
        for _ in 0..EDGES {
            direct.push(flow(source(shape, sizes, to, numbers), to))?;
        }
    }
    Ok(input(alloc, 0, 0, nodes, direct))
}

// The caller: its one call, whose results all flow to what it answers.
fn caller(alloc: Global, sizes: Sizes) -> Result<Option<MethodInput>, NoMemory> {
    let first = sizes.nodes;
    let results = first.saturating_add(sizes.locations);
    let answer = results.saturating_add(sizes.locations);
    let mut nodes = Vec::new(alloc);
    let mut direct = Vec::new(alloc);
    for formal in 0..sizes.locations {
        nodes.push(Node::HeapArg(0, LocId(formal)))?;
    }
    for exit in 0..sizes.locations {
        let result = results.saturating_add(exit);
        nodes.push(Node::HeapResult(0, LocId(exit)))?;
        direct.push(Edge {
            from: NodeId(sizes.inner.saturating_add(exit)),
            to: NodeId(result),
            label: Label::Return(CALL),
        })?;
        direct.push(flow(result, answer))?;
    }
    nodes.push(Node::Return)?;
    Ok(input(alloc, 1, first, nodes, direct))
}

fn input(
    alloc: Global,
    method: u32,
    first: u32,
    nodes: Vec<Node>,
    direct: Vec<Edge>,
) -> Option<MethodInput> {
    input_of(InputParts {
        method: MethodId(method),
        first: NodeId(first),
        nodes: List::from_vec(nodes),
        points: 0,
        flow: List::from_vec(Vec::new(alloc)),
        direct: List::from_vec(direct),
        puts: List::from_vec(Vec::new(alloc)),
        gets: List::from_vec(Vec::new(alloc)),
    })
}

// The exits of the method, and what the caller answers.
fn exits(alloc: Global, sizes: Sizes) -> Result<Vec<NodeId>, NoMemory> {
    let mut exits = Vec::new(alloc);
    for node in sizes.inner..sizes.nodes {
        exits.push(NodeId(node))?;
    }
    let answer = sizes
        .nodes
        .saturating_add(sizes.locations)
        .saturating_add(sizes.locations);
    exits.push(NodeId(answer))?;
    Ok(exits)
}

fn text(alloc: Global, name: &[u8]) -> Result<MethodText, NoMemory> {
    Ok(MethodText {
        class: ClassId(0),
        name: Name::from_bytes(alloc, name)?,
        descriptor: Name::from_bytes(alloc, b"()V")?,
        lines: List::from_vec(Vec::new(alloc)),
    })
}

/// A program of this shape: the method, its caller, and a root that calls nothing. The last exit is what the caller answers. None
/// where the parts don't fit together.
pub fn program(alloc: Global, shape: Shape, sizes: Sizes) -> Result<Option<Facts>, NoMemory> {
    let mut numbers = Numbers::new(1);
    let mut inputs = Vec::new(alloc);
    inputs.push(callee(alloc, shape, sizes, &mut numbers)?)?;
    inputs.push(caller(alloc, sizes)?)?;
    let end = sizes
        .nodes
        .saturating_add(sizes.locations)
        .saturating_add(sizes.locations)
        .saturating_add(1);
    inputs.push(input(alloc, 2, end, Vec::new(alloc), Vec::new(alloc)))?;
    let mut classes = Vec::new(alloc);
    classes.push(Name::from_bytes(alloc, b"A")?)?;
    let mut methods = Vec::new(alloc);
    methods.push(text(alloc, b"callee")?)?;
    methods.push(text(alloc, b"caller")?)?;
    facts_of(
        alloc,
        Parts {
            inputs: List::from_vec(inputs),
            exits: List::from_vec(exits(alloc, sizes)?),
            classes: List::from_vec(classes),
            methods: List::from_vec(methods),
            sites: List::from_vec(Vec::new(alloc)),
            lines: List::from_vec(Vec::new(alloc)),
            accesses: List::from_vec(Vec::new(alloc)),
            values: List::from_vec(Vec::new(alloc)),
        },
    )
}
