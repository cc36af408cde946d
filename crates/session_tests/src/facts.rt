// One class with one method, whose nodes, edges, lines and accesses are written by hand.
ghost use Rattle.std.specs.Prelude.{IfOk};
ghost use Rattle.std.specs.Ordering.{nat_cmp};
ghost use Rattle.dep_form.specs.Orders.{RiseBy};

use checked_facts::facts::{Parts, facts_of};
use checked_facts::input::{InputParts, input_of};
use dep_form::access::Access;
use dep_form::facts::Facts;
use dep_form::input::MethodInput;
use dep_form::node::{Edge, Label, Node};
use dep_form::texts::{MethodText, SiteName};
use script::command::Place;
use slicer_ids::ids::{ClassId, MethodId, NoMemory, NodeId, SiteId, Statement};
use slicer_ids::list::List;
use slicer_ids::name::Name;
use std::alloc::Global;

/// The statement of the method at a pc.
pub fn at(pc: u16) -> Statement {
    Statement {
        method: MethodId(0),
        pc,
    }
}

// An input with these nodes and edges.
fn input(
    alloc: Global,
    method: u32,
    first: u32,
    nodes: Vec<Node>,
    direct: Vec<Edge>,
) -> Option<MethodInput> {
    input_of(InputParts {
        method: MethodId(method),
        first: NodeId(first),
        nodes: List::from_vec(nodes),
        points: 0,
        flow: List::from_vec(Vec::new(alloc)),
        direct: List::from_vec(direct),
        puts: List::from_vec(Vec::new(alloc)),
        gets: List::from_vec(Vec::new(alloc)),
    })
}

fn edge(from: u32, to: u32, label: Label) -> Edge {
    Edge {
        from: NodeId(from),
        to: NodeId(to),
        label,
    }
}

fn inputs(alloc: Global) -> Result<List<Option<MethodInput>>, NoMemory> {
    let nodes = vec![in alloc; Node::Own(0), Node::Own(4), Node::Own(300)]?;
    let mut direct = Vec::new(alloc);
    direct.push(edge(0, 1, Label::Base))?;
    direct.push(edge(0, 2, Label::Base))?;
    direct.push(edge(1, 2, Label::Thin))?;
    let mut inputs = Vec::new(alloc);
    inputs.push(input(alloc, 0, 0, nodes, direct))?;
    inputs.push(input(alloc, 1, 3, Vec::new(alloc), Vec::new(alloc)))?;
    Ok(List::from_vec(inputs))
}

// The line of each statement.
fn line_table(alloc: Global) -> Result<List<(u16, Option<u16>)>, NoMemory>
    ensures { IfOk result (λ lines. RiseBy nat_cmp (λ x. x.0) lines) }
{
    let lines = vec![in alloc; (0u16, Some(7u16)), (4u16, Some(7u16)), (300u16, None)]?;
    Ok(List::from_vec(lines))
}

fn methods(alloc: Global) -> Result<List<MethodText>, NoMemory> {
    let lines = line_table(alloc)?;
    let mut methods = Vec::new(alloc);
    methods.push(MethodText {
        class: ClassId(0),
        name: Name::from_bytes(alloc, b"run")?,
        descriptor: Name::from_bytes(alloc, b"()V")?,
        lines,
    })?;
    Ok(List::from_vec(methods))
}

fn lines(alloc: Global) -> Result<List<(ClassId, u16, List<Statement>)>, NoMemory> {
    let statements = vec![in alloc; at(0), at(4)]?;
    let mut lines = Vec::new(alloc);
    lines.push((ClassId(0), 7, List::from_vec(statements)))?;
    Ok(List::from_vec(lines))
}

// Two accesses of what the first statement makes.
fn accesses(alloc: Global) -> Result<List<(Statement, Access)>, NoMemory> {
    let mut accesses = Vec::new(alloc);
    accesses.push((at(4), access(alloc)?))?;
    accesses.push((at(300), access(alloc)?))?;
    Ok(List::from_vec(accesses))
}

fn access(alloc: Global) -> Result<Access, NoMemory> {
    let object = vec![in alloc; NodeId(0)]?;
    let sites = vec![in alloc; SiteId(0)]?;
    Ok(Access {
        object: List::from_vec(object),
        sites: List::from_vec(sites),
    })
}

fn sites(alloc: Global) -> Result<List<SiteName>, NoMemory> {
    let mut sites = Vec::new(alloc);
    sites.push(SiteName {
        class: Name::from_bytes(alloc, b"a/B")?,
        place: Some(at(0)),
        k: 0,
    })?;
    Ok(List::from_vec(sites))
}

// The value of the first statement.
fn values(alloc: Global) -> Result<List<(Statement, List<SiteId>)>, NoMemory> {
    let made = vec![in alloc; SiteId(0)]?;
    let mut values = Vec::new(alloc);
    values.push((at(0), List::from_vec(made)))?;
    Ok(List::from_vec(values))
}

/// The method `run ()V` of the class `a/B`, with statements at 0 and 4 on line 7 and at 300 without a line. That at 0 makes an object,
/// that at 4 reads a field of it, and that at 300 puts what was read into another field of it.
pub fn one_method(alloc: Global) -> Result<Option<Facts>, NoMemory> {
    let mut classes = Vec::new(alloc);
    classes.push(Name::from_bytes(alloc, b"a/B")?)?;
    let parts = Parts {
        inputs: inputs(alloc)?,
        exits: List::from_vec(Vec::new(alloc)),
        classes: List::from_vec(classes),
        methods: methods(alloc)?,
        sites: sites(alloc)?,
        lines: lines(alloc)?,
        accesses: accesses(alloc)?,
        values: values(alloc)?,
    };
    facts_of(alloc, parts)
}

/// A place.
pub fn place(
    alloc: Global,
    class: &[u8],
    name: &[u8],
    descriptor: &[u8],
    pc: u16,
) -> Result<Place, NoMemory> {
    Ok(Place {
        class: Name::from_bytes(alloc, class)?,
        name: Name::from_bytes(alloc, name)?,
        descriptor: Name::from_bytes(alloc, descriptor)?,
        pc,
    })
}
