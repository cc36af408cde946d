// One class with one method, whose statements, lines and sites are written by hand.

use checked_facts::facts::{Parts, facts_of};
use checked_facts::input::{InputParts, input_of};
use dep_form::facts::Facts;
use dep_form::input::MethodInput;
use dep_form::node::Node;
use dep_form::texts::{MethodText, SiteName};
use slicer_ids::ids::{ClassId, MethodId, NoMemory, NodeId, Statement};
use slicer_ids::list::List;
use slicer_ids::name::Name;
use std::alloc::Global;

/// The statement of the method at a pc.
pub fn at(pc: u16) -> Statement {
    Statement {
        method: MethodId(0),
        pc,
    }
}

// An input with these nodes and no edges.
fn input(alloc: Global, method: u32, first: u32, nodes: Vec<Node>) -> Option<MethodInput> {
    input_of(InputParts {
        method: MethodId(method),
        first: NodeId(first),
        nodes: List::from_vec(nodes),
        points: 0,
        flow: List::from_vec(Vec::new(alloc)),
        direct: List::from_vec(Vec::new(alloc)),
        puts: List::from_vec(Vec::new(alloc)),
        gets: List::from_vec(Vec::new(alloc)),
    })
}

fn inputs(alloc: Global) -> Result<List<Option<MethodInput>>, NoMemory> {
    let nodes = vec![in alloc; Node::Own(0), Node::Own(300)]?;
    let mut inputs = Vec::new(alloc);
    inputs.push(input(alloc, 0, 0, nodes))?;
    inputs.push(input(alloc, 1, 2, Vec::new(alloc)))?;
    Ok(List::from_vec(inputs))
}

fn methods(alloc: Global) -> Result<List<MethodText>, NoMemory> {
    let lines = vec![in alloc; (0u16, Some(7u16)), (300u16, None)]?;
    let mut methods = Vec::new(alloc);
    methods.push(MethodText {
        class: ClassId(0),
        name: Name::from_bytes(alloc, b"run me")?,
        descriptor: Name::from_bytes(alloc, b"([I)V")?,
        lines: List::from_vec(lines),
    })?;
    Ok(List::from_vec(methods))
}

fn sites(alloc: Global) -> Result<List<SiteName>, NoMemory> {
    let mut sites = Vec::new(alloc);
    sites.push(SiteName {
        class: Name::from_bytes(alloc, b"[[I")?,
        place: Some(at(300)),
        k: 1,
    })?;
    sites.push(SiteName {
        class: Name::from_bytes(alloc, b"java/lang/String")?,
        place: None,
        k: 1,
    })?;
    Ok(List::from_vec(sites))
}

/// The method `run me` of the class `a/B\`, with a statement at line 7 and one without a line, and two sites.
pub fn one_method(alloc: Global) -> Result<Option<Facts>, NoMemory> {
    let mut classes = Vec::new(alloc);
    classes.push(Name::from_bytes(alloc, b"a/B\\")?)?;
    let parts = Parts {
        inputs: inputs(alloc)?,
        exits: List::from_vec(Vec::new(alloc)),
        classes: List::from_vec(classes),
        methods: methods(alloc)?,
        sites: sites(alloc)?,
        lines: List::from_vec(Vec::new(alloc)),
        accesses: List::from_vec(Vec::new(alloc)),
        values: List::from_vec(Vec::new(alloc)),
    };
    facts_of(alloc, parts)
}
