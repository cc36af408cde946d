// Programs of more methods than `SmallProgram` has names for, or with sites.

use checked_facts::facts::{Parts, facts_of};
use checked_facts::input::{InputParts, input_of};
use checked_facts::program::Heap;
use dep_form::access::Access;
use dep_form::facts::Facts;
use dep_form::input::MethodInput;
use dep_form::node::{Edge, Node};
use dep_form::texts::{MethodText, SiteName};
use slicer_ids::ids::{ClassId, MethodId, NoMemory, NodeId, SiteId, Statement};
use slicer_ids::list::List;
use slicer_ids::name::Name;
use std::alloc::Global;

const LETTERS: &[u8] = b"abcdefghijklmnopqrstuvwxyz";

/// A program that is made method by method, the root last. All methods are of one class, `A`; their names are two letters each, in
/// order, so that there may be 676 of them. Nodes are numbered on from method to method.
#[derive(Drop)]
pub struct LongProgram {
    alloc: Global,
    inputs: Vec<Option<MethodInput>>,
    method: u32,
    first: u32,
}

impl LongProgram {
    /// A program without methods.
    pub fn new(alloc: Global) -> LongProgram {
        LongProgram {
            alloc,
            inputs: Vec::new(alloc),
            method: 0,
            first: 0,
        }
    }

    /// Adds a method with these nodes, the edges that end in them, and where it defines and uses locations. False where they don't fit
    /// together.
    pub fn add(
        &mut self,
        nodes: &[Node],
        direct: &[Edge],
        heap: &Heap<'_>,
    ) -> Result<bool, NoMemory> {
        let input = input_of(InputParts {
            method: MethodId(self.method),
            first: NodeId(self.first),
            nodes: List::from_vec(Vec::from_slice(self.alloc, nodes)?),
            points: heap.points,
            flow: List::from_vec(Vec::from_slice(self.alloc, heap.flow)?),
            direct: List::from_vec(Vec::from_slice(self.alloc, direct)?),
            puts: List::from_vec(Vec::from_slice(self.alloc, heap.puts)?),
            gets: List::from_vec(Vec::from_slice(self.alloc, heap.gets)?),
        });
        let fits = input.is_some();
        self.inputs.push(input)?;
        self.method = self.method.saturating_add(1);
        self.first = self.first.saturating_add(number(nodes.len()));
        Ok(fits)
    }

    /// The facts of the program, with these exits, sites, accesses and sites that values may be; none where the parts don't fit
    /// together, or there are more methods than names.
    pub fn facts(
        self,
        exits: &[NodeId],
        sites: Vec<SiteName>,
        accesses: Vec<(Statement, Access)>,
        values: Vec<(Statement, List<SiteId>)>,
    ) -> Result<Option<Facts>, NoMemory> {
        let LongProgram { alloc, inputs, .. } = self;
        let mut classes = Vec::new(alloc);
        classes.push(Name::from_bytes(alloc, b"A")?)?;
        let methods = named(alloc, inputs.len().saturating_sub(1))?;
        let parts = Parts {
            inputs: List::from_vec(inputs),
            exits: List::from_vec(Vec::from_slice(alloc, exits)?),
            classes: List::from_vec(classes),
            methods: List::from_vec(methods),
            sites: List::from_vec(sites),
            lines: List::from_vec(Vec::new(alloc)),
            accesses: List::from_vec(accesses),
            values: List::from_vec(values),
        };
        facts_of(alloc, parts)
    }
}

/// No control flow, definitions and uses.
pub fn no_heap() -> Heap<'static> {
    Heap {
        points: 0,
        flow: &[],
        puts: &[],
        gets: &[],
    }
}

// The count as a number of 32 bits, or the greatest of these.
fn number(count: usize) -> u32 {
    if count < u32::MAX as usize {
        count as u32
    } else {
        u32::MAX
    }
}

// The name of a method, none where there are too many.
fn letters(method: usize) -> Option<[u8; 2]> {
    let Some(first) = LETTERS.get(method / 26) else {
        return None;
    };
    let Some(second) = LETTERS.get(method % 26) else {
        return None;
    };
    Some([*first, *second])
}

// Texts of so many methods, as long as there are names.
fn named(alloc: Global, count: usize) -> Result<Vec<MethodText>, NoMemory> {
    let mut methods = Vec::new(alloc);
    for k in 0..count {
        if let Some(name) = letters(k) {
            methods.push(MethodText {
                class: ClassId(0),
                name: Name::from_bytes(alloc, &name)?,
                descriptor: Name::from_bytes(alloc, b"()V")?,
                lines: List::from_vec(Vec::new(alloc)),
            })?;
        }
    }
    Ok(methods)
}
