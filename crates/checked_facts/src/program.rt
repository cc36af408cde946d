// Small programs, method by method.

use crate::facts::{Parts, facts_of};
use crate::input::{InputParts, input_of};
use dep_form::access::Access;
use dep_form::facts::Facts;
use dep_form::input::MethodInput;
use dep_form::node::{Edge, Node};
use dep_form::texts::MethodText;
use slicer_ids::ids::{ClassId, LocId, MethodId, NoMemory, NodeId, SiteId, Statement};
use slicer_ids::list::List;
use slicer_ids::name::Name;
use std::alloc::Global;

const LETTERS: &[u8] = b"abcdefghijklmnopqrstuvwxyz";

/// Where the locations of a method are defined and used, by the points of its control flow.
#[derive(Clone, Copy, Drop)]
pub struct Heap<'a> {
    pub points: u32,
    pub flow: &'a [(u32, u32)],
    pub puts: &'a [(u32, NodeId, LocId)],
    pub gets: &'a [(u32, NodeId, LocId)],
}

/// A program that is made method by method, the root last. All methods are of one class, `A`; their names are the letters in order.
/// Nodes are numbered on from method to method.
#[derive(Drop)]
pub struct SmallProgram {
    alloc: Global,
    inputs: Vec<Option<MethodInput>>,
    method: u32,
    first: u32,
}

impl SmallProgram {
    /// A program without methods.
    pub fn new(alloc: Global) -> SmallProgram {
        SmallProgram {
            alloc,
            inputs: Vec::new(alloc),
            method: 0,
            first: 0,
        }
    }

    /// Adds a method with these nodes, and the edges that end in them. False where they don't fit together.
    pub fn add(&mut self, nodes: &[Node], direct: &[Edge]) -> Result<bool, NoMemory> {
        let heap = Heap {
            points: 0,
            flow: &[],
            puts: &[],
            gets: &[],
        };
        self.add_with_heap(nodes, direct, &heap)
    }

    /// The same, with where it defines and uses locations.
    pub fn add_with_heap(
        &mut self,
        nodes: &[Node],
        direct: &[Edge],
        heap: &Heap<'_>,
    ) -> Result<bool, NoMemory> {
        let parts = InputParts {
            method: MethodId(self.method),
            first: NodeId(self.first),
            nodes: list_of(self.alloc, nodes)?,
            points: heap.points,
            flow: list_of(self.alloc, heap.flow)?,
            direct: list_of(self.alloc, direct)?,
            puts: list_of(self.alloc, heap.puts)?,
            gets: list_of(self.alloc, heap.gets)?,
        };
        let input = input_of(parts);
        let fits = input.is_some();
        self.inputs.push(input)?;
        self.method = self.method.saturating_add(1);
        self.first = self.first.saturating_add(number(nodes.len()));
        Ok(fits)
    }

    /// The facts of the program, with these exits, accesses and sites that values may be; none where the parts don't fit together, or
    /// there are more methods than letters.
    pub fn facts(
        self,
        exits: &[NodeId],
        accesses: Vec<(Statement, Access)>,
        values: Vec<(Statement, List<SiteId>)>,
    ) -> Result<Option<Facts>, NoMemory> {
        let SmallProgram { alloc, inputs, .. } = self;
        let mut classes = Vec::new(alloc);
        classes.push(Name::from_bytes(alloc, b"A")?)?;
        let methods = named(alloc, inputs.len().saturating_sub(1))?;
        let parts = Parts {
            inputs: List::from_vec(inputs),
            exits: list_of(alloc, exits)?,
            classes: List::from_vec(classes),
            methods: List::from_vec(methods),
            sites: List::from_vec(Vec::new(alloc)),
            lines: List::from_vec(Vec::new(alloc)),
            accesses: List::from_vec(accesses),
            values: List::from_vec(values),
        };
        facts_of(alloc, parts)
    }
}

// The count as a number of 32 bits, or the greatest of these.
fn number(count: usize) -> u32 {
    if count < u32::MAX as usize {
        count as u32
    } else {
        u32::MAX
    }
}

fn list_of<T: Copy>(alloc: Global, items: &[T]) -> Result<List<T>, NoMemory> {
    let copy: Vec<T> = items.iter().copied().collect(alloc)?;
    Ok(List::from_vec(copy))
}

// Texts of so many methods, as long as there are letters.
fn named(alloc: Global, count: usize) -> Result<Vec<MethodText>, NoMemory> {
    let mut methods = Vec::new(alloc);
    for k in 0..count {
        if let Some(letter) = LETTERS.get(k) {
            methods.push(MethodText {
                class: ClassId(0),
                name: Name::from_bytes(alloc, &[*letter])?,
                descriptor: Name::from_bytes(alloc, b"()V")?,
                lines: List::from_vec(Vec::new(alloc)),
            })?;
        }
    }
    Ok(methods)
}
