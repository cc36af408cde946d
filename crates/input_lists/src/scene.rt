// What inputs are made of.

use edge_tables::{Links, Scene as EdgeScene};
use input_tables::{Heap, Scene as HeapScene};

/// What edges are read from, and the calls of the program; what definitions and uses of locations are read from, and where they are.
#[derive(Clone, Copy)]
pub struct Scene<'a> {
    pub edges: EdgeScene<'a>,
    pub links: &'a Links,
    pub effects: HeapScene<'a>,
    pub heap: &'a Heap,
}
