// Where the nodes of generated methods stand.

use slicer_ids::ids::{MethodId, NoMemory, NodeId, Statement};
use std::alloc::Global;

/// What a call hands on, and what it gets back: an argument or an answer, and locations.
pub const PASSED: u32 = 4;

/// How far apart accesses stand.
pub const SPACING: u32 = 10;

// The first access of a method.
const FIRST_ACCESS: u32 = 5;

/// A chain of methods that are all alike. Each has its formals first, then values, pointers, arguments and results of its one call,
/// and exits. It calls the next one between two of its values.
#[derive(Clone, Copy)]
pub struct Sizes {
    pub methods: u32,
    pub values: u32,
    pub pointers: u32,
    /// All nodes of a method.
    pub nodes: u32,
}

impl Sizes {
    /// So many methods with about so many nodes in all.
    pub fn of(nodes: u32, methods: u32) -> Sizes {
        let methods = methods.clamp(2, 9_999);
        let nodes = (nodes / methods).clamp(200, 60_000);
        let own = nodes - 4 * PASSED;
        let values = own / 2;
        Sizes {
            methods,
            values,
            pointers: own - values,
            nodes,
        }
    }

    fn node(self, method: u32, number: u32) -> u32 {
        method.saturating_mul(self.nodes).saturating_add(number)
    }

    /// The first node of a method, and its first formal.
    pub fn first(self, method: u32) -> u32 {
        self.node(method, 0)
    }

    pub fn value(self, method: u32, k: u32) -> u32 {
        self.node(method, k.saturating_add(PASSED))
    }

    pub fn pointer(self, method: u32, k: u32) -> u32 {
        self.value(method, k).saturating_add(self.values)
    }

    /// The arguments of the call stand behind the pointers.
    pub fn argument(self, method: u32, k: u32) -> u32 {
        self.pointer(method, k).saturating_add(self.pointers)
    }

    pub fn result(self, method: u32, k: u32) -> u32 {
        self.argument(method, k).saturating_add(PASSED)
    }

    pub fn exit(self, method: u32, k: u32) -> u32 {
        self.result(method, k).saturating_add(PASSED)
    }

    /// The value that is the call.
    pub fn call(self) -> u32 {
        self.values / 2
    }

    /// The method where slices begin, in the middle of the chain.
    pub fn middle(self) -> u32 {
        self.methods / 2
    }

    // The value where slices begin.
    fn seed_value(self) -> u32 {
        self.values.saturating_mul(3) / 4
    }

    /// The node where slices begin: it is behind the call of its method.
    pub fn seed(self) -> NodeId {
        NodeId(self.value(self.middle(), self.seed_value()))
    }

    /// Whether a value is an access: its base is the pointer of the same number.
    pub fn is_access(self, value: u32) -> bool {
        value % SPACING == FIRST_ACCESS
    }

    // The last access of the method in the middle before a value.
    fn access_before(self, value: u32) -> Statement {
        let steps = value.saturating_sub(FIRST_ACCESS + 1) / SPACING;
        let access = steps.saturating_mul(SPACING).saturating_add(FIRST_ACCESS);
        Statement {
            method: MethodId(self.middle()),
            pc: pc(access),
        }
    }

    /// An access that the slice has, of the method where it begins.
    pub fn inner_access(self) -> Statement {
        self.access_before(self.seed_value())
    }

    /// An access behind the seed, of which the slice has nothing.
    pub fn outer_access(self) -> Statement {
        self.access_before(self.values)
    }

    // What all other nodes of a method lead to, but those of methods called.
    fn add_ends(self, method: u32, into: &mut Vec<NodeId>) -> Result<(), NoMemory> {
        for k in 0..PASSED {
            into.push(NodeId(self.argument(method, k)))?;
            into.push(NodeId(self.exit(method, k)))?;
        }
        let last = self.pointers.saturating_sub(1);
        into.push(NodeId(self.pointer(method, last)))?;
        Ok(())
    }

    /// Nodes that all others lead to.
    pub fn ends(self, alloc: Global) -> Result<Vec<NodeId>, NoMemory> {
        let mut ends = Vec::new(alloc);
        for method in 0..self.methods {
            self.add_ends(method, &mut ends)?;
        }
        Ok(ends)
    }
}

/// The program counter of a value or pointer.
pub fn pc(number: u32) -> u16 {
    (number % 65_536) as u16
}
