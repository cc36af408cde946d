// Nodes found once each, in room that was taken before.
ghost use Rattle.std.specs.Prelude.{◌≡◌, ◌<◌, ◌++◌, ◌∷◌, ◌↔◌, [], IsTrue, true, if◌then◌else◌, Contains, length, IfOk, slice_get, slice_set, Some, take, vec_len};
ghost use Rattle.worklists.specs.Growth.{Grows};
ghost use Rattle.thin_slice.specs.Marks.{AreMarked, IsMarkedList, found, is_marked};

use slicer_ids::ids::{NoMemory, NodeId};
use std::alloc::Global;

/// Marks of the nodes below a size, and the nodes that have one, in the order found. It takes 5 bytes a node.
#[derive(Drop)]
pub struct MarkedNodes {
    pub marks: Vec<bool>,
    pub order: Vec<NodeId>,
    pub count: usize,
}

impl MarkedNodes {
    /// None of the nodes below the size.
    pub fn new(alloc: Global, size: usize) -> Result<MarkedNodes, NoMemory>
        ensures set { IfOk result (λ s. AreMarked s) }
        ensures size { IfOk result (λ s. length s.marks.items ≡ size) }
        ensures none { IfOk result (λ s. found s ≡ []) }
    {
        let Ok(marks) = vec![in alloc; false; size] else {
            return Err(NoMemory);
        };
        let Ok(order) = vec![in alloc; NodeId(0); size] else {
            return Err(NoMemory);
        };
        Ok(MarkedNodes {
            marks,
            order,
            count: 0,
        })
    }

    // Marks a node, and lists it if it had no mark.
    fn mark(&mut self, n: NodeId)
        requires set { AreMarked self.old }
        requires within { n.0 < length self.old.marks.items }
        ensures marks { self.new.marks.items ≡ slice_set self.old.marks.items n.0 true }
        ensures room { length self.new.order.items ≡ length self.old.order.items }
        ensures found { found self.new ≡ (if is_marked self.old.marks.items n.0 then found self.old else found self.old ++ n ∷ []) }
        ensures count { length (found self.new) ≡ self.new.count }
    {
        if !self.marks[n.0 as usize] {
            self.marks[n.0 as usize] = true;
            self.order[self.count] = n;
            self.count += 1;
        }
    }

    /// Adds a node, unless it is there. It takes no memory.
    pub fn add(&mut self, n: NodeId)
        requires set { AreMarked self.old }
        requires within { n.0 < length self.old.marks.items }
        ensures set { AreMarked self.new }
        ensures size { length self.new.marks.items ≡ length self.old.marks.items }
        ensures grown { Grows (found self.old) (found self.new) (λ q. q ≡ n) }
    {
        self.mark(n);
    }

    /// Whether a node was found.
    pub fn has(&self, n: NodeId) -> bool
        requires set { AreMarked self.now }
        requires within { n.0 < length self.now.marks.items }
        ensures { IsTrue result ↔ Contains (found self.now) n }
    {
        self.marks[n.0 as usize]
    }

    /// The node at a place of the order.
    pub fn at(&self, k: usize) -> NodeId
        requires set { AreMarked self.now }
        requires within { k < length (found self.now) }
        ensures { slice_get (found self.now) k ≡ Some result }
    {
        self.order[k]
    }

    /// Takes all nodes out, in time that grows with how many there are.
    pub fn clear(&mut self)
        requires { AreMarked self.old }
        ensures set { AreMarked self.new }
        ensures size { length self.new.marks.items ≡ length self.old.marks.items }
        ensures none { found self.new ≡ [] }
    {
        unmark(&mut self.marks, &self.order[..self.count]);
        self.count = 0;
    }
}

// Takes the marks of these nodes away.
fn unmark(marks: &mut Vec<bool>, nodes: &[NodeId])
    requires { IsMarkedList marks.old.items nodes.now }
    ensures set { IsMarkedList marks.new.items [] }
    ensures size { length marks.new.items ≡ length marks.old.items }
{
    for node in nodes {
        marks[node.0 as usize] = false;
    }
}
