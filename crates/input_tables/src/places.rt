// The numbers of nodes in the row of a method, by halving.
ghost use Rattle.std.specs.Prelude.{◌≡◌, ◌<◌, ◌↔◌, ◌^◌, ℕ, AllPairs, Some, length, slice_get};
ghost use Rattle.dep_form.specs.Nodes.{ComesBefore};
ghost use Rattle.input_tables.specs.Places.{place_cmp, place_of};

use dep_form::node::Node;
use std::cmp::Ordering;

/// Where a node stands among those of its method.
#[derive(Clone, Copy, PartialEq, Eq, PartialOrd, Ord)]
pub struct Place {
    pub group: u8,
    pub pc: u16,
    pub part: u8,
    pub number: u32,
}

fn place_at(group: u8, pc: u16, part: u8, number: u32) -> Place
    ensures { result ≡ record { group = group; pc = pc; part = part; number = number } }
{
    Place {
        group,
        pc,
        part,
        number,
    }
}

fn place_of(node: Node) -> Place
    ensures { result ≡ place_of node }
{
    match node {
        Node::Formal(i) => place_at(0, 0, 0, i as u32),
        Node::HeapIn(l) => place_at(1, 0, 0, l.0),
        Node::Own(pc) => place_at(2, pc, 0, 0),
        Node::Argument(pc, i) => place_at(2, pc, 1, i as u32),
        Node::Result(pc) => place_at(2, pc, 2, 0),
        Node::Exception(pc) => place_at(2, pc, 3, 0),
        Node::HeapArg(pc, l) => place_at(2, pc, 4, l.0),
        Node::HeapResult(pc, l) => place_at(2, pc, 5, l.0),
        Node::Return => place_at(3, 0, 0, 0),
        Node::Thrown => place_at(4, 0, 0, 0),
        Node::HeapOut(l) => place_at(5, 0, 0, l.0),
    }
}

fn compare(node: &Node, other: Node) -> Ordering
    ensures { result ≡ place_cmp (place_of node.now) (place_of other) }
{
    place_of(*node).cmp(&place_of(other))
}

/// The number of a node in a row; none where it isn't there.
pub fn place_in(row: &[Node], node: Node) -> Option<u32>
    requires order { AllPairs ComesBefore row.now }
    requires few { length row.now < 2 ^ 32 }
    ensures { (i : ℕ) → (result ≡ Some i) ↔ (slice_get row.now i ≡ Some node) }
{
    match row.binary_search_by(|x| compare(x, node)) {
        Ok(i) => Some(i as u32),
        Err(_) => None,
    }
}
