// Nodes of methods, one after another.
ghost use Rattle.std.specs.Prelude.{◌≡◌, ◌++◌, ◌∷◌, ◌≤◌, [], OnOk, map};
ghost use Rattle.node_tables.specs.Segments.{arguments, formals, heap_node, optional};

use dep_form::node::Node;
use slicer_ids::ids::{LocId, NoMemory};

/// Where a location stands in its method: on entry, before a call, after a call, on exit.
#[derive(Clone, Copy)]
pub enum Heap {
    Entry,
    Before(u16),
    After(u16),
    Exit,
}

fn heap_node(heap: Heap, n: LocId) -> Node
    ensures { result ≡ heap_node heap n }
{
    match heap {
        Heap::Entry => Node::HeapIn(n),
        Heap::Before(pc) => Node::HeapArg(pc, n),
        Heap::After(pc) => Node::HeapResult(pc, n),
        Heap::Exit => Node::HeapOut(n),
    }
}

/// Adds a node.
pub fn push(nodes: &mut Vec<Node>, node: Node) -> Result<(), NoMemory>
    ensures { OnOk result (nodes.new.items ≡ nodes.old.items ++ node ∷ []) }
{
    match nodes.push(node) {
        Ok(()) => Ok(()),
        Err(_) => Err(NoMemory),
    }
}

/// Adds a node, where it is there.
pub fn push_if(nodes: &mut Vec<Node>, there: bool, node: Node) -> Result<(), NoMemory>
    ensures { OnOk result (nodes.new.items ≡ nodes.old.items ++ optional there node) }
{
    if there { push(nodes, node) } else { Ok(()) }
}

/// Adds locations.
pub fn push_locations(
    nodes: &mut Vec<Node>,
    heap: Heap,
    locations: &[LocId],
) -> Result<(), NoMemory>
    ensures { OnOk result (nodes.new.items ≡ nodes.old.items ++ map (heap_node heap) locations.now) }
{
    for n in locations {
        push(nodes, heap_node(heap, *n))?;
    }
    Ok(())
}

/// Adds the arguments of a method.
pub fn push_formals(nodes: &mut Vec<Node>, count: usize) -> Result<(), NoMemory>
    requires { count ≤ 256 }
    ensures { OnOk result (nodes.new.items ≡ nodes.old.items ++ formals count) }
{
    for i in 0..count {
        push(nodes, Node::Formal(i as u8))?;
    }
    Ok(())
}

/// Adds the arguments of a call.
pub fn push_arguments(nodes: &mut Vec<Node>, pc: u16, count: usize) -> Result<(), NoMemory>
    requires { count ≤ 256 }
    ensures { OnOk result (nodes.new.items ≡ nodes.old.items ++ arguments pc count) }
{
    for i in 0..count {
        push(nodes, Node::Argument(pc, i as u8))?;
    }
    Ok(())
}
