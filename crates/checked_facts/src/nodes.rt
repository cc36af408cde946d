// Nodes found among those of some inputs.
ghost use Rattle.std.specs.Prelude.{◌≡◌, IfSome, Some, slice_get, true};
ghost use Rattle.slicer_ids.specs.declared.ids.MethodId.{MethodId};
ghost use Rattle.dep_form.specs.declared.node.Node.{Node};
ghost use Rattle.dep_form.specs.Nodes.{is_exit, is_formal, own_pc};
ghost use Rattle.dep_form.specs.Inputs.{IsNode, IsNodeOf, IsExitNode};
ghost use Rattle.dep_form.specs.WithinFacts.{InOneMethod};
ghost use Rattle.checked_facts.specs.Checks.{IsOwnNode, IsFormalNode, method_at};

use dep_form::input::MethodInput;
use dep_form::node::Node;
use slicer_ids::ids::{NodeId, Statement};

/// Whether the node is an exit of its method.
pub fn is_exit(node: Node) -> bool
    ensures { result ≡ is_exit node }
{
    matches!(node, Node::Return | Node::Thrown | Node::HeapOut(_))
}

fn is_formal(node: Node) -> bool
    ensures { result ≡ is_formal node }
{
    matches!(node, Node::Formal(_) | Node::HeapIn(_))
}

fn own_pc(node: Node) -> Option<u16>
    ensures { result ≡ own_pc node }
{
    match node {
        Node::Own(pc) => Some(pc),
        _ => None,
    }
}

// The node of this number, where it is one of the input's.
fn node_of(input: &MethodInput, n: NodeId) -> Option<Node>
    ensures { IfSome result (IsNodeOf input.now n) }
{
    if n.0 < input.first.0 {
        return None;
    }
    let place = (n.0 - input.first.0) as usize;
    input.nodes.items().get(place).copied()
}

/// The input at this place, where one is there.
pub fn input_at(inputs: &[Option<MethodInput>], m: usize) -> Option<&MethodInput>
    ensures { IfSome result (λ i. slice_get inputs.now m ≡ Some (Some i.now)) }
{
    match inputs.get(m) {
        Some(Some(input)) => Some(input),
        _ => None,
    }
}

// The node of this number, where it is one of the input at this place.
fn node_at(inputs: &[Option<MethodInput>], m: usize, n: NodeId) -> Option<Node>
    ensures { IfSome result (IsNode inputs.now n (method_at m)) }
{
    match input_at(inputs, m) {
        Some(input) => node_of(input, n),
        None => None,
    }
}

fn is_in(inputs: &[Option<MethodInput>], m: usize, n: NodeId) -> bool
    ensures { result ≡ true → (k : Node) × IsNode inputs.now n (method_at m) k }
{
    match node_at(inputs, m, n) {
        Some(_node) => true,
        None => false,
    }
}

fn are_both_in(inputs: &[Option<MethodInput>], m: usize, a: NodeId, b: NodeId) -> bool
    ensures { result ≡ true → InOneMethod inputs.now a b }
{
    match node_at(inputs, m, a) {
        Some(_first) => is_in(inputs, m, b),
        None => false,
    }
}

/// Whether both are nodes of one method.
pub fn are_in_one_method(inputs: &[Option<MethodInput>], a: NodeId, b: NodeId) -> bool
    ensures { result ≡ true → InOneMethod inputs.now a b }
{
    for m in 0..inputs.len() {
        if are_both_in(inputs, m, a, b) {
            return true;
        }
    }
    false
}

fn is_formal_in(inputs: &[Option<MethodInput>], m: usize, n: NodeId) -> bool
    ensures { result ≡ true → IsFormalNode inputs.now n }
{
    match node_at(inputs, m, n) {
        Some(node) => is_formal(node),
        None => false,
    }
}

/// Whether it is a formal of some method.
pub fn is_formal_node(inputs: &[Option<MethodInput>], n: NodeId) -> bool
    ensures { result ≡ true → IsFormalNode inputs.now n }
{
    for m in 0..inputs.len() {
        if is_formal_in(inputs, m, n) {
            return true;
        }
    }
    false
}

fn is_exit_in(inputs: &[Option<MethodInput>], m: usize, n: NodeId) -> bool
    ensures { result ≡ true → (l : MethodId) × IsExitNode inputs.now n l }
{
    if inputs.len() < 2 || m > inputs.len() - 2 {
        return false;
    }
    match node_at(inputs, m, n) {
        Some(node) => is_exit(node),
        None => false,
    }
}

/// Whether it is an exit of some method.
pub fn is_exit_node(inputs: &[Option<MethodInput>], n: NodeId) -> bool
    ensures { result ≡ true → (l : MethodId) × IsExitNode inputs.now n l }
{
    for m in 0..inputs.len() {
        if is_exit_in(inputs, m, n) {
            return true;
        }
    }
    false
}

/// Whether it is the statement's own node.
pub fn is_own_node(inputs: &[Option<MethodInput>], n: NodeId, s: Statement) -> bool
    ensures { result ≡ true → IsOwnNode inputs.now n s }
{
    match node_at(inputs, s.method.0 as usize, n) {
        Some(node) => own_pc(node) == Some(s.pc),
        None => false,
    }
}
