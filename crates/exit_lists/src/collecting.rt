// The nodes of exits, method by method.
ghost use Rattle.std.specs.Prelude.{◌≡◌, ◌<◌, ◌≤◌, ◌+◌, ◌-◌, ◌^◌, ◌++◌, ◌∷◌, [], ℕ, true, IfOk, OnOk, Some, length, slice_get, take};
ghost use Rattle.slicer_ids.specs.Sets.{IsOrderedListOf};
ghost use Rattle.slicer_ids.specs.declared.ids.MethodId.{MethodId};
ghost use Rattle.dep_form.specs.Firsts.{node_count, nodes_in};
ghost use Rattle.dep_form.specs.declared.input.MethodInput.{MethodInput};
ghost use Rattle.dep_form.specs.Inputs.{IsExitNode};
ghost use Rattle.dep_form.specs.Nodes.{is_exit};
ghost use Rattle.dep_form.specs.WithinFacts.{FollowOn, NodeBefore};
ghost use Rattle.worklists.specs.Growth.{Grows};
ghost use Rattle.worklists.proofs.Growing.{FromBelow};
ghost use Rattle.exit_lists.specs.Exits.{IsExitIn, IsExitOf, IsExitPlace, IsRising, numbered};

use dep_form::input::MethodInput;
use dep_form::node::Node;
use slicer_ids::ids::{NoMemory, NodeId};
use slicer_ids::list::List;
use std::alloc::Global;

fn is_exit(node: Node) -> bool
    ensures { result ≡ is_exit node }
{
    match node {
        Node::Return => true,
        Node::Thrown => true,
        Node::HeapOut(_) => true,
        _ => false,
    }
}

fn push(exits: &mut Vec<NodeId>, n: u32) -> Result<(), NoMemory>
    ensures { OnOk result (exits.new.items ≡ exits.old.items ++ numbered n ∷ []) }
{
    match exits.push(NodeId(n)) {
        Ok(()) => Ok(()),
        Err(_) => Err(NoMemory),
    }
}

// Adds a number, where its node is an exit.
fn add_if(exits: &mut Vec<NodeId>, exit: bool, n: u32) -> Result<(), NoMemory>
    requires { IsRising n exits.old.items }
    ensures rising { OnOk result (IsRising (n + 1) exits.new.items) }
    ensures members { OnOk result (Grows exits.old.items exits.new.items (λ x. (exit ≡ true) × (x ≡ numbered n))) }
{
    if exit { push(exits, n) } else { Ok(()) }
}

fn node_at(nodes: &[Node], k: usize) -> Node
    requires { k < length nodes.now }
    ensures { slice_get nodes.now k ≡ Some result }
{
    nodes[k]
}

// Adds the number of the node at a place, where it is an exit.
fn add_place(exits: &mut Vec<NodeId>, first: u32, nodes: &[Node], k: usize) -> Result<(), NoMemory>
    requires place { k < length nodes.now }
    requires numbers { first + length nodes.now ≤ 2 ^ 32 }
    requires rising { IsRising (first + k) exits.old.items }
    ensures rising { OnOk result (IsRising (first + k + 1) exits.new.items) }
    ensures members { OnOk result (Grows exits.old.items exits.new.items (IsExitPlace first nodes.now k)) }
{
    let exit = is_exit(node_at(nodes, k));
    add_if(exits, exit, first + k as u32)
}

// Adds the numbers of the exits among nodes that are numbered from `first` on.
fn add_nodes(exits: &mut Vec<NodeId>, first: u32, nodes: &[Node]) -> Result<(), NoMemory>
    requires numbers { first + length nodes.now ≤ 2 ^ 32 }
    requires rising { IsRising first exits.old.items }
    ensures rising { OnOk result (IsRising (first + length nodes.now) exits.new.items) }
    ensures members { OnOk result (Grows exits.old.items exits.new.items (FromBelow (IsExitPlace first nodes.now) (length nodes.now))) }
{
    for k in 0..nodes.len() {
        add_place(exits, first, nodes, k)?;
    }
    Ok(())
}

// Adds the exits of an input.
fn add_input(exits: &mut Vec<NodeId>, input: &MethodInput) -> Result<(), NoMemory>
    requires { IsRising input.now.first.0 exits.old.items }
    ensures rising { OnOk result (IsRising (input.now.first.0 + length input.now.nodes) exits.new.items) }
    ensures members { OnOk result (Grows exits.old.items exits.new.items (FromBelow (IsExitPlace input.now.first.0 input.now.nodes) (length input.now.nodes))) }
{
    add_nodes(exits, input.first.0, input.nodes.items())
}

// .. where there is one.
fn add_option(exits: &mut Vec<NodeId>, input: &Option<MethodInput>) -> Result<(), NoMemory>
    requires { (i : MethodInput) → input.now ≡ Some i → IsRising i.first.0 exits.old.items }
    ensures rising { (b : ℕ) → IsRising b exits.old.items → ((i : MethodInput) → input.now ≡ Some i → i.first.0 ≡ b) → OnOk result (IsRising (b + nodes_in input.now) exits.new.items) }
    ensures members { OnOk result (Grows exits.old.items exits.new.items (IsExitIn input.now)) }
{
    match input {
        Some(input) => add_input(exits, input),
        None => Ok(()),
    }
}

fn input_at(inputs: &[Option<MethodInput>], m: usize) -> &Option<MethodInput>
    requires { m < length inputs.now }
    ensures { slice_get inputs.now m ≡ Some result.now }
{
    &inputs[m]
}

// Adds the exits of the method of this number.
fn add_method(
    exits: &mut Vec<NodeId>,
    inputs: &[Option<MethodInput>],
    m: usize,
) -> Result<(), NoMemory>
    requires follow_on { FollowOn inputs.now }
    requires number { m < length inputs.now }
    requires rising { IsRising (node_count (take m inputs.now)) exits.old.items }
    ensures rising { OnOk result (IsRising (node_count (take (m + 1) inputs.now)) exits.new.items) }
    ensures members { OnOk result (Grows exits.old.items exits.new.items (IsExitOf inputs.now m)) }
{
    let input = input_at(inputs, m);
    add_option(exits, input)
}

// The exits of the first methods.
fn exits_below(
    alloc: Global,
    inputs: &[Option<MethodInput>],
    count: usize,
) -> Result<Vec<NodeId>, NoMemory>
    requires follow_on { FollowOn inputs.now }
    requires count { count ≤ length inputs.now }
    ensures { IfOk result (λ v. IsOrderedListOf NodeBefore v.items (FromBelow (IsExitOf inputs.now) count)) }
{
    let mut exits = Vec::new(alloc);
    for m in 0..count {
        add_method(&mut exits, inputs, m)?;
    }
    Ok(exits)
}

/// The nodes of the exits of all methods but the root, which is the last: what they answer, what they throw, and the locations that they
/// change, in the order of their numbers. It goes once over the nodes; an exit takes 4 bytes. The only error is want of memory.
pub fn exits(alloc: Global, inputs: &[Option<MethodInput>]) -> Result<List<NodeId>, NoMemory>
    requires { FollowOn inputs.now }
    ensures { IfOk result (λ exits. IsOrderedListOf NodeBefore exits (λ n. (m : MethodId) × IsExitNode inputs.now n m)) }
{
    let methods = inputs.len().saturating_sub(1);
    let exits = exits_below(alloc, inputs, methods)?;
    Ok(List::from_vec(exits))
}
