// Whether all exits are listed, and nothing else.
ghost use Rattle.std.specs.Prelude.{◌≡◌, ◌<◌, ◌≤◌, ◌+◌, ◌^◌, true, length};
ghost use Rattle.slicer_ids.specs.declared.ids.NodeId.{NodeId};
ghost use Rattle.slicer_ids.specs.declared.ids.MethodId.{MethodId};
ghost use Rattle.dep_form.specs.Inputs.{IsExitNode};
ghost use Rattle.checked_facts.specs.Checks.{AreAllListed, AreListed, AreListedAt, IsListedAt, AreExits};

use crate::nodes::{is_exit, is_exit_node};
use dep_form::input::MethodInput;
use dep_form::node::Node;
use slicer_ids::ids::NodeId;

/// Whether all of these are exits.
pub fn are_exits(inputs: &[Option<MethodInput>], exits: &[NodeId]) -> bool
    ensures { result ≡ true → AreExits inputs.now exits.now }
{
    for n in exits {
        if !is_exit_node(inputs, *n) {
            return false;
        }
    }
    true
}

// Whether the node at this place is listed, where it is an exit.
fn is_listed_at(nodes: &[Node], first: NodeId, exits: &[NodeId], k: usize) -> bool
    requires { first.0 + length nodes.now ≤ 2 ^ 32 }
    ensures { result ≡ true → IsListedAt nodes.now first.0 exits.now k }
{
    match nodes.get(k) {
        Some(node) => !is_exit(*node) || exits.contains(&NodeId(first.0 + k as u32)),
        None => true,
    }
}

fn are_listed(input: &MethodInput, exits: &[NodeId]) -> bool
    ensures { result ≡ true → AreListed exits.now input.now }
{
    let nodes = input.nodes.items();
    for k in 0..nodes.len() {
        if !is_listed_at(nodes, input.first, exits, k) {
            return false;
        }
    }
    true
}

fn are_listed_at(inputs: &[Option<MethodInput>], exits: &[NodeId], m: usize) -> bool
    requires { m < length inputs.now }
    ensures { result ≡ true → AreListedAt inputs.now exits.now m }
{
    match &inputs[m] {
        Some(input) => are_listed(input, exits),
        None => true,
    }
}

/// Whether all exits are listed. The root, which comes last, has none.
pub fn are_all_listed(inputs: &[Option<MethodInput>], exits: &[NodeId]) -> bool
    ensures { result ≡ true → AreAllListed inputs.now exits.now }
{
    for m in 0..inputs.len().saturating_sub(1) {
        if !are_listed_at(inputs, exits, m) {
            return false;
        }
    }
    true
}
