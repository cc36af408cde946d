// The input of a method, of parts that fit together.
ghost use Rattle.std.specs.Prelude.{◌≡◌, true, All, IfSome};
ghost use Rattle.dep_form.specs.Among.{IsAmong};
ghost use Rattle.dep_form.specs.Nodes.{is_formal};
ghost use Rattle.checked_facts.specs.InputParts.{AreInputParts, AreSmall, EndsAmong, IsFlowWithin, IsInputOfParts, IsUse};

use crate::rising::{Ranked, rise};
use dep_form::input::MethodInput;
use dep_form::node::{Edge, Node};
use slicer_ids::ids::{LocId, MethodId, NodeId};
use slicer_ids::list::List;

/// The parts of a method's input: see `MethodInput`.
#[derive(Drop)]
pub struct InputParts {
    pub method: MethodId,
    pub first: NodeId,
    pub nodes: List<Node>,
    pub points: u32,
    pub flow: List<(u32, u32)>,
    pub direct: List<Edge>,
    pub puts: List<(u32, NodeId, LocId)>,
    pub gets: List<(u32, NodeId, LocId)>,
}

impl Ranked for Node {
    ghost use Rattle.checked_facts.specs.Rising.{FormalBefore};

    ghost comes_before = { FormalBefore };

    // Formals stand before all else.
    fn is_before(&self, other: &Node) -> bool {
        is_formal(self) || !is_formal(other)
    }
}

fn is_formal(node: &Node) -> bool
    ensures { result ≡ is_formal node.now }
{
    matches!(node, Node::Formal(_) | Node::HeapIn(_))
}

fn is_among(parts: &InputParts, n: NodeId) -> bool
    requires { AreSmall parts.now }
    ensures { result ≡ true → IsAmong parts.now.first.0 parts.now.nodes n.0 }
{
    parts.first.0 <= n.0 && ((n.0 - parts.first.0) as usize) < parts.nodes.items().len()
}

fn end_among(parts: &InputParts) -> bool
    requires { AreSmall parts.now }
    ensures { result ≡ true → All (EndsAmong parts.now) parts.now.direct }
{
    let edges = parts.direct.items();
    for e in edges {
        if !is_among(parts, e.to) {
            return false;
        }
    }
    true
}

fn are_uses(parts: &InputParts, uses: &[(u32, NodeId, LocId)]) -> bool
    requires { AreSmall parts.now }
    ensures { result ≡ true → All (IsUse parts.now) uses.now }
{
    for item in uses {
        if item.0 >= parts.points || !is_among(parts, item.1) {
            return false;
        }
    }
    true
}

fn is_flow_within(points: u32, flow: &[(u32, u32)]) -> bool
    ensures { result ≡ true → All (IsFlowWithin points) flow.now }
{
    for step in flow {
        if step.0 >= points || step.1 >= points {
            return false;
        }
    }
    true
}

fn are_small(parts: &InputParts) -> bool
    ensures { result ≡ true → AreSmall parts.now }
{
    let count = parts.nodes.items().len();
    count < 1 << 32 && count + parts.first.0 as usize <= 1 << 32
}

fn are_input_parts(parts: &InputParts) -> bool
    ensures { result ≡ true → AreInputParts parts.now }
{
    if !are_small(parts) || !rise(parts.nodes.items()) || !end_among(parts) {
        return false;
    }
    if !are_uses(parts, parts.puts.items()) || !are_uses(parts, parts.gets.items()) {
        return false;
    }
    is_flow_within(parts.points, parts.flow.items())
}

/// The input of these parts; none where the test finds that they don't fit together.
pub fn input_of(parts: InputParts) -> Option<MethodInput>
    ensures { IfSome result (IsInputOfParts parts) }
{
    if !are_input_parts(&parts) {
        return None;
    }
    Some(make(parts))
}

fn make(parts: InputParts) -> MethodInput
    requires { AreInputParts parts }
    ensures { IsInputOfParts parts result }
{
    let InputParts {
        method,
        first,
        nodes,
        points,
        flow,
        direct,
        puts,
        gets,
    } = parts;
    MethodInput {
        method,
        first,
        nodes,
        points,
        flow,
        direct,
        puts,
        gets,
    }
}
