// Facts of parts, where they fit together.
ghost use Rattle.std.specs.Prelude.{◌≡◌, ◌<◌, ◌≤◌, ◌^◌, ◌+◌, ◌++◌, true, IfOk, IfSome, OnOk, length};
ghost use Rattle.dep_form.specs.Firsts.{node_count, nodes_in};
ghost use Rattle.dep_form.specs.Graphs.{HasInput};
ghost use Rattle.dep_form.specs.WithinFacts.{FollowOn};
ghost use Rattle.checked_facts.specs.Checks.{HasEdges, IsAtPlace, edges_in};
ghost use Rattle.checked_facts.specs.Whole.{AreCounted, AreEdgesRight, AreExitsRight, AreFactsOf, AreInOrder, AreListsWithin, IsOfParts};

use crate::calls::are_of_one_caller;
use crate::exits::{are_all_listed, are_exits};
use crate::fit::are_fit;
use crate::lists::{Sizes, are_accesses, are_lines, are_methods, are_placed, are_values};
use crate::nodes::input_at;
use crate::rising::rise;
use dep_form::access::Access;
use dep_form::facts::Facts;
use dep_form::input::MethodInput;
use dep_form::node::Edge;
use dep_form::texts::{MethodText, SiteName};
use slicer_ids::ids::{ClassId, NoMemory, NodeId, SiteId, Statement};
use slicer_ids::list::List;
use slicer_ids::name::Name;
use std::alloc::Global;

/// The parts of facts: see `Facts`.
#[derive(Drop)]
pub struct Parts {
    pub inputs: List<Option<MethodInput>>,
    pub exits: List<NodeId>,
    pub classes: List<Name>,
    pub methods: List<MethodText>,
    pub sites: List<SiteName>,
    pub lines: List<(ClassId, u16, List<Statement>)>,
    pub accesses: List<(Statement, Access)>,
    pub values: List<(Statement, List<SiteId>)>,
}

// Adds edges at the end.
fn add_edges(all: &mut Vec<Edge>, edges: &[Edge]) -> Result<(), NoMemory>
    ensures { OnOk result (all.new.items ≡ all.old.items ++ edges.now) }
{
    all.extend_from_slice(edges)?;
    Ok(())
}

// All edges that the inputs list.
fn edges_of(alloc: Global, inputs: &[Option<MethodInput>]) -> Result<Vec<Edge>, NoMemory>
    ensures { IfOk result (λ edges. HasEdges inputs.now edges.items) }
{
    let mut all = Vec::new(alloc);
    for input in inputs {
        add_of(&mut all, input)?;
    }
    Ok(all)
}

fn add_of(all: &mut Vec<Edge>, input: &Option<MethodInput>) -> Result<(), NoMemory>
    ensures { OnOk result (all.new.items ≡ all.old.items ++ edges_in input.now) }
{
    match input {
        Some(input) => add_edges(all, input.direct.items()),
        None => Ok(()),
    }
}

fn count_nodes(input: &Option<MethodInput>) -> usize
    ensures { result ≡ nodes_in input.now }
{
    match input {
        Some(input) => input.nodes.items().len(),
        None => 0,
    }
}

// Whether the input, where there is one, is that of the method at this place, with its first node here.
fn is_at_place(input: &Option<MethodInput>, m: usize, next: usize) -> bool
    ensures { result ≡ true → IsAtPlace input.now m next }
{
    match input {
        Some(input) => input.method.0 as usize == m && input.first.0 as usize == next,
        None => true,
    }
}

// As many and those of the input; none where there are more than a number says.
fn add_count(count: usize, input: &Option<MethodInput>) -> Option<usize>
    ensures { IfSome result (λ sum. sum ≡ count + nodes_in input.now) }
{
    count.checked_add(count_nodes(input))
}

// How many nodes there are, where the inputs follow on; none where they don't.
fn count_in_order(inputs: &[Option<MethodInput>]) -> Option<usize>
    ensures { IfSome result (λ count. (count ≡ node_count inputs.now) × FollowOn inputs.now) }
{
    let mut next = 0;
    for m in 0..inputs.len() {
        if !is_at_place(&inputs[m], m, next) {
            return None;
        }
        next = add_count(next, &inputs[m])?;
    }
    Some(next)
}

fn has_root(inputs: &[Option<MethodInput>], root: usize) -> bool
    ensures { result ≡ true → HasInput inputs.now (record { 0 = root }) }
{
    match input_at(inputs, root) {
        Some(_) => true,
        None => false,
    }
}

fn are_few(nodes: usize, inputs: usize) -> bool
    ensures { result ≡ true → (nodes ≤ 2 ^ 24) × (inputs < 2 ^ 32) }
{
    nodes <= 1 << 24 && inputs < 1 << 32
}

fn are_below(exits: usize, classes: usize) -> bool
    ensures { result ≡ true → (exits < 2 ^ 32) × (classes < 2 ^ 32) }
{
    exits < 1 << 32 && classes < 1 << 32
}

// Whether there are few enough, a text for each method, and the root.
fn are_counted(parts: &Parts, nodes: usize) -> bool
    ensures { result ≡ true → AreCounted parts.now nodes }
{
    let inputs = parts.inputs.items().len();
    let methods = parts.methods.items().len();
    if !are_few(nodes, inputs) || inputs != methods + 1 {
        return false;
    }
    if !are_below(parts.exits.items().len(), parts.classes.items().len()) {
        return false;
    }
    has_root(parts.inputs.items(), methods)
}

fn are_in_order(parts: &Parts) -> bool
    ensures { result ≡ true → AreInOrder parts.now }
{
    rise(parts.classes.items())
        && rise(parts.methods.items())
        && rise(parts.lines.items())
        && rise(parts.accesses.items())
        && rise(parts.values.items())
}

fn are_lists_within(parts: &Parts, nodes: usize) -> bool
    ensures { result ≡ true → AreListsWithin parts.now nodes }
{
    let n = Sizes {
        nodes,
        classes: parts.classes.items().len(),
        methods: parts.methods.items().len(),
        sites: parts.sites.items().len(),
    };
    are_methods(n, parts.methods.items())
        && are_placed(n, parts.sites.items())
        && are_lines(n, parts.lines.items())
        && are_accesses(n, parts.accesses.items())
        && are_values(n, parts.values.items())
}

fn are_exits_right(parts: &Parts) -> bool
    ensures { result ≡ true → AreExitsRight parts.now }
{
    if !are_exits(parts.inputs.items(), parts.exits.items()) {
        return false;
    }
    if !are_all_listed(parts.inputs.items(), parts.exits.items()) {
        return false;
    }
    rise(parts.exits.items())
}

fn are_edges_right(parts: &Parts, edges: &[Edge]) -> bool
    ensures { result ≡ true → AreEdgesRight parts.now edges.now }
{
    if !are_fit(parts.inputs.items(), parts.accesses.items(), edges) {
        return false;
    }
    are_of_one_caller(parts.inputs.items(), edges)
}

fn are_right(parts: &Parts, edges: &[Edge], nodes: usize) -> bool
    ensures counted { result ≡ true → AreCounted parts.now nodes }
    ensures order { result ≡ true → AreInOrder parts.now }
    ensures lists { result ≡ true → AreListsWithin parts.now nodes }
    ensures exits { result ≡ true → AreExitsRight parts.now }
    ensures edges { result ≡ true → AreEdgesRight parts.now edges.now }
{
    if !are_counted(parts, nodes) || !are_in_order(parts) {
        return false;
    }
    if !are_lists_within(parts, nodes) || !are_exits_right(parts) {
        return false;
    }
    are_edges_right(parts, edges)
}

fn are_facts(parts: &Parts, edges: &[Edge]) -> bool
    requires { HasEdges parts.now.inputs edges.now }
    ensures { result ≡ true → AreFactsOf parts.now }
{
    match count_in_order(parts.inputs.items()) {
        Some(nodes) => are_right(parts, edges, nodes),
        None => false,
    }
}

/// The facts of these parts; none where the test finds that they don't fit together. That the test refuses no parts that do isn't
/// proved. It costs the square of the edges.
pub fn facts_of(alloc: Global, parts: Parts) -> Result<Option<Facts>, NoMemory>
    ensures { IfOk result (λ facts. IfSome facts (IsOfParts parts)) }
{
    let edges = edges_of(alloc, parts.inputs.items())?;
    if !are_facts(&parts, &edges) {
        return Ok(None);
    }
    let facts = make(alloc, parts)?;
    Ok(Some(facts))
}

fn make(alloc: Global, parts: Parts) -> Result<Facts, NoMemory>
    requires { AreFactsOf parts }
    ensures { IfOk result (IsOfParts parts) }
{
    let Parts {
        inputs,
        exits,
        classes,
        methods,
        sites,
        lines,
        accesses,
        values,
    } = parts;
    Facts::new(
        alloc, inputs, exits, classes, methods, sites, lines, accesses, values,
    )
}
