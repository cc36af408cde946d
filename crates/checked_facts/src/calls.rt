// Whether the edges of each call lie with one caller.
ghost use Rattle.std.specs.Prelude.{◌≡◌, true, All};
ghost use Rattle.dep_form.specs.WithinFacts.{InOneMethod};
ghost use Rattle.checked_facts.specs.Checks.{caller_end, EndFits, EndsFit};

use crate::nodes::are_in_one_method;
use dep_form::input::MethodInput;
use dep_form::node::{Edge, Label};
use slicer_ids::ids::{CallId, NodeId};

// The call of an edge, and the node of the edge that lies with the caller.
fn caller_end(e: Edge) -> Option<(CallId, NodeId)>
    ensures { result ≡ caller_end e }
{
    match e.label {
        Label::Call(c) => Some((c, e.from)),
        Label::Return(c) => Some((c, e.to)),
        _ => None,
    }
}

// Whether the ends are in one method, where the calls are one.
fn fits_or_other(inputs: &[Option<MethodInput>], c: CallId, a: NodeId, d: CallId, b: NodeId) -> bool
    ensures { result ≡ true → c ≡ d → InOneMethod inputs.now a b }
{
    if c == d {
        return are_in_one_method(inputs, a, b);
    }
    true
}

fn end_fits(inputs: &[Option<MethodInput>], c: CallId, a: NodeId, e: Edge) -> bool
    ensures { result ≡ true → EndFits inputs.now c a e }
{
    match caller_end(e) {
        Some((d, b)) => fits_or_other(inputs, c, a, d, b),
        None => true,
    }
}

fn ends_fit(inputs: &[Option<MethodInput>], c: CallId, a: NodeId, edges: &[Edge]) -> bool
    ensures { result ≡ true → All (EndFits inputs.now c a) edges.now }
{
    for e in edges {
        if !end_fits(inputs, c, a, *e) {
            return false;
        }
    }
    true
}

fn fits_all(inputs: &[Option<MethodInput>], edges: &[Edge], e: Edge) -> bool
    ensures { result ≡ true → EndsFit inputs.now edges.now e }
{
    match caller_end(e) {
        Some((c, a)) => ends_fit(inputs, c, a, edges),
        None => true,
    }
}

/// Whether the edges of each call have their ends with the caller in one method.
pub fn are_of_one_caller(inputs: &[Option<MethodInput>], edges: &[Edge]) -> bool
    ensures { result ≡ true → All (EndsFit inputs.now edges.now) edges.now }
{
    for e in edges {
        if !fits_all(inputs, edges, *e) {
            return false;
        }
    }
    true
}
