// Whether edges join what they may join.
ghost use Rattle.std.specs.Prelude.{◌≡◌, true, All, List};
ghost use Rattle.dep_form.specs.declared.node.Edge.{Edge};
ghost use Rattle.dep_form.specs.WithinFacts.{IsFit};
ghost use Rattle.checked_facts.specs.Checks.{IsAccessEnd, FitsHere};

use crate::nodes::{are_in_one_method, is_exit_node, is_formal_node, is_own_node};
use dep_form::access::Access;
use dep_form::input::MethodInput;
use dep_form::node::{Edge, Label};
use slicer_ids::ids::{NodeId, Statement};

fn is_access_end(
    inputs: &[Option<MethodInput>],
    accesses: &[(Statement, Access)],
    n: NodeId,
) -> bool
    ensures { result ≡ true → IsAccessEnd inputs.now accesses.now n }
{
    for (place, _) in accesses {
        if is_own_node(inputs, n, *place) {
            return true;
        }
    }
    false
}

fn is_fit(inputs: &[Option<MethodInput>], accesses: &[(Statement, Access)], e: Edge) -> bool
    ensures { result ≡ true → FitsHere inputs.now accesses.now e }
{
    match e.label {
        Label::Thin => are_in_one_method(inputs, e.from, e.to),
        Label::Base => {
            are_in_one_method(inputs, e.from, e.to) && is_access_end(inputs, accesses, e.to)
        }
        Label::Call(_) => is_formal_node(inputs, e.to),
        Label::Return(_) => is_exit_node(inputs, e.from),
    }
}

/// Whether each edge joins what its label says.
pub fn are_fit(
    inputs: &[Option<MethodInput>],
    accesses: &[(Statement, Access)],
    edges: &[Edge],
) -> bool
    ensures { result ≡ true → All (FitsHere inputs.now accesses.now) edges.now }
{
    for e in edges {
        if !is_fit(inputs, accesses, *e) {
            return false;
        }
    }
    true
}
