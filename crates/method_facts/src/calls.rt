// The calls of statements, by halving.
ghost use Rattle.std.specs.Prelude.{◌≡◌, ◌<◌, ◌^◌, ℕ, Some, MatchOption, length, slice_get};
ghost use Rattle.slicer_ids.specs.declared.ids.CallId.{CallId};
ghost use Rattle.dep_form.specs.declared.call_site.CallSite.{CallSite};
ghost use Rattle.dep_form.specs.Orders.{statement_cmp};
ghost use Rattle.method_facts.specs.Calls.{ArePlaced, IsCallAt, place_of};

use dep_form::call_site::CallSite;
use slicer_ids::ids::{CallId, MethodId, Statement};
use std::cmp::Ordering;

// Where a call stands; none of those that are looked for has no place.
fn place(call: &CallSite) -> Statement
    ensures { result ≡ place_of call.now }
{
    match call.place {
        Some(place) => place,
        None => Statement {
            method: MethodId(0),
            pc: 0,
        },
    }
}

fn compare(call: &CallSite, t: Statement) -> Ordering
    ensures { result ≡ statement_cmp (place_of call.now) t }
{
    place(call).cmp(&t)
}

/// The number of the call at a statement; none where it is no call.
pub fn find_call(calls: &[CallSite], t: Statement) -> Option<CallId>
    requires placed { ArePlaced calls.now }
    requires few { length calls.now < 2 ^ 32 }
    ensures { MatchOption result ((c : CallId) → IsCallAt calls.now t c → ⊥) (λ c. IsCallAt calls.now t c) }
{
    match calls.binary_search_by(|call| compare(call, t)) {
        Ok(c) => Some(CallId(c as u32)),
        Err(_) => None,
    }
}
