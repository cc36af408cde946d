// The edges of one call, found by halving in lists in the order of calls.
ghost use Rattle.std.specs.Prelude.{◌≡◌, ◌≤◌, ◌↔◌, length, Contains, true, false};
ghost use Rattle.std.specs.List.Sorted.{IsNonDecreasingBy, IsPartitionPoint};
ghost use Rattle.std.proofs.Common.{ltb, leb};
ghost use Rattle.tabulate.specs.declared.method.Argument.{Argument};
ghost use Rattle.tabulate.specs.declared.method.Back.{Back};

use crate::method::{Argument, Back};
use slicer_ids::ids::CallId;

// How many arguments are of an earlier call.
fn arguments_before(arguments: &[Argument], call: CallId) -> usize
    requires { IsNonDecreasingBy (λ (x : Argument). x.call.0) arguments.now }
    ensures bound { result ≤ length arguments.now }
    ensures point { IsPartitionPoint (λ (x : Argument). ltb x.call.0 call.0 ≡ true) (λ (x : Argument). ltb x.call.0 call.0 ≡ false) arguments.now result }
{
    arguments.partition_point(|x| x.call.0 < call.0)
}

// How many arguments are of the call or an earlier one.
fn arguments_through(arguments: &[Argument], call: CallId) -> usize
    requires { IsNonDecreasingBy (λ (x : Argument). x.call.0) arguments.now }
    ensures bound { result ≤ length arguments.now }
    ensures point { IsPartitionPoint (λ (x : Argument). leb x.call.0 call.0 ≡ true) (λ (x : Argument). leb x.call.0 call.0 ≡ false) arguments.now result }
{
    arguments.partition_point(|x| x.call.0 <= call.0)
}

/// The arguments of one call.
pub fn arguments_of_call(arguments: &[Argument], call: CallId) -> &[Argument]
    requires { IsNonDecreasingBy (λ (x : Argument). x.call.0) arguments.now }
    ensures { (x : Argument) → Contains result.now x ↔ (Contains arguments.now x × (x.call ≡ call)) }
{
    let low = arguments_before(arguments, call);
    let high = arguments_through(arguments, call);
    &arguments[low..high]
}

// How many returns are of an earlier call.
fn returns_before(returns: &[Back], call: CallId) -> usize
    requires { IsNonDecreasingBy (λ (x : Back). x.call.0) returns.now }
    ensures bound { result ≤ length returns.now }
    ensures point { IsPartitionPoint (λ (x : Back). ltb x.call.0 call.0 ≡ true) (λ (x : Back). ltb x.call.0 call.0 ≡ false) returns.now result }
{
    returns.partition_point(|x| x.call.0 < call.0)
}

// How many returns are of the call or an earlier one.
fn returns_through(returns: &[Back], call: CallId) -> usize
    requires { IsNonDecreasingBy (λ (x : Back). x.call.0) returns.now }
    ensures bound { result ≤ length returns.now }
    ensures point { IsPartitionPoint (λ (x : Back). leb x.call.0 call.0 ≡ true) (λ (x : Back). leb x.call.0 call.0 ≡ false) returns.now result }
{
    returns.partition_point(|x| x.call.0 <= call.0)
}

/// The returns of one call.
pub fn returns_of_call(returns: &[Back], call: CallId) -> &[Back]
    requires { IsNonDecreasingBy (λ (x : Back). x.call.0) returns.now }
    ensures { (x : Back) → Contains result.now x ↔ (Contains returns.now x × (x.call ≡ call)) }
{
    let low = returns_before(returns, call);
    let high = returns_through(returns, call);
    &returns[low..high]
}
