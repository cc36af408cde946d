// Back over the edges that end in a node, with its new bits.
ghost use Rattle.std.specs.Prelude.{◌≡◌, ◌+◌, ◌*◌, ◌<◌, ◌≤◌, ℕ, List, OnOk, Some, None, Contains, length, IsTrue, ◌↔◌, IfSome, MatchOption};
ghost use Rattle.std.specs.List.Sorted.{IsNonDecreasingBy};
ghost use Rattle.bit_rows.specs.Words.{IsIn};
ghost use Rattle.slicer_ids.specs.declared.ids.NodeId.{NodeId};
ghost use Rattle.slicer_ids.specs.declared.ids.CallId.{CallId};
ghost use Rattle.dep_form.specs.declared.node.Edge.{Edge};
ghost use Rattle.dep_form.specs.declared.node.Label.TheVariants.{Call, Return};
ghost use Rattle.dep_form.specs.Inputs.{IsEdge};
ghost use Rattle.dep_form.specs.Phases.{edge};
ghost use Rattle.tabulate.specs.declared.method.Argument.{Argument};
ghost use Rattle.tabulate.specs.declared.method.Back.{Back};
ghost use Rattle.tabulate.specs.Frames.{IsExit, IsOf, count, method_of, number_of, width, first_exit, exit_count, row};
ghost use Rattle.tabulate.specs.Methods.{IsMethodOf, AreMethods, IsMet, IsArgument, IsBack};
ghost use Rattle.slicer_ids.specs.declared.ids.ExitId.{ExitId};
ghost use Rattle.dep_form.specs.Summaries.{IsExitAt, IsRow};
ghost use Rattle.tabulate.specs.Hands.{hand_of};
ghost use Rattle.tabulate.specs.Found.{IsOpen, AreFound, IsQueue, Goes, total, waits_of};
ghost use Rattle.tabulate.specs.Rules.{FromOne, Passes, PassesByHand, Comes, FollowsBy, Follows};

use crate::by_call::{arguments_of_call, returns_of_call};
use crate::found::{Found, copy, give, is_open, is_taken};
use crate::hands::Hands;
use crate::method::{Argument, Back, Method, find_method, owner};
use bit_rows::rows::has;
use dep_form::facts::Facts;
use dep_form::node::{Edge, Label};
use slicer_ids::ids::{CallId, ExitId, Mode, NoMemory, NodeId};
use slicer_ids::steps::Steps;
use std::collections::VecDeque;
use std::sync::ledger::Ledger;

// Gives the new bits of a return's end to an argument of its call, if the argument's formal leads to the return's exit.
fn pass_one<L: Ledger>(
    f: &Facts,
    exit: NodeId,
    number: usize,
    callee: &Method,
    argument: Argument,
    call: CallId,
    method: &Method,
    delta: &[u64],
    found: &mut Vec<Found>,
    queue: &mut VecDeque<NodeId>,
    steps: &mut Steps<L>,
) -> Result<(), NoMemory>
    requires exit { IsExit f.now exit.0 }
    requires number { number ≡ number_of f.now exit.0 }
    requires callee { IsMethodOf f.now callee.now }
    requires from { IsOf f.now exit.0 callee.now.id.0 }
    requires argument { IsArgument f.now callee.now.id.0 argument }
    requires home { argument.call ≡ call → IsOf f.now argument.from.0 method.now.id.0 }
    requires method { IsMethodOf f.now method.now }
    requires delta { length delta.now ≤ width f.now method.now.id.0 }
    requires found { AreFound f.now found.old.items }
    requires queue { IsQueue f.now found.old.items queue.old.items }
    requires opened { IsOpen f.now found.old.items method.now.id.0 }
    ensures goes { OnOk result (Goes f.now found.old.items found.new.items queue.old.items queue.new.items steps.old steps.new (Passes f.now exit call delta.now argument)) }
    ensures turns { steps.new + total found.old.items ≡ steps.old + total found.new.items }
{
    if argument.call != call {
        return Ok(());
    }
    if !is_taken(f, callee, argument.formal, number, found) {
        return Ok(());
    }
    give(f, method, argument.from, delta, found, queue, steps)?;
    Ok(())
}

// The same for each of some arguments.
fn pass_each<L: Ledger>(
    f: &Facts,
    exit: NodeId,
    number: usize,
    callee: &Method,
    arguments: &[Argument],
    call: CallId,
    method: &Method,
    delta: &[u64],
    found: &mut Vec<Found>,
    queue: &mut VecDeque<NodeId>,
    steps: &mut Steps<L>,
) -> Result<(), NoMemory>
    requires exit { IsExit f.now exit.0 }
    requires number { number ≡ number_of f.now exit.0 }
    requires callee { IsMethodOf f.now callee.now }
    requires from { IsOf f.now exit.0 callee.now.id.0 }
    requires arguments { (a : Argument) → Contains arguments.now a → IsArgument f.now callee.now.id.0 a × (a.call ≡ call → IsOf f.now a.from.0 method.now.id.0) }
    requires method { IsMethodOf f.now method.now }
    requires delta { length delta.now ≤ width f.now method.now.id.0 }
    requires found { AreFound f.now found.old.items }
    requires queue { IsQueue f.now found.old.items queue.old.items }
    requires opened { IsOpen f.now found.old.items method.now.id.0 }
    ensures goes { OnOk result (Goes f.now found.old.items found.new.items queue.old.items queue.new.items steps.old steps.new (FromOne (Passes f.now exit call delta.now) arguments.now)) }
    ensures turns { steps.new + total found.old.items ≡ steps.old + total found.new.items }
{
    for argument in arguments {
        pass_one(
            f, exit, number, callee, *argument, call, method, delta, found, queue, steps,
        )?;
    }
    Ok(())
}

// The same for those arguments that are of the call.
fn pass<L: Ledger>(
    f: &Facts,
    exit: NodeId,
    number: usize,
    callee: &Method,
    arguments: &[Argument],
    call: CallId,
    method: &Method,
    delta: &[u64],
    found: &mut Vec<Found>,
    queue: &mut VecDeque<NodeId>,
    steps: &mut Steps<L>,
) -> Result<(), NoMemory>
    requires exit { IsExit f.now exit.0 }
    requires number { number ≡ number_of f.now exit.0 }
    requires callee { IsMethodOf f.now callee.now }
    requires from { IsOf f.now exit.0 callee.now.id.0 }
    requires order { IsNonDecreasingBy (λ (x : Argument). x.call.0) arguments.now }
    requires arguments { (a : Argument) → Contains arguments.now a → IsArgument f.now callee.now.id.0 a × (a.call ≡ call → IsOf f.now a.from.0 method.now.id.0) }
    requires method { IsMethodOf f.now method.now }
    requires delta { length delta.now ≤ width f.now method.now.id.0 }
    requires found { AreFound f.now found.old.items }
    requires queue { IsQueue f.now found.old.items queue.old.items }
    requires opened { IsOpen f.now found.old.items method.now.id.0 }
    ensures goes { OnOk result (Goes f.now found.old.items found.new.items queue.old.items queue.new.items steps.old steps.new (FromOne (Passes f.now exit call delta.now) arguments.now)) }
    ensures turns { steps.new + total found.old.items ≡ steps.old + total found.new.items }
{
    let arguments = arguments_of_call(arguments, call);
    pass_each(
        f, exit, number, callee, arguments, call, method, delta, found, queue, steps,
    )?;
    Ok(())
}

// Gives the new bits of a return's end to an argument of its call, if the argument's formal is in the row of the return's exit.
fn pass_one_by_hand<L: Ledger>(
    f: &Facts,
    bits: &[u64],
    callee: &Method,
    argument: Argument,
    call: CallId,
    method: &Method,
    delta: &[u64],
    found: &mut Vec<Found>,
    queue: &mut VecDeque<NodeId>,
    steps: &mut Steps<L>,
) -> Result<(), NoMemory>
    requires callee { IsMethodOf f.now callee.now }
    requires argument { IsArgument f.now callee.now.id.0 argument }
    requires within { row f.now argument.formal.0 < 64 * length bits.now }
    requires home { argument.call ≡ call → IsOf f.now argument.from.0 method.now.id.0 }
    requires method { IsMethodOf f.now method.now }
    requires delta { length delta.now ≤ width f.now method.now.id.0 }
    requires found { AreFound f.now found.old.items }
    requires queue { IsQueue f.now found.old.items queue.old.items }
    requires opened { IsOpen f.now found.old.items method.now.id.0 }
    ensures goes { OnOk result (Goes f.now found.old.items found.new.items queue.old.items queue.new.items steps.old steps.new (PassesByHand f.now bits.now call delta.now argument)) }
    ensures turns { steps.new + total found.old.items ≡ steps.old + total found.new.items }
{
    if argument.call != call {
        return Ok(());
    }
    if !has(bits, 0, (argument.formal.0 - callee.first.0) as usize) {
        return Ok(());
    }
    give(f, method, argument.from, delta, found, queue, steps)?;
    Ok(())
}

// The same for each of some arguments.
fn pass_each_by_hand<L: Ledger>(
    f: &Facts,
    bits: &[u64],
    callee: &Method,
    arguments: &[Argument],
    call: CallId,
    method: &Method,
    delta: &[u64],
    found: &mut Vec<Found>,
    queue: &mut VecDeque<NodeId>,
    steps: &mut Steps<L>,
) -> Result<(), NoMemory>
    requires callee { IsMethodOf f.now callee.now }
    requires arguments { (a : Argument) → Contains arguments.now a → IsArgument f.now callee.now.id.0 a × (row f.now a.formal.0 < 64 * length bits.now) × (a.call ≡ call → IsOf f.now a.from.0 method.now.id.0) }
    requires method { IsMethodOf f.now method.now }
    requires delta { length delta.now ≤ width f.now method.now.id.0 }
    requires found { AreFound f.now found.old.items }
    requires queue { IsQueue f.now found.old.items queue.old.items }
    requires opened { IsOpen f.now found.old.items method.now.id.0 }
    ensures goes { OnOk result (Goes f.now found.old.items found.new.items queue.old.items queue.new.items steps.old steps.new (FromOne (PassesByHand f.now bits.now call delta.now) arguments.now)) }
    ensures turns { steps.new + total found.old.items ≡ steps.old + total found.new.items }
{
    for argument in arguments {
        pass_one_by_hand(
            f, bits, callee, *argument, call, method, delta, found, queue, steps,
        )?;
    }
    Ok(())
}

// The same for those arguments that are of the call.
fn pass_by_hand<L: Ledger>(
    f: &Facts,
    bits: &[u64],
    callee: &Method,
    arguments: &[Argument],
    call: CallId,
    method: &Method,
    delta: &[u64],
    found: &mut Vec<Found>,
    queue: &mut VecDeque<NodeId>,
    steps: &mut Steps<L>,
) -> Result<(), NoMemory>
    requires callee { IsMethodOf f.now callee.now }
    requires order { IsNonDecreasingBy (λ (x : Argument). x.call.0) arguments.now }
    requires arguments { (a : Argument) → Contains arguments.now a → IsArgument f.now callee.now.id.0 a × (row f.now a.formal.0 < 64 * length bits.now) × (a.call ≡ call → IsOf f.now a.from.0 method.now.id.0) }
    requires method { IsMethodOf f.now method.now }
    requires delta { length delta.now ≤ width f.now method.now.id.0 }
    requires found { AreFound f.now found.old.items }
    requires queue { IsQueue f.now found.old.items queue.old.items }
    requires opened { IsOpen f.now found.old.items method.now.id.0 }
    ensures goes { OnOk result (Goes f.now found.old.items found.new.items queue.old.items queue.new.items steps.old steps.new (FromOne (PassesByHand f.now bits.now call delta.now) arguments.now)) }
    ensures turns { steps.new + total found.old.items ≡ steps.old + total found.new.items }
{
    let arguments = arguments_of_call(arguments, call);
    pass_each_by_hand(
        f, bits, callee, arguments, call, method, delta, found, queue, steps,
    )?;
    Ok(())
}

// The place of an exit among those of a method; none where it is another method's.
fn number_in(f: &Facts, method: &Method, exit: ExitId) -> Option<usize>
    requires { IsMethodOf f.now method.now }
    ensures { MatchOption result ((x : ℕ) → exit.0 ≡ first_exit f.now method.now.id.0 + x → x < exit_count f.now method.now.id.0 → ⊥) (λ x. (exit.0 ≡ first_exit f.now method.now.id.0 + x) × (x < exit_count f.now method.now.id.0)) }
{
    if exit.0 < method.first_exit || exit.0 - method.first_exit >= method.exit_count {
        return None;
    }
    Some((exit.0 - method.first_exit) as usize)
}

// Gives to an argument of a formal the bits of a return's end that don't wait, if the formal's new bits have the return's exit.
fn come_one<L: Ledger>(
    f: &Facts,
    callee: &Method,
    formal: NodeId,
    delta: &[u64],
    call: CallId,
    from: NodeId,
    back: Back,
    method: &Method,
    spare: &mut Vec<u64>,
    found: &mut Vec<Found>,
    queue: &mut VecDeque<NodeId>,
    steps: &mut Steps<L>,
) -> Result<(), NoMemory>
    requires callee { IsMethodOf f.now callee.now }
    requires formal { IsOf f.now formal.0 callee.now.id.0 }
    requires delta { length delta.now ≡ width f.now callee.now.id.0 }
    requires from { IsOf f.now from.0 method.now.id.0 }
    requires to { IsOf f.now back.to.0 method.now.id.0 }
    requires method { IsMethodOf f.now method.now }
    requires found { AreFound f.now found.old.items }
    requires queue { IsQueue f.now found.old.items queue.old.items }
    requires opened { IsOpen f.now found.old.items method.now.id.0 }
    ensures goes { OnOk result (Goes f.now found.old.items found.new.items queue.old.items queue.new.items steps.old steps.new (Comes f.now formal call delta.now from back)) }
    ensures turns { steps.new + total found.old.items ≡ steps.old + total found.new.items }
{
    if back.call != call {
        return Ok(());
    }
    let Some(number) = number_in(f, callee, back.exit) else {
        return Ok(());
    };
    if !has(delta, 0, number) {
        return Ok(());
    }
    copy(f, method, back.to, found, spare)?;
    give(f, method, from, spare, found, queue, steps)?;
    Ok(())
}

// The same for each of some returns.
fn come_each<L: Ledger>(
    f: &Facts,
    callee: &Method,
    formal: NodeId,
    delta: &[u64],
    call: CallId,
    from: NodeId,
    backs: &[Back],
    method: &Method,
    spare: &mut Vec<u64>,
    found: &mut Vec<Found>,
    queue: &mut VecDeque<NodeId>,
    steps: &mut Steps<L>,
) -> Result<(), NoMemory>
    requires callee { IsMethodOf f.now callee.now }
    requires formal { IsOf f.now formal.0 callee.now.id.0 }
    requires delta { length delta.now ≡ width f.now callee.now.id.0 }
    requires from { IsOf f.now from.0 method.now.id.0 }
    requires backs { (b : Back) → Contains backs.now b → IsBack f.now method.now.id.0 b }
    requires method { IsMethodOf f.now method.now }
    requires found { AreFound f.now found.old.items }
    requires queue { IsQueue f.now found.old.items queue.old.items }
    requires opened { IsOpen f.now found.old.items method.now.id.0 }
    ensures goes { OnOk result (Goes f.now found.old.items found.new.items queue.old.items queue.new.items steps.old steps.new (FromOne (Comes f.now formal call delta.now from) backs.now)) }
    ensures turns { steps.new + total found.old.items ≡ steps.old + total found.new.items }
{
    for back in backs {
        come_one(
            f, callee, formal, delta, call, from, *back, method, spare, found, queue, steps,
        )?;
    }
    Ok(())
}

// The same for those returns that are of the call.
fn come<L: Ledger>(
    f: &Facts,
    callee: &Method,
    formal: NodeId,
    delta: &[u64],
    call: CallId,
    from: NodeId,
    backs: &[Back],
    method: &Method,
    spare: &mut Vec<u64>,
    found: &mut Vec<Found>,
    queue: &mut VecDeque<NodeId>,
    steps: &mut Steps<L>,
) -> Result<(), NoMemory>
    requires callee { IsMethodOf f.now callee.now }
    requires formal { IsOf f.now formal.0 callee.now.id.0 }
    requires delta { length delta.now ≡ width f.now callee.now.id.0 }
    requires from { IsOf f.now from.0 method.now.id.0 }
    requires order { IsNonDecreasingBy (λ (x : Back). x.call.0) backs.now }
    requires backs { (b : Back) → Contains backs.now b → IsBack f.now method.now.id.0 b }
    requires method { IsMethodOf f.now method.now }
    requires found { AreFound f.now found.old.items }
    requires queue { IsQueue f.now found.old.items queue.old.items }
    requires opened { IsOpen f.now found.old.items method.now.id.0 }
    ensures goes { OnOk result (Goes f.now found.old.items found.new.items queue.old.items queue.new.items steps.old steps.new (FromOne (Comes f.now formal call delta.now from) backs.now)) }
    ensures turns { steps.new + total found.old.items ≡ steps.old + total found.new.items }
{
    let backs = returns_of_call(backs, call);
    come_each(
        f, callee, formal, delta, call, from, backs, method, spare, found, queue, steps,
    )?;
    Ok(())
}

// Back along an edge of a call, from a formal with its new bits.
fn leave<L: Ledger>(
    f: &Facts,
    mode: Mode,
    methods: &Vec<Option<Method>>,
    hands: &Hands,
    callee: &Method,
    formal: NodeId,
    delta: &[u64],
    from: NodeId,
    call: CallId,
    spare: &mut Vec<u64>,
    found: &mut Vec<Found>,
    queue: &mut VecDeque<NodeId>,
    steps: &mut Steps<L>,
) -> Result<(), NoMemory>
    requires callee { IsMethodOf f.now callee.now }
    requires formal { IsOf f.now formal.0 callee.now.id.0 }
    requires delta { length delta.now ≡ width f.now callee.now.id.0 }
    requires edge { IsEdge f.now.inputs (edge from (Call call) formal) }
    requires methods { AreMethods f.now methods.now.items }
    requires found { AreFound f.now found.old.items }
    requires queue { IsQueue f.now found.old.items queue.old.items }
    requires met { (m : ℕ) → 0 < length (waits_of found.old.items m) → IsMet methods.now.items m }
    ensures goes { OnOk result (Goes f.now found.old.items found.new.items queue.old.items queue.new.items steps.old steps.new (FollowsBy f.now mode hands.now formal delta.now from (Call call))) }
    ensures turns { steps.new + total found.old.items ≡ steps.old + total found.new.items }
{
    let Some(method) = find_method(f, methods, owner(f, from)) else {
        return Ok(());
    };
    if !is_open(f, method, found) {
        return Ok(());
    }
    let backs = method.returns.as_slice();
    come(
        f, callee, formal, delta, call, from, backs, method, spare, found, queue, steps,
    )?;
    Ok(())
}

// Gives the new bits of a return's end to the arguments of its call whose formals lead to the return's exit.
fn pass_all<L: Ledger>(
    f: &Facts,
    mode: Mode,
    hands: &Hands,
    callee: &Method,
    from: NodeId,
    exit: ExitId,
    call: CallId,
    method: &Method,
    n: NodeId,
    delta: &[u64],
    found: &mut Vec<Found>,
    queue: &mut VecDeque<NodeId>,
    steps: &mut Steps<L>,
) -> Result<(), NoMemory>
    requires method { IsMethodOf f.now method.now }
    requires node { IsOf f.now n.0 method.now.id.0 }
    requires delta { length delta.now ≤ width f.now method.now.id.0 }
    requires edge { IsEdge f.now.inputs (edge from (Return call) n) }
    requires callee { IsMethodOf f.now callee.now }
    requires from { IsOf f.now from.0 callee.now.id.0 }
    requires exit { IsExitAt f.now exit from }
    requires hands { (d : ExitId) (bits : List ℕ) → hand_of hands.now d.0 ≡ Some bits → IsRow f.now mode d bits }
    requires found { AreFound f.now found.old.items }
    requires queue { IsQueue f.now found.old.items queue.old.items }
    requires opened { IsOpen f.now found.old.items method.now.id.0 }
    ensures goes { OnOk result (Goes f.now found.old.items found.new.items queue.old.items queue.new.items steps.old steps.new (FollowsBy f.now mode hands.now n delta.now from (Return call))) }
    ensures turns { steps.new + total found.old.items ≡ steps.old + total found.new.items }
{
    let arguments = callee.arguments.as_slice();
    match hands.find(exit) {
        Some(bits) => pass_by_hand(
            f, bits, callee, arguments, call, method, delta, found, queue, steps,
        ),
        None => pass(
            f,
            from,
            (exit.0 - callee.first_exit) as usize,
            callee,
            arguments,
            call,
            method,
            delta,
            found,
            queue,
            steps,
        ),
    }
}

// Back along an edge of a return, from a node with its new bits: over the whole call.
fn enter<L: Ledger>(
    f: &Facts,
    mode: Mode,
    methods: &Vec<Option<Method>>,
    hands: &Hands,
    method: &Method,
    n: NodeId,
    delta: &[u64],
    from: NodeId,
    call: CallId,
    found: &mut Vec<Found>,
    queue: &mut VecDeque<NodeId>,
    steps: &mut Steps<L>,
) -> Result<(), NoMemory>
    requires method { IsMethodOf f.now method.now }
    requires node { IsOf f.now n.0 method.now.id.0 }
    requires delta { length delta.now ≤ width f.now method.now.id.0 }
    requires edge { IsEdge f.now.inputs (edge from (Return call) n) }
    requires methods { AreMethods f.now methods.now.items }
    requires callee { IsMet methods.now.items (method_of f.now from.0) }
    requires hands { (d : ExitId) (bits : List ℕ) → hand_of hands.now d.0 ≡ Some bits → IsRow f.now mode d bits }
    requires found { AreFound f.now found.old.items }
    requires queue { IsQueue f.now found.old.items queue.old.items }
    requires opened { IsOpen f.now found.old.items method.now.id.0 }
    ensures goes { OnOk result (Goes f.now found.old.items found.new.items queue.old.items queue.new.items steps.old steps.new (FollowsBy f.now mode hands.now n delta.now from (Return call))) }
    ensures turns { steps.new + total found.old.items ≡ steps.old + total found.new.items }
{
    let Some(exit) = f.exit_of(from) else {
        return Ok(());
    };
    let Some(callee) = find_method(f, methods, owner(f, from)) else {
        return Ok(());
    };
    pass_all(
        f, mode, hands, callee, from, exit, call, method, n, delta, found, queue, steps,
    )
}

// Back along an edge that ends in a node, with the node's new bits.
fn follow_one<L: Ledger>(
    f: &Facts,
    mode: Mode,
    methods: &Vec<Option<Method>>,
    hands: &Hands,
    method: &Method,
    n: NodeId,
    delta: &[u64],
    edge: Edge,
    spare: &mut Vec<u64>,
    found: &mut Vec<Found>,
    queue: &mut VecDeque<NodeId>,
    steps: &mut Steps<L>,
) -> Result<(), NoMemory>
    requires method { IsMethodOf f.now method.now }
    requires node { IsOf f.now n.0 method.now.id.0 }
    requires delta { length delta.now ≡ width f.now method.now.id.0 }
    requires edge { IsEdge f.now.inputs edge }
    requires to { edge.to ≡ n }
    requires methods { AreMethods f.now methods.now.items }
    requires callee { (k : CallId) → edge.label ≡ Return k → IsMet methods.now.items (method_of f.now edge.from.0) }
    requires hands { (d : ExitId) (bits : List ℕ) → hand_of hands.now d.0 ≡ Some bits → IsRow f.now mode d bits }
    requires found { AreFound f.now found.old.items }
    requires queue { IsQueue f.now found.old.items queue.old.items }
    requires opened { IsOpen f.now found.old.items method.now.id.0 }
    requires met { (m : ℕ) → 0 < length (waits_of found.old.items m) → IsMet methods.now.items m }
    ensures goes { OnOk result (Goes f.now found.old.items found.new.items queue.old.items queue.new.items steps.old steps.new (Follows f.now mode hands.now n delta.now edge)) }
    ensures turns { steps.new + total found.old.items ≡ steps.old + total found.new.items }
{
    match edge.label {
        Label::Thin => give(f, method, edge.from, delta, found, queue, steps),
        Label::Base => match mode {
            Mode::Full => give(f, method, edge.from, delta, found, queue, steps),
            Mode::Thin => Ok(()),
        },
        Label::Call(call) => leave(
            f, mode, methods, hands, method, n, delta, edge.from, call, spare, found, queue, steps,
        ),
        Label::Return(call) => enter(
            f, mode, methods, hands, method, n, delta, edge.from, call, found, queue, steps,
        ),
    }
}

/// Back along all edges that end in a node, with the node's new bits. A row of words for each edge, and for an edge of a call
/// or a return one for each argument or return of that call.
pub fn follow<L: Ledger>(
    f: &Facts,
    mode: Mode,
    methods: &Vec<Option<Method>>,
    hands: &Hands,
    method: &Method,
    n: NodeId,
    delta: &[u64],
    edges: &[Edge],
    spare: &mut Vec<u64>,
    found: &mut Vec<Found>,
    queue: &mut VecDeque<NodeId>,
    steps: &mut Steps<L>,
) -> Result<(), NoMemory>
    requires method { IsMethodOf f.now method.now }
    requires node { IsOf f.now n.0 method.now.id.0 }
    requires delta { length delta.now ≡ width f.now method.now.id.0 }
    requires edges { (e : Edge) → Contains edges.now e → IsEdge f.now.inputs e × (e.to ≡ n) × ((k : CallId) → e.label ≡ Return k → IsMet methods.now.items (method_of f.now e.from.0)) }
    requires methods { AreMethods f.now methods.now.items }
    requires hands { (d : ExitId) (bits : List ℕ) → hand_of hands.now d.0 ≡ Some bits → IsRow f.now mode d bits }
    requires found { AreFound f.now found.old.items }
    requires queue { IsQueue f.now found.old.items queue.old.items }
    requires opened { IsOpen f.now found.old.items method.now.id.0 }
    requires met { (m : ℕ) → 0 < length (waits_of found.old.items m) → IsMet methods.now.items m }
    ensures goes { OnOk result (Goes f.now found.old.items found.new.items queue.old.items queue.new.items steps.old steps.new (FromOne (Follows f.now mode hands.now n delta.now) edges.now)) }
    ensures turns { steps.new + total found.old.items ≡ steps.old + total found.new.items }
{
    for edge in edges {
        follow_one(
            f, mode, methods, hands, method, n, delta, *edge, spare, found, queue, steps,
        )?;
    }
    Ok(())
}
