// Back over whole calls, by the path edges that were found.
ghost use Rattle.std.specs.Prelude.{◌≡◌, ◌<◌, ◌*◌, ℕ, OnOk, Contains, length};
ghost use Rattle.slicer_ids.specs.declared.ids.NodeId.{NodeId};
ghost use Rattle.tabulate.specs.declared.method.Argument.{Argument};
ghost use Rattle.tabulate.specs.declared.method.Back.{Back};
ghost use Rattle.tabulate.specs.Frames.{width};
ghost use Rattle.tabulate.specs.Methods.{IsMethodOf, AreMethods, IsMet, IsArgument, IsBack};
ghost use Rattle.tabulate.specs.Found.{AreFound, waits_of};
ghost use Rattle.thin_slice.specs.Marks.{AreNodesOf, found as marked};
ghost use Rattle.worklists.specs.Growth.{Grows, FromOne};
ghost use Rattle.widening.specs.Marks.{PassesTo, OverCall, OverEdge, OverBack, OverMethod, IsOver};

use dep_form::facts::Facts;
use dep_form::node::{Edge, Label};
use slicer_ids::ids::{CallId, ExitId, NoMemory, NodeId};
use tabulate::by_call::arguments_of_call;
use tabulate::found::{Found, is_got};
use tabulate::method::{Argument, Back, Method, find_method, owner};
use thin_slice::marked::MarkedNodes;

// To an argument, if its formal leads to the exit.
fn pass_one(
    f: &Facts,
    callee: &Method,
    argument: Argument,
    number: usize,
    found: &Vec<Found>,
    into: &mut Vec<NodeId>,
) -> Result<(), NoMemory>
    requires callee { IsMethodOf f.now callee.now }
    requires argument { IsArgument f.now callee.now.id.0 argument }
    requires number { number < 64 * width f.now callee.now.id.0 }
    requires found { AreFound f.now found.now.items }
    ensures { OnOk result (Grows into.old.items into.new.items (PassesTo f.now found.now.items number argument)) }
{
    if is_got(f, callee, argument.formal, number, found) {
        into.push(argument.from)?;
    }
    Ok(())
}

// To each of some arguments whose formal leads to the exit.
fn pass_each(
    f: &Facts,
    callee: &Method,
    arguments: &[Argument],
    number: usize,
    found: &Vec<Found>,
    into: &mut Vec<NodeId>,
) -> Result<(), NoMemory>
    requires callee { IsMethodOf f.now callee.now }
    requires arguments { (a : Argument) → Contains arguments.now a → IsArgument f.now callee.now.id.0 a }
    requires number { number < 64 * width f.now callee.now.id.0 }
    requires found { AreFound f.now found.now.items }
    ensures { OnOk result (Grows into.old.items into.new.items (FromOne (PassesTo f.now found.now.items number) arguments.now)) }
{
    for argument in arguments {
        pass_one(f, callee, *argument, number, found, into)?;
    }
    Ok(())
}

// To the arguments of a call whose formals lead to the exit.
fn pass_call(
    f: &Facts,
    methods: &Vec<Option<Method>>,
    found: &Vec<Found>,
    exit: ExitId,
    call: CallId,
    into: &mut Vec<NodeId>,
) -> Result<(), NoMemory>
    requires exit { exit.0 < length f.now.exits }
    requires met { (m : ℕ) → 0 < length (waits_of found.now.items m) → IsMet methods.now.items m }
    requires methods { AreMethods f.now methods.now.items }
    requires found { AreFound f.now found.now.items }
    ensures { OnOk result (Grows into.old.items into.new.items (OverCall f.now found.now.items exit call)) }
{
    let Some(callee) = find_method(f, methods, owner(f, f.exit_node(exit))) else {
        return Ok(());
    };
    let arguments = arguments_of_call(callee.arguments.as_slice(), call);
    let number = (exit.0 - callee.first_exit) as usize;
    pass_each(f, callee, arguments, number, found, into)?;
    Ok(())
}

// Over the call whose return the edge is.
fn pass_edge(
    f: &Facts,
    methods: &Vec<Option<Method>>,
    found: &Vec<Found>,
    edge: Edge,
    into: &mut Vec<NodeId>,
) -> Result<(), NoMemory>
    requires met { (m : ℕ) → 0 < length (waits_of found.now.items m) → IsMet methods.now.items m }
    requires methods { AreMethods f.now methods.now.items }
    requires found { AreFound f.now found.now.items }
    ensures { OnOk result (Grows into.old.items into.new.items (OverEdge f.now found.now.items edge)) }
{
    match edge.label {
        Label::Return(call) => {
            let Some(exit) = f.exit_of(edge.from) else {
                return Ok(());
            };
            pass_call(f, methods, found, exit, call, into)?;
            Ok(())
        }
        Label::Thin => Ok(()),
        Label::Base => Ok(()),
        Label::Call(_) => Ok(()),
    }
}

/// Over the calls whose returns are among the edges.
pub fn pass_edges(
    f: &Facts,
    methods: &Vec<Option<Method>>,
    found: &Vec<Found>,
    edges: &[Edge],
    into: &mut Vec<NodeId>,
) -> Result<(), NoMemory>
    requires met { (m : ℕ) → 0 < length (waits_of found.now.items m) → IsMet methods.now.items m }
    requires methods { AreMethods f.now methods.now.items }
    requires found { AreFound f.now found.now.items }
    ensures { OnOk result (Grows into.old.items into.new.items (FromOne (OverEdge f.now found.now.items) edges.now)) }
{
    for edge in edges {
        pass_edge(f, methods, found, *edge, into)?;
    }
    Ok(())
}

// Over the call of a return, if it leads to a marked node.
fn pass_back(
    f: &Facts,
    methods: &Vec<Option<Method>>,
    found: &Vec<Found>,
    back: Back,
    marks: &MarkedNodes,
    into: &mut Vec<NodeId>,
) -> Result<(), NoMemory>
    requires back { (m : ℕ) × IsBack f.now m back }
    requires met { (m : ℕ) → 0 < length (waits_of found.now.items m) → IsMet methods.now.items m }
    requires methods { AreMethods f.now methods.now.items }
    requires found { AreFound f.now found.now.items }
    requires marks { AreNodesOf f.now marks.now }
    ensures { OnOk result (Grows into.old.items into.new.items (OverBack f.now found.now.items (marked marks.now) back)) }
{
    if marks.has(back.to) {
        pass_call(f, methods, found, back.exit, back.call, into)?;
    }
    Ok(())
}

// The same for each of some returns.
fn pass_backs(
    f: &Facts,
    methods: &Vec<Option<Method>>,
    found: &Vec<Found>,
    backs: &[Back],
    marks: &MarkedNodes,
    into: &mut Vec<NodeId>,
) -> Result<(), NoMemory>
    requires backs { (b : Back) → Contains backs.now b → (m : ℕ) × IsBack f.now m b }
    requires met { (m : ℕ) → 0 < length (waits_of found.now.items m) → IsMet methods.now.items m }
    requires methods { AreMethods f.now methods.now.items }
    requires found { AreFound f.now found.now.items }
    requires marks { AreNodesOf f.now marks.now }
    ensures { OnOk result (Grows into.old.items into.new.items (FromOne (OverBack f.now found.now.items (marked marks.now)) backs.now)) }
{
    for back in backs {
        pass_back(f, methods, found, *back, marks, into)?;
    }
    Ok(())
}

// The same for the returns to a method, if it was met.
fn pass_method(
    f: &Facts,
    methods: &Vec<Option<Method>>,
    found: &Vec<Found>,
    m: usize,
    marks: &MarkedNodes,
    into: &mut Vec<NodeId>,
) -> Result<(), NoMemory>
    requires method { m < length methods.now.items }
    requires met { (m : ℕ) → 0 < length (waits_of found.now.items m) → IsMet methods.now.items m }
    requires methods { AreMethods f.now methods.now.items }
    requires found { AreFound f.now found.now.items }
    requires marks { AreNodesOf f.now marks.now }
    ensures { OnOk result (Grows into.old.items into.new.items (OverMethod f.now methods.now.items found.now.items (marked marks.now) m)) }
{
    match &methods[m] {
        Some(method) => {
            pass_backs(f, methods, found, method.returns.as_slice(), marks, into)?;
            Ok(())
        }
        None => Ok(()),
    }
}

/// Over the calls whose returns lead to marked nodes of the methods that were met. It costs the returns to these methods.
pub fn pass_again(
    f: &Facts,
    methods: &Vec<Option<Method>>,
    found: &Vec<Found>,
    marks: &MarkedNodes,
    into: &mut Vec<NodeId>,
) -> Result<(), NoMemory>
    requires met { (m : ℕ) → 0 < length (waits_of found.now.items m) → IsMet methods.now.items m }
    requires methods { AreMethods f.now methods.now.items }
    requires found { AreFound f.now found.now.items }
    requires marks { AreNodesOf f.now marks.now }
    ensures { OnOk result (Grows into.old.items into.new.items (IsOver f.now methods.now.items found.now.items (marked marks.now))) }
{
    for m in 0..methods.len() {
        pass_method(f, methods, found, m, marks, into)?;
    }
    Ok(())
}
