// What is kept of a method, from its graph.
ghost use Rattle.std.specs.Prelude.{◌≡◌, ◌↔◌, ◌⊎◌, ◌<◌, ◌≤◌, ◌^◌, ◌*◌, ℕ, IfOk, OnOk, Some, Contains, length, slice_get};
ghost use Rattle.std.specs.List.Sorted.{IsNonDecreasingBy};
ghost use Rattle.slicer_ids.specs.declared.ids.NodeId.{NodeId};
ghost use Rattle.dep_form.specs.declared.node.Edge.{Edge};
ghost use Rattle.dep_form.specs.declared.node.Label.TheVariants.{Call, Return};
ghost use Rattle.dep_form.specs.Inputs.{IsEdge};
ghost use Rattle.dep_form.specs.Phases.{edge as link};
ghost use Rattle.dep_form.specs.Graphs.{IsGraphIn};
ghost use Rattle.dep_form.specs.Summaries.{IsExitAt};
ghost use Rattle.tabulate.specs.declared.method.Argument.{Argument};
ghost use Rattle.tabulate.specs.declared.method.Back.{Back};
ghost use Rattle.tabulate.specs.Frames.{exits_before};
ghost use Rattle.tabulate.specs.Methods.{IsMethodOf, HasEdge};

use crate::method::{Argument, Back, Method};
use dep_form::facts::Facts;
use dep_form::graph::Graph;
use dep_form::node::{Edge, Label};
use slicer_ids::ids::{MethodId, NoMemory};
use slicer_ids::list::List;
use std::alloc::Global;

// How many exits have a node below this number.
fn count_exits(f: &Facts, below: u64) -> u32
    ensures { result ≡ exits_before f.now below }
{
    f.exits
        .items()
        .partition_point(|exit| u64::from(exit.0) < below) as u32
}

// Adds an edge, if it is a call's.
fn add_argument(edge: Edge, into: &mut Vec<Argument>) -> Result<(), NoMemory>
    ensures { OnOk result ((a : Argument) → Contains into.new.items a ↔ (Contains into.old.items a ⊎ (edge ≡ link a.from (Call a.call) a.formal))) }
{
    match edge.label {
        Label::Call(call) => {
            into.push(Argument {
                call,
                from: edge.from,
                formal: edge.to,
            })?;
            Ok(())
        }
        Label::Thin => Ok(()),
        Label::Base => Ok(()),
        Label::Return(_) => Ok(()),
    }
}

// Adds the edges of calls among some edges.
fn add_arguments(edges: &[Edge], into: &mut Vec<Argument>) -> Result<(), NoMemory>
    ensures { OnOk result ((a : Argument) → Contains into.new.items a ↔ (Contains into.old.items a ⊎ Contains edges.now (link a.from (Call a.call) a.formal))) }
{
    for edge in edges {
        add_argument(*edge, into)?;
    }
    Ok(())
}

// The edges of calls of a graph.
fn arguments_of(alloc: Global, incoming: &[List<Edge>]) -> Result<Vec<Argument>, NoMemory>
    ensures { IfOk result (λ r. (a : Argument) → Contains r.items a ↔ HasEdge incoming.now (link a.from (Call a.call) a.formal)) }
{
    let mut arguments = Vec::new(alloc);
    for edges in incoming {
        add_arguments(edges.items(), &mut arguments)?;
    }
    Ok(arguments)
}

// Adds an edge with the number of its exit, if it is a return's.
fn add_back(f: &Facts, edge: Edge, into: &mut Vec<Back>) -> Result<(), NoMemory>
    ensures { OnOk result ((b : Back) → Contains into.new.items b ↔ (Contains into.old.items b ⊎ ((e : NodeId) × IsExitAt f.now b.exit e × (edge ≡ link e (Return b.call) b.to)))) }
{
    match edge.label {
        Label::Return(call) => {
            let Some(exit) = f.exit_of(edge.from) else {
                return Ok(());
            };
            into.push(Back {
                call,
                exit,
                to: edge.to,
            })?;
            Ok(())
        }
        Label::Thin => Ok(()),
        Label::Base => Ok(()),
        Label::Call(_) => Ok(()),
    }
}

// Adds the edges of returns among some edges, with the numbers of their exits.
fn add_backs(f: &Facts, edges: &[Edge], into: &mut Vec<Back>) -> Result<(), NoMemory>
    ensures { OnOk result ((b : Back) → Contains into.new.items b ↔ (Contains into.old.items b ⊎ ((e : NodeId) × IsExitAt f.now b.exit e × Contains edges.now (link e (Return b.call) b.to)))) }
{
    for edge in edges {
        add_back(f, *edge, into)?;
    }
    Ok(())
}

// The edges of returns of a graph, with the numbers of their exits.
fn backs_of(alloc: Global, f: &Facts, incoming: &[List<Edge>]) -> Result<Vec<Back>, NoMemory>
    ensures { IfOk result (λ r. (b : Back) → Contains r.items b ↔ ((e : NodeId) × IsExitAt f.now b.exit e × HasEdge incoming.now (link e (Return b.call) b.to))) }
{
    let mut backs = Vec::new(alloc);
    for edges in incoming {
        add_backs(f, edges.items(), &mut backs)?;
    }
    Ok(backs)
}

// By call.
fn sort_arguments(arguments: &mut Vec<Argument>)
    ensures same { (a : Argument) → Contains arguments.new.items a ↔ Contains arguments.old.items a }
    ensures order { IsNonDecreasingBy (λ (a : Argument). a.call.0) arguments.new.items }
{
    arguments.sort_unstable_by_key(|a| a.call.0);
}

// By call.
fn sort_backs(backs: &mut Vec<Back>)
    ensures same { (b : Back) → Contains backs.new.items b ↔ Contains backs.old.items b }
    ensures order { IsNonDecreasingBy (λ (b : Back). b.call.0) backs.new.items }
{
    backs.sort_unstable_by_key(|b| b.call.0);
}

/// What is kept of a method, from its graph. One step for each edge, and the sorting of the edges of calls.
pub fn keep(alloc: Global, f: &Facts, m: MethodId, graph: &Graph) -> Result<Method, NoMemory>
    requires { IsGraphIn f.now.inputs m graph.now }
    ensures { IfOk result (λ x. IsMethodOf f.now x × (x.id ≡ m)) }
{
    let incoming = graph.incoming.items();
    let size = incoming.len() as u32;
    let first_exit = count_exits(f, u64::from(graph.first.0));
    let exits_end = count_exits(f, u64::from(graph.first.0) + u64::from(size));
    let exit_count = exits_end - first_exit;
    let mut arguments = arguments_of(alloc, incoming)?;
    sort_arguments(&mut arguments);
    let mut returns = backs_of(alloc, f, incoming)?;
    sort_backs(&mut returns);
    Ok(Method {
        id: m,
        first: graph.first,
        size,
        width: exit_count.div_ceil(64),
        first_exit,
        exit_count,
        arguments,
        returns,
    })
}
