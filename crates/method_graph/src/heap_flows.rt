// Where locations flow within a method.
ghost use Rattle.std.specs.Prelude.{◌≡◌, ◌<◌, ◌≤◌, ◌↔◌, length, IfOk, OnOk, Contains, All};
ghost use Rattle.worklists.specs.Growth.{Grows, FromOne};
ghost use Rattle.method_graph.specs.declared.locations.Access.{Access};
ghost use Rattle.method_graph.specs.declared.edges.Ending.{Ending};
ghost use Rattle.method_graph.specs.Flows.{HasWay};
ghost use Rattle.method_graph.specs.Accesses.{AreByLocation};
ghost use Rattle.method_graph.specs.Edges.{flows_to};
ghost use Rattle.method_graph.specs.Heaps.{FlowsBetween, FlowsByWays, HeapFlows, IsHeapOf};

use crate::edges::Ending;
use crate::flow::{Ways, find_ways};
use crate::heads::{entries_of, exits_of};
use crate::heap::Heap;
use crate::locations::{Access, at_location, by_location};
use dep_form::input::MethodInput;
use dep_form::node::Label;
use slicer_ids::ids::NoMemory;
use std::alloc::Global;
use worklists::add;

fn add_flow(edges: &mut Vec<Ending>, source: &Access, target: &Access) -> Result<(), NoMemory>
    ensures { OnOk result (Grows edges.old.items edges.new.items (λ x. x ≡ flows_to source.now.node target.now.node)) }
{
    let flow = Ending {
        to: target.node,
        from: source.node,
        label: Label::Thin,
    };
    match add(edges, flow) {
        Ok(()) => Ok(()),
        Err(e) => Err(e),
    }
}

// A flow where control leads from the one to the other.
fn add_way(
    edges: &mut Vec<Ending>,
    ways: &Ways,
    source: &Access,
    target: &Access,
) -> Result<(), NoMemory>
    requires { (source.now.point < ways.now.points) × (target.now.point < ways.now.points) }
    ensures { OnOk result (Grows edges.old.items edges.new.items (λ x. HasWay ways.now.width ways.now.words.items source.now.point target.now.point × (x ≡ flows_to source.now.node target.now.node))) }
{
    if ways.has(source.point, target.point) {
        add_flow(edges, source, target)
    } else {
        Ok(())
    }
}

// The flows to a use from the definitions that control leads from.
fn add_ways(
    edges: &mut Vec<Ending>,
    ways: &Ways,
    sources: &[Access],
    target: &Access,
) -> Result<(), NoMemory>
    requires sources { All (λ (s : Access). s.point < ways.now.points) sources.now }
    requires target { target.now.point < ways.now.points }
    ensures { OnOk result (Grows edges.old.items edges.new.items (FromOne (λ (s : Access) (x : Ending). HasWay ways.now.width ways.now.words.items s.point target.now.point × (x ≡ flows_to s.node target.now.node)) sources.now)) }
{
    for source in sources {
        add_way(edges, ways, source, target)?;
    }
    Ok(())
}

// The flows from each to a use.
fn add_sources(edges: &mut Vec<Ending>, sources: &[Access], target: &Access) -> Result<(), NoMemory>
    ensures { OnOk result (Grows edges.old.items edges.new.items (FromOne (λ (s : Access) (x : Ending). x ≡ flows_to s.node target.now.node) sources.now)) }
{
    for source in sources {
        add_flow(edges, source, target)?;
    }
    Ok(())
}

// Those between definitions and uses of one location.
fn add_all_ways(
    edges: &mut Vec<Ending>,
    ways: &Ways,
    sources: &[Access],
    targets: &[Access],
) -> Result<(), NoMemory>
    requires order { AreByLocation sources.now }
    requires sources { All (λ (s : Access). s.point < ways.now.points) sources.now }
    requires targets { All (λ (t : Access). t.point < ways.now.points) targets.now }
    ensures { OnOk result (Grows edges.old.items edges.new.items (FlowsByWays ways.now sources.now targets.now)) }
{
    for target in targets {
        let met = at_location(sources, target.location);
        add_ways(edges, ways, met, target)?;
    }
    Ok(())
}

// Those between all that meet.
fn add_between(
    edges: &mut Vec<Ending>,
    sources: &[Access],
    targets: &[Access],
) -> Result<(), NoMemory>
    requires { AreByLocation sources.now }
    ensures { OnOk result (Grows edges.old.items edges.new.items (FlowsBetween sources.now targets.now)) }
{
    for target in targets {
        let met = at_location(sources, target.location);
        add_sources(edges, met, target)?;
    }
    Ok(())
}

/// Adds all flows of locations.
pub fn add_flows(edges: &mut Vec<Ending>, heap: &Heap) -> Result<(), NoMemory>
    ensures { OnOk result (Grows edges.old.items edges.new.items (HeapFlows heap.now)) }
{
    add_all_ways(edges, &heap.ways, &heap.puts, &heap.gets)?;
    add_between(edges, &heap.entries, &heap.gets)?;
    add_between(edges, &heap.puts, &heap.exits)?;
    Ok(())
}

/// The accesses of a method, and its ways.
pub fn heap_of(alloc: Global, input: &MethodInput) -> Result<Heap, NoMemory>
    ensures { IfOk result (IsHeapOf input.now) }
{
    let ways = find_ways(alloc, input.points, input.flow.items())?;
    let puts = by_location(alloc, input.puts.items())?;
    let gets = by_location(alloc, input.gets.items())?;
    let entries = entries_of(alloc, input.first.0, input.nodes.items())?;
    let exits = exits_of(alloc, input.first.0, input.nodes.items())?;
    Ok(Heap {
        ways,
        puts,
        gets,
        entries,
        exits,
    })
}
