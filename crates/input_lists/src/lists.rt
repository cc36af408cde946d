// The inputs of all methods.
ghost use Rattle.std.specs.Prelude.{◌≡◌, ◌<◌, ◌≤◌, ◌+◌, ◌^◌, ◌++◌, ◌∷◌, [], true, All, IfOk, OnOk, length, map, sum_by};
ghost use Rattle.class_form.specs.ClassRules.{IsClassFile};
ghost use Rattle.dep_form.specs.Effects.{IsModRefOf};
ghost use Rattle.dep_form.specs.Firsts.{node_count};
ghost use Rattle.dep_form.specs.Solutions.{IsSolutionOf};
ghost use Rattle.program_form.specs.Programs.{Program};
ghost use Rattle.fact_form.specs.EntryCalls.{AreEntryCalls};
ghost use Rattle.fact_form.specs.FactTables.{AreInputs, AreNodeRows};
ghost use Rattle.fact_form.specs.Handed.{IsProgramWith};
ghost use Rattle.mod_ref.specs.Direct.{IsSmall};
ghost use Rattle.edge_tables.specs.Rows.{AreFirsts, size_of};
ghost use Rattle.input_lists.specs.Inputs.{AreInputsBelow, IsOptionOf};
ghost use Rattle.input_lists.specs.Scenes.{IsNumberedProgram, IsNumberedScene, IsScene};

use crate::method::{has_input, input_of};
use crate::scene::Scene;
use class_form::body::Body;
use constraint_form::laws::{constraints_give_the_facts, static_spots_are_of_static_variables};
use dep_form::effects::ModRef;
use dep_form::input::MethodInput;
use dep_form::node::Node;
use dep_form::solution::Solution;
use dep_form::system::System;
use edge_tables::{Scene as EdgeScene, firsts_of, links_of, row_of};
use hierarchy::tree::Hierarchy;
use input_tables::{Scene as HeapScene, gather};
use slicer_ids::ids::{MethodId, NoMemory};
use slicer_ids::list::List;
use std::alloc::Global;

// The calls of the root have numbers of 16 bits.
const MOST: usize = 65536;

// The input of a method, or none where it can't run.
fn option_of(alloc: Global, scene: &Scene<'_>, m: MethodId) -> Result<Option<MethodInput>, NoMemory>
    requires scene { IsScene scene.now }
    requires number { m.0 < length scene.now.edges.rows.now }
    ensures { IfOk result (IsOptionOf scene.now m) }
{
    if has_input(scene, m) {
        let row = row_of(scene.edges.rows, scene.edges.firsts, m);
        let input = input_of(alloc, scene, &row, m)?;
        Ok(Some(input))
    } else {
        Ok(None)
    }
}

fn push(inputs: &mut Vec<Option<MethodInput>>, input: Option<MethodInput>) -> Result<(), NoMemory>
    ensures { OnOk result (inputs.new.items ≡ inputs.old.items ++ input ∷ []) }
{
    inputs.push(input)?;
    Ok(())
}

fn inputs_of(alloc: Global, scene: &Scene<'_>) -> Result<Vec<Option<MethodInput>>, NoMemory>
    requires { IsScene scene.now }
    ensures { IfOk result (λ v. AreInputsBelow scene.now (length scene.now.edges.rows.now) v.items) }
{
    let mut inputs = Vec::new(alloc);
    for m in 0..scene.edges.rows.len() {
        let input = option_of(alloc, scene, MethodId(m as u32))?;
        push(&mut inputs, input)?;
    }
    Ok(inputs)
}

// The inputs, as those of each program that has these parts.
fn numbered_inputs(alloc: Global, scene: &Scene<'_>) -> Result<Vec<Option<MethodInput>>, NoMemory>
    requires { IsScene scene.now }
    ensures inputs { IfOk result (λ v. (p : Program) → IsNumberedProgram scene.now.edges scene.now.effects.effects.now p → AreInputs p scene.now.edges.system.now scene.now.effects.effects.now scene.now.edges.entries.now v.items) }
    ensures few { IfOk result (λ v. node_count v.items ≤ 2 ^ 24) }
{
    constraints_give_the_facts();
    static_spots_are_of_static_variables();
    inputs_of(alloc, scene)
}

// Gathers what inputs are read from, and makes them.
fn gathered(
    alloc: Global,
    edges: &EdgeScene<'_>,
    effects: &ModRef,
) -> Result<Vec<Option<MethodInput>>, NoMemory>
    requires { IsNumberedScene edges.now effects.now }
    ensures inputs { IfOk result (λ v. (p : Program) → IsNumberedProgram edges.now effects.now p → AreInputs p edges.now.system.now effects.now edges.now.entries.now v.items) }
    ensures few { IfOk result (λ v. node_count v.items ≤ 2 ^ 24) }
{
    let links = links_of(alloc, edges)?;
    let heap_scene = HeapScene {
        system: edges.system,
        solution: edges.solution,
        effects,
    };
    let heap = gather(alloc, &heap_scene)?;
    let scene = Scene {
        edges: *edges,
        links: &links,
        effects: heap_scene,
        heap: &heap,
    };
    numbered_inputs(alloc, &scene)
}

// The inputs of a program with these parts.
fn numbered(
    alloc: Global,
    edges: &EdgeScene<'_>,
    effects: &ModRef,
) -> Result<Vec<Option<MethodInput>>, NoMemory>
    requires program { (p : Program) × IsNumberedProgram edges.now effects.now p }
    requires files { All IsClassFile edges.now.h.now }
    requires solved { IsSolutionOf edges.now.system.now edges.now.solution.now }
    requires effects { IsModRefOf edges.now.system.now effects.now }
    requires firsts { AreFirsts edges.now.rows.now edges.now.firsts.now }
    requires nodes { sum_by length (map (λ row. row.items) edges.now.rows.now) ≤ 2 ^ 24 }
    requires small { IsSmall edges.now.system.now }
    requires entries { length edges.now.entries.now ≤ 65536 }
    requires calls { length edges.now.system.now.calls + length edges.now.entries.now < 2 ^ 32 }
    requires locations { length effects.now.locations < 2 ^ 32 }
    ensures inputs { IfOk result (λ v. (p : Program) → IsNumberedProgram edges.now effects.now p → AreInputs p edges.now.system.now effects.now edges.now.entries.now v.items) }
    ensures few { IfOk result (λ v. node_count v.items ≤ 2 ^ 24) }
{
    constraints_give_the_facts();
    static_spots_are_of_static_variables();
    gathered(alloc, edges, effects)
}

// Whether sites, calls and methods, those of the root with them, and locations have numbers of 32 bits.
fn are_few(s: &System, effects: &ModRef, entries: &[MethodId]) -> bool
    ensures small { result ≡ true → IsSmall s.now }
    ensures entries { result ≡ true → length entries.now ≤ 65536 }
    ensures calls { result ≡ true → length s.now.calls + length entries.now < 2 ^ 32 }
    ensures locations { result ≡ true → length effects.now.locations < 2 ^ 32 }
{
    let sites = s.sites.items().len();
    let calls = s.calls.items().len();
    let methods = s.methods.items().len();
    let locations = effects.locations.items().len();
    let count = entries.len();
    count <= MOST
        && sites < 0x1_0000_0000
        && methods < 0x1_0000_0000
        && locations < 0x1_0000_0000
        && calls < 0xffff_0000
}

/// The inputs of the graphs of the methods of a program, by method, and last that of the root; none for a method that can't run. Each has
/// the nodes of its row, which are numbered one row after another; as many points as its body has, with the flow of control between them;
/// the edges that end in its nodes, but those that a location flows along within it; and which nodes define and use which locations at
/// which points. The only error is want of memory, which a program whose numbers don't have 32 bits has too.
///
/// It goes once over the touches, calls and sites of the system, then once over each body; for each edge and each use it takes a
/// logarithmic number of steps. A node takes 12 bytes, an edge 16, a use 12, a step of control 8, and a call 80 meanwhile for each method
/// that it may go to.
pub fn inputs(
    alloc: Global,
    h: &Hierarchy,
    bodies: &[Body],
    s: &System,
    sol: &Solution,
    mr: &ModRef,
    entries: &[MethodId],
    rows: &[Vec<Node>],
) -> Result<List<Option<MethodInput>>, NoMemory>
    requires program { (p : Program) × IsProgramWith h.now bodies.now s.now p }
    requires files { All IsClassFile h.now }
    requires solved { IsSolutionOf s.now sol.now }
    requires effects { IsModRefOf s.now mr.now }
    requires rows { (p : Program) → IsProgramWith h.now bodies.now s.now p → AreEntryCalls p s.now entries.now × AreNodeRows p s.now mr.now entries.now (map (λ row. row.items) rows.now) }
    requires few { sum_by length (map (λ row. row.items) rows.now) ≤ 2 ^ 24 }
    ensures inputs { IfOk result (λ inputs. (p : Program) → IsProgramWith h.now bodies.now s.now p → AreInputs p s.now mr.now entries.now inputs) }
    ensures few { IfOk result (λ inputs. node_count inputs ≤ 2 ^ 24) }
{
    if !are_few(s, mr, entries) {
        return Err(NoMemory);
    }
    let firsts = firsts_of(alloc, rows)?;
    let edges = EdgeScene {
        h,
        bodies,
        system: s,
        solution: sol,
        entries,
        rows,
        firsts: firsts.as_slice(),
    };
    let inputs = numbered(alloc, &edges, mr)?;
    Ok(List::from_vec(inputs))
}
