// The accesses of all statements.
ghost use Rattle.std.specs.Prelude.{◌≡◌, ◌<◌, ◌↔◌, ◌^◌, ◌++◌, ◌∷◌, [], true, All, AllPairs, Contains, IfOk, IsTrue, List, MatchOption, OnOk, Some, length, slice_get};
ghost use Rattle.slicer_ids.specs.declared.ids.MethodId.{MethodId};
ghost use Rattle.class_form.specs.ClassRules.{IsClassFile};
ghost use Rattle.dep_form.specs.declared.effects.ModRef.{ModRef};
ghost use Rattle.dep_form.specs.declared.input.MethodInput.{MethodInput};
ghost use Rattle.dep_form.specs.Inputs.{IsInputOf};
ghost use Rattle.dep_form.specs.Nodes.{ComesBefore};
ghost use Rattle.dep_form.specs.Solutions.{IsSolutionOf};
ghost use Rattle.program_form.specs.Programs.{Program};
ghost use Rattle.program_form.specs.Values.{IsAccessOpcode};
ghost use Rattle.fact_form.specs.FactTables.{AreAccesses, AreInputs};
ghost use Rattle.fact_form.specs.Handed.{IsProgramWith};
ghost use Rattle.access_tables.specs.Scenes.{IsScene};
ghost use Rattle.access_tables.specs.Tables.{AddsAccesses, HasAccess, HasAccessIn, HasBody, HasOwnNodes, IsAccessAt, IsAccessInBody, IsAccessPoint, RunsInBody};

use crate::objects::objects_at;
use crate::scene::Scene;
use class_form::body::{Body, Point};
use dep_form::access::Access;
use dep_form::input::MethodInput;
use dep_form::rules::MethodVars;
use dep_form::solution::Solution;
use dep_form::system::System;
use input_tables::{Ground, raises_of};
use method_facts::solved::is_reached;
use slicer_ids::ids::{MethodId, NoMemory, Statement};
use slicer_ids::list::List;
use std::alloc::Global;
use value_tables::{Method, operand_sites};

fn is_access(op: u8) -> bool
    ensures { IsTrue result ↔ IsAccessOpcode op }
{
    matches!(op, 46..=53 | 79..=86 | 180 | 181 | 190)
}

fn push(
    accesses: &mut Vec<(Statement, Access)>,
    place: Statement,
    access: Access,
) -> Result<(), NoMemory>
    ensures { OnOk result (accesses.new.items ≡ accesses.old.items ++ (place, access) ∷ []) }
{
    match accesses.push((place, access)) {
        Ok(()) => Ok(()),
        Err(_) => Err(NoMemory),
    }
}

// The access of the statement at a point.
fn access_at(alloc: Global, scene: &Scene<'_>, point: &Point) -> Result<Access, NoMemory>
    requires { IsScene scene.now }
    ensures { IfOk result (IsAccessAt scene.now point.now) }
{
    let objects = objects_at(alloc, scene, point)?;
    let sites = operand_sites(alloc, &scene.method, point, 0)?;
    Ok(Access {
        object: List::from_vec(objects),
        sites: List::from_vec(sites),
    })
}

// Adds the access of the statement at a point, where it is one.
fn add_point(
    alloc: Global,
    scene: &Scene<'_>,
    accesses: &mut Vec<(Statement, Access)>,
    point: &Point,
) -> Result<(), NoMemory>
    requires { IsScene scene.now }
    ensures { (p : Program) → HasBody p scene.now.method.system.now scene.now.method.body.now → HasOwnNodes scene.now.ground.row.now scene.now.method.body.now → Contains scene.now.method.body.now.shape.points point.now → OnOk result (AddsAccesses accesses.old.items accesses.new.items (IsAccessPoint scene.now.method.body.now.method point.now) (HasAccess p scene.now.method.system.now scene.now.ground.first scene.now.ground.row.now)) }
{
    if !is_access(point.op) {
        return Ok(());
    }
    let access = access_at(alloc, scene, point)?;
    let place = Statement {
        method: scene.method.body.method,
        pc: point.pc,
    };
    push(accesses, place, access)
}

// Adds the accesses of a method.
fn add_points(
    alloc: Global,
    scene: &Scene<'_>,
    accesses: &mut Vec<(Statement, Access)>,
) -> Result<(), NoMemory>
    requires { IsScene scene.now }
    ensures { (p : Program) → HasBody p scene.now.method.system.now scene.now.method.body.now → HasOwnNodes scene.now.ground.row.now scene.now.method.body.now → OnOk result (AddsAccesses accesses.old.items accesses.new.items (IsAccessInBody scene.now.method.body.now) (HasAccess p scene.now.method.system.now scene.now.ground.first scene.now.ground.row.now)) }
{
    for point in scene.method.body.shape.points.items() {
        add_point(alloc, scene, accesses, point)?;
    }
    Ok(())
}

fn vars_at(methods: &[MethodVars], m: MethodId) -> &MethodVars
    requires { m.0 < length methods.now }
    ensures { slice_get methods.now m.0 ≡ Some result.now }
{
    &methods[m.0 as usize]
}

// Whether points have numbers of 32 bits.
fn few_points(points: &[Point]) -> bool
    ensures { result ≡ true → length points.now < 2 ^ 32 }
{
    let count = points.len();
    count < 0x1_0000_0000
}

// Adds the accesses of a body whose method may run.
fn add_method(
    alloc: Global,
    s: &System,
    sol: &Solution,
    input: &MethodInput,
    accesses: &mut Vec<(Statement, Access)>,
    body: &Body,
) -> Result<(), NoMemory>
    requires program { (p : Program) × IsProgramWith p.classes p.bodies s.now p × Contains p.bodies body.now }
    requires solved { IsSolutionOf s.now sol.now }
    requires few { length s.now.calls < 2 ^ 32 }
    requires order { AllPairs ComesBefore input.now.nodes }
    ensures { (p : Program) → HasBody p s.now body.now → HasOwnNodes input.now.nodes body.now → OnOk result (AddsAccesses accesses.old.items accesses.new.items (IsAccessInBody body.now) (HasAccess p s.now input.now.first.0 input.now.nodes)) }
{
    let points = body.shape.points.items();
    if !few_points(points) {
        return Err(NoMemory);
    }
    let raises = raises_of(alloc, points)?;
    let scene = Scene {
        method: Method {
            system: s,
            solution: sol,
            body,
            vars: vars_at(s.methods.items(), body.method),
        },
        ground: Ground {
            points,
            raises: raises.as_slice(),
            first: input.first.0,
            row: input.nodes.items(),
        },
    };
    add_points(alloc, &scene, accesses)
}

// The input of a method; none where it isn't reached.
fn input_at(inputs: &[Option<MethodInput>], m: MethodId) -> Option<&MethodInput>
    ensures { MatchOption result ((i : MethodInput) → IsInputOf inputs.now m i → ⊥) (λ i. IsInputOf inputs.now m i.now) }
{
    match inputs.get(m.0 as usize) {
        Some(input) => input.as_ref(),
        None => None,
    }
}

// Adds the accesses of a body, where its method may run.
fn add_body(
    alloc: Global,
    s: &System,
    sol: &Solution,
    inputs: &[Option<MethodInput>],
    accesses: &mut Vec<(Statement, Access)>,
    body: &Body,
) -> Result<(), NoMemory>
    requires program { (p : Program) × IsProgramWith p.classes p.bodies s.now p × Contains p.bodies body.now }
    requires solved { IsSolutionOf s.now sol.now }
    requires few { length s.now.calls < 2 ^ 32 }
    requires order { (m : MethodId) (i : MethodInput) → IsInputOf inputs.now m i → AllPairs ComesBefore i.nodes }
    ensures { (p : Program) (mr : ModRef) (entries : List MethodId) → HasBody p s.now body.now → AreInputs p s.now mr entries inputs.now → OnOk result (AddsAccesses accesses.old.items accesses.new.items (RunsInBody s.now body.now) (HasAccessIn p s.now inputs.now)) }
{
    if !is_reached(sol, body.method) {
        return Ok(());
    }
    match input_at(inputs, body.method) {
        Some(input) => add_method(alloc, s, sol, input, accesses, body),
        None => Ok(()),
    }
}

// Whether calls have numbers of 32 bits.
fn are_few(s: &System) -> bool
    ensures { result ≡ true → length s.now.calls < 2 ^ 32 }
{
    let calls = s.calls.items().len();
    calls < 0x1_0000_0000
}

/// Each statement that may run and reads or writes a field, an element or a length, in order: the nodes of the definitions that hold in
/// its object or array operand, and the sites that this operand may be. The nodes are those of the inputs. The only error is want of
/// memory, which a system with 2^32 calls has too.
///
/// For each such statement it takes a logarithmic number of steps for each definition that holds there, and one for each site; a node or a
/// site takes 4 bytes.
pub fn access_table(
    alloc: Global,
    bodies: &[Body],
    s: &System,
    sol: &Solution,
    inputs: &[Option<MethodInput>],
) -> Result<List<(Statement, Access)>, NoMemory>
    requires program { (p : Program) × IsProgramWith p.classes bodies.now s.now p }
    requires solved { IsSolutionOf s.now sol.now }
    requires order { (m : MethodId) (i : MethodInput) → IsInputOf inputs.now m i → AllPairs ComesBefore i.nodes }
    ensures { IfOk result (λ accesses. (p : Program) (mr : ModRef) (entries : List MethodId) → IsProgramWith p.classes bodies.now s.now p → All IsClassFile p.classes → AreInputs p s.now mr entries inputs.now → AreAccesses p s.now inputs.now accesses) }
{
    if !are_few(s) {
        return Err(NoMemory);
    }
    let mut accesses = Vec::new(alloc);
    for body in bodies {
        add_body(alloc, s, sol, inputs, &mut accesses, body)?;
    }
    Ok(List::from_vec(accesses))
}
