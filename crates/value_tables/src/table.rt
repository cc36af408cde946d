// The values of statements.
ghost use Rattle.std.specs.Prelude.{◌≡◌, ◌<◌, ◌++◌, ◌∷◌, [], ◌^◌, true, Contains, IfOk, IsTrue, OnOk, Some, length, slice_get, ◌↔◌};
ghost use Rattle.slicer_ids.specs.Order.{SiteBefore};
ghost use Rattle.slicer_ids.specs.Sets.{IsOrderedListOf};
ghost use Rattle.dep_form.specs.Solutions.{IsSolutionOf};
ghost use Rattle.program_form.specs.Programs.{Program};
ghost use Rattle.fact_form.specs.FactTables.{AreValues};
ghost use Rattle.fact_form.specs.Handed.{IsProgramWith};
ghost use Rattle.fact_form.specs.ValueNumbers.{ValueSite};
ghost use Rattle.value_tables.specs.Methods.{IsMethod};
ghost use Rattle.value_tables.specs.Tables.{AddsValues, IsAtPoint, IsInBody, RunsInBody};
ghost use Rattle.value_tables.specs.Values.{PointHas};

use crate::calls::add_called;
use crate::method::Method;
use crate::operands::{add_made, add_passed};
use crate::sites::in_order;
use class_form::body::{Body, Point};
use dep_form::rules::MethodVars;
use dep_form::solution::Solution;
use dep_form::system::System;
use method_facts::solved::is_reached;
use slicer_ids::ids::{MethodId, NoMemory, SiteId, Statement};
use slicer_ids::list::List;
use std::alloc::Global;

// What the value of the statement at a point may be.
fn sites_at(alloc: Global, x: &Method<'_>, point: &Point) -> Result<Vec<SiteId>, NoMemory>
    requires { IsMethod x.now }
    ensures { IfOk result (λ hs. IsOrderedListOf SiteBefore hs.items (PointHas x.now point.now)) }
{
    let mut sites = Vec::new(alloc);
    let place = Statement {
        method: x.body.method,
        pc: point.pc,
    };
    add_made(x, &mut sites, point.pc)?;
    add_passed(x, &mut sites, point)?;
    add_called(x, &mut sites, place)?;
    Ok(in_order(sites))
}

fn push(
    values: &mut Vec<(Statement, List<SiteId>)>,
    t: Statement,
    sites: List<SiteId>,
) -> Result<(), NoMemory>
    ensures { OnOk result (values.new.items ≡ values.old.items ++ (t, sites) ∷ []) }
{
    match values.push((t, sites)) {
        Ok(()) => Ok(()),
        Err(_) => Err(NoMemory),
    }
}

fn are_none(sites: &[SiteId]) -> bool
    ensures { IsTrue result ↔ (length sites.now ≡ 0) }
{
    sites.len() == 0
}

// Adds the value of the statement at a point, where it may be something.
fn add_point(
    alloc: Global,
    x: &Method<'_>,
    values: &mut Vec<(Statement, List<SiteId>)>,
    point: &Point,
) -> Result<(), NoMemory>
    requires { IsMethod x.now }
    ensures { (p : Program) → IsProgramWith p.classes p.bodies x.now.system.now p → Contains p.bodies x.now.body.now → Contains x.now.body.now.shape.points point.now → OnOk result (AddsValues values.old.items values.new.items (IsAtPoint x.now.body.now.method point.now) (ValueSite p x.now.system.now)) }
{
    let sites = sites_at(alloc, x, point)?;
    if are_none(sites.as_slice()) {
        return Ok(());
    }
    let place = Statement {
        method: x.body.method,
        pc: point.pc,
    };
    push(values, place, List::from_vec(sites))
}

// Adds the values of the statements of a body.
fn add_points(
    alloc: Global,
    x: &Method<'_>,
    values: &mut Vec<(Statement, List<SiteId>)>,
) -> Result<(), NoMemory>
    requires { IsMethod x.now }
    ensures { (p : Program) → IsProgramWith p.classes p.bodies x.now.system.now p → Contains p.bodies x.now.body.now → OnOk result (AddsValues values.old.items values.new.items (IsInBody x.now.body.now) (ValueSite p x.now.system.now)) }
{
    for point in x.body.shape.points.items() {
        add_point(alloc, x, values, point)?;
    }
    Ok(())
}

fn vars_at(methods: &[MethodVars], m: MethodId) -> &MethodVars
    requires { m.0 < length methods.now }
    ensures { slice_get methods.now m.0 ≡ Some result.now }
{
    &methods[m.0 as usize]
}

// Adds the values of the statements of a body, where its method may run.
fn add_body(
    alloc: Global,
    s: &System,
    sol: &Solution,
    values: &mut Vec<(Statement, List<SiteId>)>,
    body: &Body,
) -> Result<(), NoMemory>
    requires program { (p : Program) × IsProgramWith p.classes p.bodies s.now p × Contains p.bodies body.now }
    requires solved { IsSolutionOf s.now sol.now }
    requires few { length s.now.calls < 2 ^ 32 }
    ensures { (p : Program) → IsProgramWith p.classes p.bodies s.now p → Contains p.bodies body.now → OnOk result (AddsValues values.old.items values.new.items (RunsInBody s.now body.now) (ValueSite p s.now)) }
{
    if !is_reached(sol, body.method) {
        return Ok(());
    }
    let x = Method {
        system: s,
        solution: sol,
        body,
        vars: vars_at(s.methods.items(), body.method),
    };
    add_points(alloc, &x, values)
}

// Whether calls have numbers of 32 bits.
fn are_few(s: &System) -> bool
    ensures { result ≡ true → length s.now.calls < 2 ^ 32 }
{
    let calls = s.calls.items().len();
    calls < 0x1_0000_0000
}

/// What the value of each statement that may run may be, of each whose value may be something, in order. The only error is want of
/// memory, which a system with 2^32 calls has too.
///
/// For each reachable instruction it takes a logarithmic number of steps, one for each definition that holds in what the instruction
/// passes on, and one for each site that is gathered; a site takes 4 bytes.
pub fn value_table(
    alloc: Global,
    bodies: &[Body],
    s: &System,
    sol: &Solution,
) -> Result<List<(Statement, List<SiteId>)>, NoMemory>
    requires program { (p : Program) × IsProgramWith p.classes bodies.now s.now p }
    requires solved { IsSolutionOf s.now sol.now }
    ensures { IfOk result (λ values. (p : Program) → IsProgramWith p.classes bodies.now s.now p → AreValues p s.now values) }
{
    if !are_few(s) {
        return Err(NoMemory);
    }
    let mut values = Vec::new(alloc);
    for body in bodies {
        add_body(alloc, s, sol, &mut values, body)?;
    }
    Ok(List::from_vec(values))
}
