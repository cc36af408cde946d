// From a program that was loaded to what its methods change and read on the heap.
ghost use Rattle.dep_form.specs.Solutions.{IsSolutionOf};
ghost use Rattle.program_form.specs.Programs.{Program};
ghost use Rattle.analysis.specs.Analysed.{IsOf};

use crate::counts::{count_reached, count_sites};
use analysis::system_of;
use anyhow::Result;
use bench_tools::watch::Watch;
use dep_form::solution::Solution;
use dep_form::system::System;
use folder_loader::Loaded;
use mod_ref::mod_ref;
use points_to::solve;

fn print_system(rt: &HostRuntime, system: &System) -> Result<()> {
    let methods = system.methods.items().len();
    let sites = system.sites.items().len();
    let constraints = system.constraints.items().len();
    let calls = system.calls.items().len();
    let variables = system.vars;
    println!(rt;
        "  {methods} methods, {calls} calls, {sites} sites, {variables} variables, {constraints} constraints"
    )?;
    Ok(())
}

fn print_solution(rt: &HostRuntime, solution: &Solution) -> Result<()> {
    let sites = count_sites(solution);
    let cells = solution.cells.items().len();
    let facts = sites.saturating_add(cells);
    let reached = count_reached(solution);
    println!(rt;
        "  {facts} facts of variables and fields, {cells} of these of fields, {reached} methods reached"
    )?;
    Ok(())
}

fn measure_effects(rt: &HostRuntime, system: &System, solution: &Solution) -> Result<()>
    requires { IsSolutionOf system.now solution.now }
{
    let watch = Watch::start(rt)?;
    let effects = mod_ref(rt.alloc(), system, solution)?;
    let spent = watch.spent(rt)?;
    println!(rt; "  Mod and Ref: {spent}")?;
    println!(rt; "  {} locations", effects.locations.items().len())?;
    Ok(())
}

fn measure_solution(rt: &HostRuntime, system: &System) -> Result<()> {
    let watch = Watch::start(rt)?;
    let solution = solve(rt.alloc(), system)?;
    let spent = watch.spent(rt)?;
    println!(rt; "  points-to sets: {spent}")?;
    print_solution(rt, &solution)?;
    measure_effects(rt, system, &solution)
}

/// Prints how long it takes to make the constraints of a program, to solve them, and to find what methods change and read.
pub fn measure_steps(rt: &HostRuntime, loaded: &Loaded) -> Result<()>
    requires { (p : Program) × IsOf loaded.now p }
{
    let watch = Watch::start(rt)?;
    let system = system_of(rt.alloc(), loaded)?;
    let spent = watch.spent(rt)?;
    println!(rt; "  constraints: {spent}")?;
    print_system(rt, &system)?;
    measure_solution(rt, &system)
}
