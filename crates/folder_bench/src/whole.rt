// From a folder to facts, by the calls that the program makes.
ghost use Rattle.program_form.specs.Programs.{Program};
ghost use Rattle.analysis.specs.Analysed.{IsOf, IsAnalysisOf};

use crate::analysis_steps::measure_steps;
use crate::counts::count_nodes;
use analysis::{Analysed, analyse};
use anyhow::Result;
use bench_tools::watch::Watch;
use dep_form::facts::Facts;
use edge_io::host::Host;
use folder_loader::{Loaded, load};
use program_loader::completing::completed;

fn print_loaded(rt: &HostRuntime, loaded: &Loaded) -> Result<()> {
    let classes = loaded.hierarchy.classes().len();
    let bodies = loaded.bodies.len();
    println!(rt; "  {classes} classes, {bodies} methods with code")?;
    Ok(())
}

fn print_facts(rt: &HostRuntime, facts: &Facts) -> Result<()> {
    let nodes = count_nodes(facts);
    let exits = facts.exits.items().len();
    println!(rt; "  {nodes} nodes, {exits} exits")?;
    Ok(())
}

fn measure_facts(rt: &HostRuntime, loaded: Loaded, analysed: &Analysed) -> Result<()>
    requires { (p : Program) × IsOf loaded p × IsAnalysisOf p analysed.now.system analysed.now.solution analysed.now.effects }
{
    let watch = Watch::start(rt)?;
    let completed = completed(rt.alloc(), loaded, analysed)?;
    let spent = watch.spent(rt)?;
    println!(rt; "  facts: {spent}")?;
    print_facts(rt, &completed.1)
}

fn measure_analysis(rt: &HostRuntime, loaded: Loaded) -> Result<()>
    requires { (p : Program) × IsOf loaded p }
{
    let watch = Watch::start(rt)?;
    let analysed = analyse(rt.alloc(), &loaded)?;
    let spent = watch.spent(rt)?;
    println!(rt; "  constraints to Mod and Ref once more, with what is refused: {spent}")?;
    measure_facts(rt, loaded, &analysed)
}

fn measure_loaded(rt: &HostRuntime, loaded: Loaded) -> Result<()>
    requires { (p : Program) × IsOf loaded p }
{
    print_loaded(rt, &loaded)?;
    measure_steps(rt, &loaded)?;
    measure_analysis(rt, loaded)
}

/// Prints how long it takes to load the program of a folder, and each step from there to its facts.
pub fn measure_program<H: Host>(
    rt: &HostRuntime,
    host: &mut H,
    folder: &str,
    main: Option<&[u8]>,
) -> Result<()> {
    let watch = Watch::start(rt)?;
    let loaded = load(rt.alloc(), host, folder, main)?;
    let spent = watch.spent(rt)?;
    println!(rt; "  files to hierarchy once more, with entries and bodies: {spent}")?;
    measure_loaded(rt, loaded)
}
