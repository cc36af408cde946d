// The time that a solution takes, and how many facts it has.

use crate::generated::{Shape, generated};
use crate::parts::VARIABLES;
use anyhow::{Result, bail};
use bench_tools::watch::Watch;
use dep_form::solution::Solution;
use points_to::solve;
use slicer_ids::list::List;

fn sum<T>(lists: &[List<T>]) -> usize {
    let mut count: usize = 0;
    for list in lists {
        count = count.saturating_add(list.items().len());
    }
    count
}

fn print_facts(rt: &HostRuntime, solution: &Solution) -> Result<()> {
    let sites = sum(solution.sites.items());
    let cells = solution.cells.items().len();
    let targets = sum(solution.targets.items());
    println!(rt; "  {sites} sites of variables, {cells} of fields, {targets} targets of calls")?;
    Ok(())
}

/// Prints how long a generated system takes.
pub fn measure(rt: &HostRuntime, shape: Shape, variables: u32, group: u32) -> Result<()> {
    let methods = variables / VARIABLES;
    let Some(system) = generated(rt.alloc(), shape, methods, group)? else {
        bail!("the parts don't fit together");
    };
    let sites = system.sites.items().len();
    let constraints = system.constraints.items().len();
    println!(rt; "{variables} variables, {sites} sites, {constraints} constraints")?;
    let watch = Watch::start(rt)?;
    let solution = solve(rt.alloc(), &system)?;
    let spent = watch.spent(rt)?;
    print_facts(rt, &solution)?;
    println!(rt; "  {spent}")?;
    Ok(())
}
