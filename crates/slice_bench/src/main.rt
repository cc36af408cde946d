//! Prints how long slices take on generated programs, once all graphs and rows are there: a walk in two phases, and a slice that is
//! widened. Each line of the input says how many nodes there are, how many methods, and how often each call is made.
#![tactic(auto)]

mod counts;
mod laps;
mod measure;
mod program;
mod sizes;
mod walks;
mod widened;

use crate::measure::measure;
use anyhow::{Result, bail};
use bench_tools::memory::peak;

fn measure_line(rt: &HostRuntime, line: &str) -> Result<()> {
    let words: Vec<&str> = line.split_whitespace().collect(rt.alloc())?;
    let [nodes, methods, rounds] = words.as_slice() else {
        bail!("three numbers are wanted");
    };
    let (Ok(nodes), Ok(methods), Ok(rounds)) = (
        nodes.parse::<u32>(),
        methods.parse::<u32>(),
        rounds.parse::<u32>(),
    ) else {
        bail!("no numbers");
    };
    measure(rt, nodes, methods, rounds)?;
    println!(rt; "  {} kilobytes at most so far", peak(rt)?)?;
    Ok(())
}

fn main(rt: HostRuntime) -> Result<()> {
    for line in rt.lines(rt.alloc()) {
        let line = line?;
        measure_line(&rt, line.as_str())?;
    }
    Ok(())
}
