//! Prints how long graphs take, and Mod and Ref. Each line of the input is `graphs` with how many nodes and how many methods there
//! are, or `effects` with how many methods there are and how many of them are in a group that calls each other.
#![tactic(auto)]

mod effects;
mod graphs;
mod inputs;
mod systems;

use crate::effects::measure_effects;
use crate::graphs::measure_graphs;
use anyhow::{Result, bail};
use bench_tools::memory::peak;

fn measure(rt: &HostRuntime, what: &str, first: u32, second: u32) -> Result<()> {
    match what {
        "graphs" => measure_graphs(rt, first, second),
        "effects" => measure_effects(rt, first, second),
        _ => bail!("graphs or effects"),
    }
}

fn measure_line(rt: &HostRuntime, line: &str) -> Result<()> {
    let words: Vec<&str> = line.split_whitespace().collect(rt.alloc())?;
    let [what, first, second] = words.as_slice() else {
        bail!("three words are wanted");
    };
    let (Ok(first), Ok(second)) = (first.parse::<u32>(), second.parse::<u32>()) else {
        bail!("no numbers");
    };
    println!(rt; "{line}")?;
    measure(rt, what, first, second)?;
    println!(rt; "  {} kilobytes at most so far", peak(rt)?)?;
    Ok(())
}

fn main(rt: HostRuntime) -> Result<()> {
    for line in rt.lines(rt.alloc()) {
        let line = line?;
        measure_line(&rt, line.as_str())?;
    }
    Ok(())
}
