//! Prints how long points-to sets take, on generated systems of constraints. Each line of the input says what joins the variables of
//! different methods (calls, states, ring), how many variables there are, and how many methods are in a group.
#![tactic(auto)]

mod generated;
mod measure;
mod parts;

use crate::generated::Shape;
use crate::measure::measure;
use anyhow::{Result, bail};
use bench_tools::memory::peak;

fn shape_of(word: &str) -> Option<Shape> {
    match word {
        "calls" => Some(Shape::Calls),
        "states" => Some(Shape::States),
        "ring" => Some(Shape::Ring),
        _ => None,
    }
}

fn measure_line(rt: &HostRuntime, line: &str) -> Result<()> {
    let words: Vec<&str> = line.split_whitespace().collect(rt.alloc())?;
    let [shape, variables, group] = words.as_slice() else {
        bail!("three words are wanted");
    };
    let (Some(shape), Ok(variables), Ok(group)) = (
        shape_of(shape),
        variables.parse::<u32>(),
        group.parse::<u32>(),
    ) else {
        bail!("no shape or numbers");
    };
    println!(rt; "{line}")?;
    measure(rt, shape, variables, group)?;
    println!(rt; "  {} kilobytes at most so far", peak(rt)?)?;
    Ok(())
}

fn main(rt: HostRuntime) -> Result<()> {
    for line in rt.lines(rt.alloc()) {
        let line = line?;
        measure_line(&rt, line.as_str())?;
    }
    Ok(())
}
