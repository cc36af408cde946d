//! Compares tables of exits by words of bits with a tabulation pair by pair, on generated programs. Each line of the input has the
//! shape of a program (any, near, groups), how many nodes its method has, and which ways are taken (words, pairs, both).
#![tactic(auto)]

mod generated;
mod measure;
mod pairs;

use crate::generated::Shape;
use crate::measure::{Ways, measure};
use anyhow::{Result, bail};
use bench_tools::memory::peak;

fn shape_of(word: &str) -> Option<Shape> {
    match word {
        "any" => Some(Shape::Any),
        "near" => Some(Shape::Near),
        "groups" => Some(Shape::Groups),
        _ => None,
    }
}

fn ways_of(word: &str) -> Option<Ways> {
    match word {
        "words" => Some(Ways::Words),
        "pairs" => Some(Ways::Pairs),
        "both" => Some(Ways::Both),
        _ => None,
    }
}

fn measure_line(rt: &HostRuntime, line: &str) -> Result<()> {
    let words: Vec<&str> = line.split_whitespace().collect(rt.alloc())?;
    let [shape, nodes, ways] = words.as_slice() else {
        bail!("three words are wanted");
    };
    let (Some(shape), Ok(nodes), Some(ways)) = (
        shape_of(shape),
        nodes.parse::<u32>(),
        ways_of(ways),
    ) else {
        bail!("no shape, number or ways");
    };
    measure(rt, shape, nodes, ways)?;
    println!(rt; "  {} kilobytes at most so far", peak(rt)?)?;
    Ok(())
}

fn main(rt: HostRuntime) -> Result<()> {
    for line in rt.lines(rt.alloc()) {
        let line = line?;
        measure_line(&rt, line.as_str())?;
    }
    Ok(())
}
