//! Prints how long each step takes from a folder of class files to the facts of its program, and how many of each thing there are. Each
//! line of the input is a folder, and after it the name of a class, with slashes, where the entries are those of one class.
#![tactic(auto)]

mod analysis_steps;
mod counts;
mod file_steps;
mod whole;

use crate::file_steps::measure_files;
use crate::whole::measure_program;
use anyhow::{Result, bail};
use bench_tools::memory::peak;
use real_host::host::RealHost;

fn measure(rt: &HostRuntime, folder: &str, main: Option<&[u8]>) -> Result<()> {
    let mut host = RealHost::new(rt);
    measure_files(rt, &mut host, folder)?;
    measure_program(rt, &mut host, folder, main)?;
    println!(rt; "  {} kilobytes at most so far", peak(rt)?)?;
    Ok(())
}

fn measure_line(rt: &HostRuntime, line: &str) -> Result<()> {
    let words: Vec<&str> = line.split_whitespace().collect(rt.alloc())?;
    println!(rt; "{line}")?;
    match words.as_slice() {
        [folder] => measure(rt, folder, None),
        [folder, class] => measure(rt, folder, Some(class.as_bytes())),
        _ => bail!("a folder is wanted, or a folder and a class"),
    }
}

fn main(rt: HostRuntime) -> Result<()> {
    for line in rt.lines(rt.alloc()) {
        let line = line?;
        measure_line(&rt, line.as_str())?;
    }
    Ok(())
}
