//! Prints how many instructions a second `decode`, `shape` and `reaching` take, over the class files whose paths stand on the input,
//! one a line. Each phase is timed on its own, for all methods together.
#![tactic(auto)]

mod measure;
mod totals;

use crate::measure::measure_class;
use crate::totals::Totals;
use class_reader::read_class;
use std::rt::Files;
use std::{fs, io};

// Reads a class file and times its methods; what is no class file is counted.
fn measure_file(rt: &HostRuntime, path: &str, totals: &mut Totals) -> io::Result<()> {
    let bytes = fs::read(rt, path)?;
    if bytes.len() > u32::MAX as usize {
        totals.refused_file();
        return Ok(());
    }
    match read_class(rt.alloc(), bytes.as_slice()) {
        Ok(class) => measure_class(rt, &class, totals),
        Err(_) => {
            totals.refused_file();
            Ok(())
        }
    }
}

fn main(rt: HostRuntime) -> io::Result<()> {
    let mut totals = Totals::new();
    for line in rt.lines(rt.alloc()) {
        let path = line?;
        measure_file(&rt, path.as_str(), &mut totals)?;
    }
    totals.print(&rt)
}
