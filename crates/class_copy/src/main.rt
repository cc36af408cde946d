//! Reads class files and writes them again: `class_copy FROM TO ..`. With `-` for a path to write to, the class file is only read.
//! It ends at the first that it doesn't read or write, with its path, the cause and status 1.
#![tactic(auto)]

mod copy;
#[cfg(test)]
mod tests;

use copy::{CopyError, copy, read};
use edge_io::host::Host;
use real_host::host::RealHost;
use std::alloc::Global;
use std::process::ExitCode;
use std::{env, io};

/// The words after the program's name.
fn words(rt: &HostRuntime) -> io::Result<Vec<String>> {
    let mut words = Vec::new(rt.alloc());
    for word in env::args(rt)?.skip(1) {
        words.push(word)?;
    }
    Ok(words)
}

// One class file.
fn one<H: Host>(alloc: Global, host: &mut H, from: &str, to: &str) -> Result<(), CopyError> {
    if to == "-" {
        read(alloc, host, from)
    } else {
        copy(alloc, host, from, to)
    }
}

fn main(rt: HostRuntime) -> ExitCode {
    let Ok(words) = words(&rt) else {
        return ExitCode::from(1);
    };
    let alloc = rt.alloc();
    let mut host = RealHost::new(&rt);
    let mut rest = words.as_slice();
    while let [from, to, later @ ..] = rest {
        if let Err(error) = one(alloc, &mut host, from, to) {
            let _ = eprintln!(&rt; "{from}: {error}");
            return ExitCode::from(1);
        }
        rest = later;
    }
    ExitCode::from(0)
}
