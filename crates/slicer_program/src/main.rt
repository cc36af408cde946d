//! The program: real files, the standard output, and the words of the command line.
#![tactic(auto)]

use real_host::host::RealHost;
use slicer_service::run;
use std::alloc::AllocFailed;
use std::process::ExitCode;
use std::{env, io};

/// The words after the program's name.
fn words(rt: &HostRuntime) -> io::Result<Vec<String>> {
    let mut words = Vec::new(rt.alloc());
    for word in env::args(rt)?.skip(1) {
        words.push(word)?;
    }
    Ok(words)
}

fn main(rt: HostRuntime) -> ExitCode {
    match words(&rt) {
        Ok(words) => {
            let mut host = RealHost::new(rt);
            ExitCode::from(run(&rt, rt.alloc(), &words, &mut host))
        }
        // Words that can't be read: nothing is said.
        Err(error) if error.kind() == io::ErrorKind::OutOfMemory => ExitCode::from(1),
        Err(_) => ExitCode::from(3),
    }
}
