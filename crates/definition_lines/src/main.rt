//! Prints which definitions hold in which slots before the instructions of class files: `definition_lines FILE ..`. It ends at the first
//! file that is no class file, or has a method whose code has a fault, with its path, the cause and status 1.
#![tactic(auto)]

mod lines;
mod listing;
#[cfg(test)]
mod tests;

ghost use Rattle.std.specs.Prelude.{◌<◌, ◌^◌, length, IfOk};

use edge_io::host::Host;
use listing::{ListError, lines_of};
use real_host::host::RealHost;
use slicer_ids::limits::FILE_BYTES;
use std::alloc::Global;
use std::process::ExitCode;
use std::{env, io};
use thiserror::Error;

/// Why a file's definitions are not printed.
#[derive(Clone, Copy, PartialEq, Eq, Debug, Error)]
pub enum PrintError {
    #[error("not read")]
    NotRead,
    #[error("not printed")]
    NotPrinted,
    #[error("{0}")]
    NotListed(ListError),
}

/// The words after the program's name.
fn words(rt: &HostRuntime) -> io::Result<Vec<String>> {
    let mut words = Vec::new(rt.alloc());
    for word in env::args(rt)?.skip(1) {
        words.push(word)?;
    }
    Ok(words)
}

fn content<H: Host>(host: &mut H, path: &str) -> Result<Vec<u8>, PrintError>
    ensures { IfOk result (λ v. length v.items < 2 ^ 32) }
{
    match host.read(path, FILE_BYTES) {
        Ok(bytes) => Ok(bytes),
        Err(_) => Err(PrintError::NotRead),
    }
}

fn listed(alloc: Global, bytes: &[u8]) -> Result<Vec<u8>, PrintError>
    requires { length bytes.now < 2 ^ 32 }
{
    match lines_of(alloc, bytes) {
        Ok(text) => Ok(text),
        Err(error) => Err(PrintError::NotListed(error)),
    }
}

// One class file.
fn print<H: Host>(alloc: Global, host: &mut H, path: &str) -> Result<(), PrintError> {
    let bytes = content(host, path)?;
    let text = listed(alloc, &bytes)?;
    match host.say(&text) {
        Ok(()) => Ok(()),
        Err(_) => Err(PrintError::NotPrinted),
    }
}

fn main(rt: HostRuntime) -> ExitCode {
    let Ok(words) = words(&rt) else {
        return ExitCode::from(1);
    };
    let alloc = rt.alloc();
    let mut host = RealHost::new(&rt);
    for path in &words {
        if let Err(error) = print(alloc, &mut host, path) {
            let _ = eprintln!(&rt; "{path}: {error}");
            return ExitCode::from(1);
        }
    }
    ExitCode::from(0)
}
