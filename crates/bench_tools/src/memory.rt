// The memory that the process has.

use std::{fs, io};

// The number of a line that begins with this name.
fn number_after(line: &str, name: &str) -> Option<u64> {
    let rest = line.strip_prefix(name)?;
    let number = rest.split_whitespace().next()?;
    match number.parse::<u64>() {
        Ok(number) => Some(number),
        Err(_) => None,
    }
}

// What Linux says of the process under this name, in kilobytes; 0 where it says nothing.
fn status(rt: &HostRuntime, name: &str) -> io::Result<u64> {
    let text = fs::read_to_string(rt, "/proc/self/status")?;
    for line in text.as_str().lines() {
        if let Some(number) = number_after(line, name) {
            return Ok(number);
        }
    }
    Ok(0)
}

/// What the process has in memory, in kilobytes; 0 where the system doesn't say.
pub fn resident(rt: &HostRuntime) -> io::Result<u64> {
    status(rt, "VmRSS:")
}

/// The most that it has had in memory, in kilobytes; 0 where the system doesn't say.
pub fn peak(rt: &HostRuntime) -> io::Result<u64> {
    status(rt, "VmHWM:")
}
