//! Real files and the standard output behind the traits of the outside.
//!
//! Each adapter keeps a count that it raises at each failure. None tells what it holds, and none is steady, so that nothing is
//! claimed of what the system does.
#![tactic(auto)]

pub mod file_sink;
pub mod file_source;
pub mod host;
mod reads;
#[cfg(test)]
mod tests;
