//! Ends in memory that wait for each other, for tests of what runs side by side: a source holds its second line until a sink has taken
//! a byte, and a host gives two sources and two sinks of which each waits for the other session.
//!
//! They tell nothing of what they hold, and none of them is steady: what a proof knows of them is what it knows of any outside.
#![tactic(auto)]

pub mod gate;
pub mod host;
pub mod sink;
pub mod source;
#[cfg(test)]
mod tests;
