//! Where bytes come from and go to, as traits, and such ends in memory.
//!
//! Each trait has a count of faults that never falls, and a call answers a fault only where the count of its object rose.
//! What an object holds, has left or was given is optional: memory tells it, a real file doesn't, and what is said of it holds
//! where it is told. No call changes whether it is told, nor whether an object is steady.
#![tactic(auto)]

mod calls;
pub mod fail_plan;
pub mod host;
pub mod memory_host;
pub mod memory_sink;
pub mod memory_source;
pub mod sink;
pub mod source;
mod stored;
#[cfg(test)]
mod tests;
pub mod whole;
