//! Tests over several crates, on the facts of small programs: what sessions share, and tables of exits.
#![tactic(auto)]

#[cfg(test)]
mod cells;
pub mod one_method;
pub mod parts;
pub mod programs;
pub mod tables;
#[cfg(test)]
mod tests;
pub mod two_threads;
