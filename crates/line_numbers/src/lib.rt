//! Lines of source: the line of each program counter of a body, by its line tables.
#![tactic(auto)]

mod filling;
pub mod laws;
mod numbers;
#[cfg(test)]
mod tests;

pub use numbers::LineNumbers;
