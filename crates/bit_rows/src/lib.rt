//! Sets of numbers as rows of bits in words, which grow word by word and are counted as they grow.
#![tactic(auto)]

pub mod laws;
pub mod rows;
#[cfg(test)]
mod tests;
