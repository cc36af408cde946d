//! Slices and summaries of small graphs, by their definitions: plain and slow, to compare with what faster code answers.
#![tactic(auto)]

pub mod edges;
pub mod levels;
pub mod slices;
pub mod table;
#[cfg(test)]
mod tests;
