//! Tests of slices that are widened, and of which graphs slices ask for.
#![tactic(auto)]

pub mod asked;
pub mod boxes;
pub mod chains;
#[cfg(test)]
mod graph_tests;
pub mod needed;
#[cfg(test)]
mod wide_tests;
pub mod widened;
