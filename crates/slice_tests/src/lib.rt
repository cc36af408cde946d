//! Tests of slices over what sessions share, on the facts of small programs.
#![tactic(auto)]

pub mod containers;
pub mod counted;
#[cfg(test)]
mod dependence_tests;
pub mod dependences;
pub mod edges;
pub mod examples;
pub mod long_program;
pub mod sliced;
#[cfg(test)]
mod tests;
