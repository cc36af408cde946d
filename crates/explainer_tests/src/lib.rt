//! Tests of what two accesses have in common, on the facts of small programs.
#![tactic(auto)]

pub mod arrays;
#[cfg(test)]
mod arrays_tests;
pub mod boxes;
#[cfg(test)]
mod boxes_tests;
#[cfg(test)]
mod expected;
pub mod explained;
pub mod parts;
