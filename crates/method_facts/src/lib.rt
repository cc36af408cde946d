//! What the facts of a program are found by: the calls of statements, the methods that the root calls, those that it gives an argument
//! and those that have a result, and the locations that some methods have together.
#![tactic(auto)]

pub mod calls;
pub mod entries;
pub mod given;
pub mod locations;
pub mod names;
pub mod solved;
#[cfg(test)]
mod tests;
