//! Tests of slices on programs that nobody chose: each is made from a number, and its slices are compared with plain readings of what
//! slices are.
#![tactic(auto)]

pub mod calls;
pub mod choices;
#[cfg(test)]
mod comparing;
pub mod control;
#[cfg(test)]
mod count_tests;
pub mod flows;
pub mod methods;
pub mod numbers;
pub mod programs;
pub mod reading;
#[cfg(test)]
mod tests;
