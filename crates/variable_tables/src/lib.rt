//! The variables of a program by number: what may be an object, and which number stands for it.
#![tactic(auto)]

mod alone;
mod arguments;
mod calls;
mod counter;
pub mod finding;
mod handlers;
mod kinds;
pub mod laws;
mod look_ups;
mod members;
mod method_vars;
mod operands;
mod statements;
pub mod tables;
#[cfg(test)]
mod tests;
