//! The names and descriptors that the statements of a program name, in order, and what its classes select for them.
#![tactic(auto)]

pub mod code;
pub mod laws;
pub mod naming;
mod selects;
mod subclasses;
#[cfg(test)]
mod tests;
pub mod texts;
pub mod type_tables;
pub mod wanted;
