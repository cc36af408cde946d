//! When the bodies of a program are those of its classes' code, and what follows: a statement has one instruction, and what
//! methods define and use over a system of the program is what they define and use in the program. Nothing runs here.
#![tactic(auto)]

pub mod laws;
