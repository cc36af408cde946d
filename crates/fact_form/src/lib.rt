//! What the facts of a program are, by the numbers of its system of constraints; and that such facts are those of the program.
#![tactic(auto)]

pub mod laws;
