//! Programs whose bodies are those of their classes' code have all that is asked of a program before its constraints are made.
//! Nothing runs here.
#![tactic(auto)]

pub mod laws;
