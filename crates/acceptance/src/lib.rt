//! Which folders of class files are accepted, with which program, and the line with which each other one is refused.
#![tactic(auto)]

pub mod laws;
