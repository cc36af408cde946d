//! The points-to constraints of a program, table by table, and that they say what its facts are. Nothing runs here.
#![tactic(auto)]

pub mod laws;
