//! What the lines that runs say tell of them.
#![tactic(auto)]

pub mod laws;
