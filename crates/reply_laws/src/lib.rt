//! What replies and runs have in common, whatever they are made of.
#![tactic(auto)]

pub mod laws;
