//! What the walk of a folder finds, and what the files that it found have.
#![tactic(auto)]

pub mod laws;
