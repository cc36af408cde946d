//! What the facts of one program say, whatever numbers they go by.
#![tactic(auto)]

pub mod laws;
