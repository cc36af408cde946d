//! What a session replies: to each command in each state, and to a whole script.
#![tactic(auto)]

pub mod laws;
