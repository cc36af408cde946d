//! The graph of each method in a cell that is set once, and what one session has seen of the cells.
#![tactic(auto)]

pub mod graphs;
pub mod input;
pub mod laws;
pub mod pass;
pub mod published;
pub mod store;
