//! Directed graphs with numbered nodes: orders in which each edge leads back, cycles, and what is reached.
#![tactic(auto)]

pub mod cycle;
pub mod order;
mod reach;
pub mod rows;
