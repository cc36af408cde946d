//! The dependence graph of one method.
#![tactic(auto)]

pub mod build;
mod edges;
mod flow;
mod heads;
mod heap;
mod heap_flows;
mod locations;
pub mod own;
