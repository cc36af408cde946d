//! The classes of a folder in order, what is found in them, and what they select.
#![tactic(auto)]

mod graph;
mod look_up;
mod members;
mod parents;
mod sorted;
pub mod tree;

pub use tree::{Hierarchy, Select, TreeError, build};
