//! The inputs of the graphs of all methods of a program, and of the root.
#![tactic(auto)]

mod lists;
mod method;
mod scene;

pub use lists::inputs;
