//! The heap accesses of a program: what produces the object or array of each, and what that may be.
#![tactic(auto)]

mod objects;
mod scene;
mod table;

pub use table::access_table;
