//! Thin and full slices: a walk back over the graphs of methods and the summaries of their exits, in two phases.
//!
//! The walk takes all its memory when it is made. Where it comes to a graph that wasn't seen or a row that isn't known, it names
//! it, and goes on from there once it was fetched.
#![tactic(auto)]

pub mod ahead;
pub mod asked;
pub mod follow;
pub mod laws;
pub mod marked;
pub mod needs;
mod over;
mod phases;
pub mod walk;

pub use needs::Go;
