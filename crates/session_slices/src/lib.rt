//! The slices of one session: their statements in order, found in room that was taken when the session began, over graphs and rows
//! that sessions share. Where these were seen and known, a slice takes no memory.
//!
//! The room is 17 bytes for each node of the facts. A slice costs one look at each node besides its walk, and the order of its
//! statements.
#![tactic(auto)]

pub mod explaining;
pub mod finder;
pub mod lines;
mod nodes;
mod statements;

pub use finder::SliceFinder;
