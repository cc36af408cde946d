//! Facts of parts that a test finds to fit together: what tests of the layers above run on. It tests all pairs, so it is for small
//! facts alone.
#![tactic(auto)]

pub mod calls;
pub mod exits;
pub mod facts;
pub mod fit;
pub mod input;
pub mod lists;
pub mod nodes;
pub mod program;
pub mod rising;
#[cfg(test)]
mod tests;
