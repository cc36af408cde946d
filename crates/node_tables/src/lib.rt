//! The nodes of a program's dependence graph, by method, and their limits.
#![tactic(auto)]

mod counts;
mod limits;
mod making;
mod parts;
mod rows;
mod scene;
mod segments;
mod statements;
mod tables;
#[cfg(test)]
mod tests;

pub use making::{NodeTables, node_tables};
