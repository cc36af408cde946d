//! The allocation sites of a program: what each statement makes, the table of all sites in order, and their numbers by
//! statement.
#![tactic(auto)]

mod descriptors;
mod fresh;
mod kind;
mod making;
pub mod numbers;
mod table;
#[cfg(test)]
mod tests;

pub use table::site_table;
