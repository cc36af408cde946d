//! Calls of methods outside the folder: which are refused as reflection, and what the others read and write.
#![tactic(auto)]

pub mod outside_rule;
pub mod reflection;
#[cfg(test)]
mod tests;
