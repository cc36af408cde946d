//! The words of the command line: what they ask for, or that they ask for nothing that can be served.
#![tactic(auto)]

pub mod reading;
pub mod request;
mod scripts;
mod taken;
#[cfg(test)]
mod tests;
