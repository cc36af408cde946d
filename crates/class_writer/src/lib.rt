//! Class files (JVMS SE 7 chapter 4), told from other values and written.
#![tactic(auto)]

mod check_attributes;
mod check_class;
mod check_members;
mod check_pool;
mod code;
mod constants;
mod distinct;
pub mod laws;
mod members;
mod numbers;
mod output;
mod sizes;
mod write;

pub use check_class::well_formed;
pub use write::write_class;

#[cfg(test)]
mod tests;
