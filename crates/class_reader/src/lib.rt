//! Class files (JVMS SE 7 chapter 4), read whole and with their rules.
#![tactic(auto)]

mod attributes;
mod class;
mod code;
mod error;
mod lines;
mod methods;
mod numbers;

pub use class::read_class;
pub use error::ReadError;

#[cfg(test)]
mod tests;
