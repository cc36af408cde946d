//! The commands of a script: what each line asks for.
#![tactic(auto)]

pub mod command;
mod escapes;
mod keyword;
pub mod laws;
mod numbers;
mod operands;
pub mod parse;
#[cfg(test)]
mod tests;
mod words;

pub use command::{Command, LineError, Place};
pub use parse::{LINE_BYTES, parse_line};
