//! Formats of items at places in some bytes: numbers, bytes, rules, lists and boxes of a stated length.
#![tactic(auto)]

pub mod cursor;
pub mod error;
pub mod laws;
