//! The code of a method, read whole: its instructions, its shape and the definitions that reach its slots, or its first fault.
#![tactic(auto)]

mod arguments;
mod reading;
#[cfg(test)]
mod refusals;
#[cfg(test)]
mod tests;

pub use arguments::is_readable;
pub use reading::read_body;
