//! What is said where a folder of class files is refused, and how names and numbers are printed.
#![tactic(auto)]

mod printing;
mod refusals;
#[cfg(test)]
mod tests;

pub use printing::{push_number, push_printed};
pub use refusals::{file_refusal, limit_refusal, method_refusal};
