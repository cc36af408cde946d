//! What is said of a statement of a program that is refused.
#![tactic(auto)]

mod finding;
mod printing;
mod saying;

pub use saying::statement_refusal;
