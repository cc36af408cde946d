//! Where a program starts, and the first reached statement that is refused.
#![tactic(auto)]

mod entry_methods;
pub mod laws;
mod refusals;
mod texts;

pub use entry_methods::{EntryError, entries};
pub use refusals::{Refused, RefusedKind, refused_reached};
