//! The constant pool of a class file (JVMS SE 7 4.4), read with its rules.
#![tactic(auto)]

mod constant;
mod constants;
mod links;
mod pool;
pub mod texts;

pub use byte_form::error::ItemError as PoolError;
pub use constants::is_wide;
pub use links::{has_kinds, has_texts, is_class, is_utf, kinds_at, spelled_len};
pub use pool::{pool_at, read_pool};

#[cfg(test)]
mod tests;
