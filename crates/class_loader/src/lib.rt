//! The classes of class files that were read, in order, and the bodies of a hierarchy's methods.
//!
//! `read_classes` reads each file, and the code of each of its methods, once. `bodies` reads the code again, by the numbers of
//! the methods, which are known once the classes are in order.
#![tactic(auto)]

mod classes;
mod code;
mod error;
pub mod laws;
mod listing;
mod sound;
#[cfg(test)]
mod tests;

pub use classes::read_classes;
pub use error::ClassesError;
pub use listing::bodies;
