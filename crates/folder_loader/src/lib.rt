//! The program of a host's folder: its classes as a hierarchy, the bodies of its methods, and where it starts; or why there is
//! none.
//!
//! The order is that of acceptance: the folder is walked and its class files are read, each class file is tried, then names that
//! stand twice, classes that are their own ancestors, and the entries. What comes after these is asked of the program.
#![tactic(auto)]

mod classes;
mod error;
mod files;
mod lines;
mod loading;
mod parts;
#[cfg(test)]
mod tests;

pub use error::LoadError;
pub use loading::load;
pub use parts::Loaded;
