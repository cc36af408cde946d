//! The class files of a folder of a host: the paths that the walk of the folder finds, and the bytes of the files there.
//!
//! A walk lists each folder once and sorts its entries; the reading asks for each file once. A path is copied once for each
//! entry that is a folder or a class file.
#![tactic(auto)]

mod entries;
mod error;
mod folder;
pub mod laws;
mod reading;
#[cfg(test)]
mod tests;
mod walk;

pub use error::FolderError;
pub use folder::{FolderFiles, read_folder};
pub use reading::contents;
pub use walk::class_files;
