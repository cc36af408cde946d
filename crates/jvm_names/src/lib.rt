//! Names and descriptors of class files: modified UTF-8 (JVMS SE 7 4.4.7), the names of members and classes (4.2), field and method types (4.3).
#![tactic(auto)]

mod descriptor;
mod error;
mod kinds;
mod names;
#[cfg(test)]
mod tests;
mod types;
mod utf8;

pub use error::NameError;
pub use kinds::{is_array_type, is_field_type, is_method_type, parameter_slots};
pub use names::{is_class_name, is_method_name, is_unqualified_name};
pub use types::{field_type, method_type};
pub use utf8::check_utf;
