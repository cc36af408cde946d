//! The tables of a program's facts that commands and replies speak of: names of classes, texts of methods with the lines of their
//! statements, statements by line, and names of sites.
#![tactic(auto)]

mod classes;
mod finding;
mod kinds;
mod lines;
mod methods;
mod site_texts;
mod sites;
mod spelling;
#[cfg(test)]
mod tests;

pub use classes::class_names;
pub use finding::code_of;
pub use lines::line_table;
pub use methods::method_texts;
pub use sites::site_names;
