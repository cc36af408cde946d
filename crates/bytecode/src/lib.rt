//! Instructions: the code of a method as a list, or why it is refused (JVMS SE 7, chapter 6 and 4.9.1).
#![tactic(auto)]

mod constants;
mod descriptors;
mod fields;
mod heads;
mod instructions;
mod keys;
mod listing;
mod numbers;
mod operands;
mod sizes;
mod starts;
mod targets;

pub use listing::decode;
