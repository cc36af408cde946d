//! Which definitions reach which slots of a method's code.
#![tactic(auto)]

mod definitions;
mod frame;
mod points;
mod spread;
mod starts;
mod table;

pub use definitions::reaching;
