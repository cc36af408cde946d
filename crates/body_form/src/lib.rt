//! What the body of a method is: the instructions of its code, their shape and the definitions that reach its slots; and its first fault.
#![tactic(auto)]

pub mod laws;
