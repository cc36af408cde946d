//! The exits of a program: what its methods answer and throw, and the locations that they change.
#![tactic(auto)]

mod collecting;

pub use collecting::exits;
