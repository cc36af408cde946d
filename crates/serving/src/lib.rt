//! The scripts of a run, each served by a session on a thread of its own: their files are opened and made, the sessions attended, the
//! outputs closed, and a line is said on each.
#![tactic(auto)]

pub mod closing;
mod ends;
pub mod opening;
mod room;
mod running;
pub mod saying;
pub mod seating;
pub mod serve;
pub mod serving;
mod taking;
