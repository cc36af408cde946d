//! The program of a host's folder that is accepted, with its facts; or the line with which the folder is refused.
#![tactic(auto)]

pub mod completing;
mod loading;

pub use loading::load;
