//! Which methods of a class file have code, which code has a body, and with which line a file is refused. Nothing runs here.
#![tactic(auto)]

pub mod laws;
