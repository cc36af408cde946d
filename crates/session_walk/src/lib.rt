//! A walk back over what one session has seen of the shared graphs and knows of the shared rows, which fetches what is missing.
#![tactic(auto)]

pub mod known;
pub mod seen;
pub mod walking;
