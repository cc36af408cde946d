//! What a session has been told, its seeds and the accesses that it expanded, and the commands that tell it more. A command that is
//! refused, and one for which there is no memory, leaves all as it was.
//!
//! A statement takes 8 bytes. One more takes time that grows with those that are there, by one move of memory.
#![tactic(auto)]

mod ordered;
pub mod state;
pub mod told;

pub use state::SessionState;
pub use told::Told;
