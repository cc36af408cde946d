//! Sessions: what they share, and what each replies to one command after another.
//!
//! A session keeps what its last slice with expanded accesses found, until its seeds change, so that with more accesses expanded only
//! what is new is looked for.
#![tactic(auto)]

pub mod attending;
pub mod desk;
pub mod kept;
mod nodes;
mod replying;
pub mod session;
pub mod shared;
pub mod widened;

pub use attending::attend;
pub use desk::{Desk, Outcome};
pub use session::Session;
pub use shared::Shared;
