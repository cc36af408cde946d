//! The text of each reply, as it is written to a sink, piece by piece and without memory of its own.
#![tactic(auto)]

mod places;
pub mod reply;
pub mod texts;
mod writing;

pub use reply::{CommandError, LinePlace, Reply};
pub use texts::write_reply;
