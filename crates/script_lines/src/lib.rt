//! The lines of a script, one after another, as a source gives them: whole lines, a last one that has no end, and the end, or that the
//! script is too long. It reads on only when all that it had read is taken.
//!
//! It takes 8 KiB when it is made, and no more.
#![tactic(auto)]

pub mod commands;
pub mod laws;
pub mod next;
pub mod reader;

pub use next::Next;
pub use reader::ScriptReader;
