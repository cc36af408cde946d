// What a session is to show.

use dep_form::access::Explanation;
use report::reply::{CommandError, LinePlace};
use slicer_ids::ids::Statement;

/// What the last command came to.
#[derive(Drop)]
pub enum Kept {
    Done,
    /// A slice without expansions, or a full one: its statements are kept where they were found.
    Statements,
    /// A slice with expansions.
    Widened(Vec<Statement>),
    Lines(Vec<LinePlace>),
    Explained(Explanation),
    Refused(CommandError),
}
