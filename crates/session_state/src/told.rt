// What came of a command.

use report::reply::CommandError;

/// What came of a command that tells a session something.
#[derive(Clone, Copy, PartialEq, Eq, Debug, Drop)]
pub enum Told {
    /// It was taken, and the seeds are the same.
    Same,
    /// It was taken, and the seeds are others.
    Other,
    Refused(CommandError),
}
