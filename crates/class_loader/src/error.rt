// Why class files weren't read as classes.

use slicer_ids::name::Name;
use thiserror::Error;

/// Why class files weren't read as classes.
#[derive(Debug, Drop, Error)]
pub enum ClassesError {
    /// There was no memory.
    #[error("no memory")]
    NoMemory,
    /// A file is refused, and this is said, without the end of the line.
    #[error("refused")]
    Refused(Name),
}
