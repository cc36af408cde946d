// Why a folder isn't loaded.

use slicer_ids::name::Name;
use thiserror::Error;

/// Why a folder isn't loaded.
#[derive(Debug, Drop, Error)]
pub enum LoadError {
    /// There was no memory.
    #[error("no memory")]
    NoMemory,
    /// A call of the host failed.
    #[error("host fault")]
    Host,
    /// The folder is refused, and this is said, without the end of the line.
    #[error("refused")]
    Refused(Name),
}
