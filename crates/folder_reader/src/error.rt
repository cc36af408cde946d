// Why a folder's class files weren't read.

use slicer_ids::limits::LimitKind;
use thiserror::Error;

/// Why the class files of a folder weren't read.
#[derive(Clone, Copy, PartialEq, Eq, Debug, Error)]
pub enum FolderError {
    /// There was no memory.
    #[error("no memory")]
    NoMemory,
    /// A call of the host failed.
    #[error("host fault")]
    Host,
    /// A limit is exceeded; and the number that is counted, as it stands in the refusal.
    #[error("limit")]
    TooMany(LimitKind, u64),
}
