// Why a file is refused.
ghost use Rattle.std.specs.Prelude.{◌≡◌};
ghost use Rattle.class_reader.specs.Errors.{error_of};

use byte_form::error::ItemError;
use thiserror::Error;

/// Why bytes are no class file: the first violated item, or want of memory. Offsets are from the start of the file.
#[derive(Clone, Copy, PartialEq, Eq, Debug, Error)]
pub enum ReadError {
    /// There was no memory.
    #[error("no memory")]
    NoMemory,
    /// The magic number is another.
    #[error("not a class file")]
    NotClass,
    /// The major version is below 45 or above 51.
    #[error("version {0}")]
    Version(u16),
    /// The bytes of an item aren't all there.
    #[error("truncated")]
    Truncated,
    /// Bytes stand behind the last item, the first at this offset.
    #[error("trailing bytes at {0}")]
    Trailing(u32),
    /// A rule is broken, at the offset of the first byte of the item that the rule names.
    #[error("broken rule {rule} at {at}")]
    Broken { rule: u8, at: u32 },
}

impl From<ItemError> for ReadError {
    ghost from_gives = { λ error result. result ≡ error_of error };

    fn from(error: ItemError) -> ReadError {
        match error {
            ItemError::NoMemory => ReadError::NoMemory,
            ItemError::Truncated => ReadError::Truncated,
            ItemError::Broken { rule, at } => ReadError::Broken { rule, at },
        }
    }
}
