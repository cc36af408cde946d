// Why an item is not read.
ghost use Rattle.std.specs.Prelude.{◌≡◌};
ghost use Rattle.byte_form.specs.declared.error.ItemError.TheVariants.{NoMemory};

use std::alloc::{AllocError, AllocFailed};
use thiserror::Error;

/// Why the items of some bytes are not read: the first violated item, or want of memory.
#[derive(Clone, Copy, PartialEq, Eq, Debug, Error)]
pub enum ItemError {
    /// There was no memory.
    #[error("no memory")]
    NoMemory,
    /// The bytes of an item aren't all there.
    #[error("truncated")]
    Truncated,
    /// A rule is broken, at the offset of the first byte of the item that the rule names.
    #[error("broken rule {rule} at {at}")]
    Broken { rule: u8, at: u32 },
}

impl From<AllocError> for ItemError {
    ghost from_gives = { λ _ e. e ≡ NoMemory };

    fn from(_error: AllocError) -> ItemError {
        ItemError::NoMemory
    }
}

impl<T: Drop> From<AllocFailed<T>> for ItemError {
    ghost from_gives = { λ _ e. e ≡ NoMemory };

    fn from(_error: AllocFailed<T>) -> ItemError {
        ItemError::NoMemory
    }
}

impl From<slicer_ids::ids::NoMemory> for ItemError {
    ghost from_gives = { λ _ e. e ≡ NoMemory };

    fn from(_error: slicer_ids::ids::NoMemory) -> ItemError {
        ItemError::NoMemory
    }
}
