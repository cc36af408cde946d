// Why there is no type.
ghost use Rattle.std.specs.Prelude.{◌≡◌};
ghost use Rattle.jvm_names.specs.declared.error.NameError.TheVariants as reasons;

use slicer_ids::ids::NoMemory;
use std::alloc::{AllocError, AllocFailed};
use thiserror::Error;

/// Why there is no type.
#[derive(Clone, Copy, PartialEq, Eq, Debug, Error)]
pub enum NameError {
    #[error("no memory")]
    NoMemory,
    /// The bytes are no such descriptor. The number is the length of the longest prefix of them that some descriptor begins with.
    #[error("malformed at {0}")]
    Malformed(u32),
}

impl From<NoMemory> for NameError {
    ghost from_gives = { λ _ e. e ≡ reasons.NoMemory };

    fn from(_error: NoMemory) -> NameError {
        NameError::NoMemory
    }
}

impl<T: Drop> From<AllocFailed<T>> for NameError {
    ghost from_gives = { λ _ e. e ≡ reasons.NoMemory };

    fn from(_error: AllocFailed<T>) -> NameError {
        NameError::NoMemory
    }
}
