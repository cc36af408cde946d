// Why code is refused.
ghost use Rattle.std.specs.Prelude.{◌≡◌};
ghost use Rattle.class_form.specs.declared.code_error.CodeError.TheVariants.{NoMemory};

use std::alloc::{AllocError, AllocFailed};
use thiserror::Error;

/// Why code is refused (JVMS SE 7, 4.9.1).
#[derive(Clone, Copy, PartialEq, Eq, Debug, Error)]
pub enum CodeError {
    #[error("no memory")]
    NoMemory,
    /// A rule is broken at an instruction.
    #[error("code rule {rule} at pc {pc}")]
    Broken { rule: u8, pc: u16 },
    /// A jump to or from a subroutine, which no code may have.
    #[error("jsr at pc {0}")]
    Jsr(u16),
}

impl From<AllocError> for CodeError {
    ghost from_gives = { λ _ e. e ≡ NoMemory };

    fn from(_: AllocError) -> CodeError {
        CodeError::NoMemory
    }
}

impl<T: Drop> From<AllocFailed<T>> for CodeError {
    ghost from_gives = { λ _ e. e ≡ NoMemory };

    fn from(_: AllocFailed<T>) -> CodeError {
        CodeError::NoMemory
    }
}
