//! Why a write was refused.

ghost use Rattle.std.specs.Prelude.{◌≡◌};
ghost use Rattle.pg_content.specs.declared.error.WriteError.TheVariants.{OutOfMemory};

use std::alloc::{AllocError, AllocFailed};
use thiserror::Error;

#[derive(Clone, Copy, Debug, PartialEq, Eq, Error)]
pub enum WriteError {
    /// The new body would have more than 1,048,576 bytes.
    #[error("too long")]
    TooLong,
    /// The new vector would have more than 256 actors.
    #[error("too many actors")]
    ManyActors,
    #[error("out of memory")]
    OutOfMemory,
}

impl From<AllocError> for WriteError {
    ghost from_gives = { λ _ e. e ≡ OutOfMemory };

    fn from(_: AllocError) -> Self {
        WriteError::OutOfMemory
    }
}

impl<T: Drop> From<AllocFailed<T>> for WriteError {
    ghost from_gives = { λ _ e. e ≡ OutOfMemory };

    fn from(_: AllocFailed<T>) -> Self {
        WriteError::OutOfMemory
    }
}
