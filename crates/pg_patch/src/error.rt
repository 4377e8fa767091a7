//! Why ranges could not be made.

ghost use Rattle.std.specs.Prelude.{◌≡◌};
ghost use Rattle.pg_patch.specs.declared.error.RangeError.TheVariants.{OutOfMemory};

use std::alloc::{AllocError, AllocFailed};
use thiserror::Error;

#[derive(Clone, Copy, Debug, PartialEq, Eq, Error)]
pub enum RangeError {
    /// The ranges would end behind the limit of a body.
    #[error("too long")]
    TooLong,
    #[error("out of memory")]
    OutOfMemory,
}

impl From<AllocError> for RangeError {
    ghost from_gives = { λ _ e. e ≡ OutOfMemory };

    fn from(_: AllocError) -> Self {
        RangeError::OutOfMemory
    }
}

impl<T: Drop> From<AllocFailed<T>> for RangeError {
    ghost from_gives = { λ _ e. e ≡ OutOfMemory };

    fn from(_: AllocFailed<T>) -> Self {
        RangeError::OutOfMemory
    }
}
