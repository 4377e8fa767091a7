//! Why words could not be read.

ghost use Rattle.std.specs.Prelude.{◌≡◌};
ghost use Rattle.pg_call.specs.declared.error.WordsError.TheVariants.{OutOfMemory};

use crate::fault::Fault;
use std::alloc::{AllocError, AllocFailed};
use thiserror::Error;

/// Why words could not be read.
#[derive(Clone, Copy, Debug, PartialEq, Eq, Error)]
pub enum WordsError {
    #[error("out of memory")]
    OutOfMemory,
    /// The words are outside the grammar, for this cause.
    #[error("{0}")]
    Bad(Fault),
}

impl From<AllocError> for WordsError {
    ghost from_gives = { λ _ e. e ≡ OutOfMemory };

    fn from(_: AllocError) -> Self {
        WordsError::OutOfMemory
    }
}

impl<T: Drop> From<AllocFailed<T>> for WordsError {
    ghost from_gives = { λ _ e. e ≡ OutOfMemory };

    fn from(_: AllocFailed<T>) -> Self {
        WordsError::OutOfMemory
    }
}
