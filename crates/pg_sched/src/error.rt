//! Why a schedule could not be read.

ghost use Rattle.std.specs.Prelude.{◌≡◌};
ghost use Rattle.pg_call.specs.declared.error.WordsError.TheVariants as words;
ghost use Rattle.pg_call.specs.declared.fault.Fault.{Fault};
ghost use Rattle.pg_sched.specs.declared.error.ReadError.TheVariants as read;

use pg_call::{Fault, WordsError};
use std::alloc::{AllocError, AllocFailed};
use thiserror::Error;

/// Why a schedule could not be read.
#[derive(Clone, Copy, Debug, PartialEq, Eq, Error)]
pub enum ReadError {
    #[error("out of memory")]
    OutOfMemory,
    /// The first line outside the grammar, by its number, and why it is. The first line has number
    /// 1.
    #[error("line {0}: {1}")]
    BadLine(u64, Fault),
}

impl ReadError {
    /// Why the line with this number could not be read.
    pub(crate) fn at(number: u64, error: WordsError) -> ReadError
        ensures memory { error ≡ words.OutOfMemory → result ≡ read.OutOfMemory }
        ensures bad { (f : Fault) → error ≡ words.Bad f → result ≡ read.BadLine number f }
    {
        match error {
            WordsError::OutOfMemory => ReadError::OutOfMemory,
            WordsError::Bad(fault) => ReadError::BadLine(number, fault),
        }
    }
}

impl From<AllocError> for ReadError {
    ghost use Rattle.std.specs.Prelude.{◌≡◌};
    ghost use Rattle.pg_sched.specs.declared.error.ReadError.TheVariants as read;

    ghost from_gives = { λ _ e. e ≡ read.OutOfMemory };

    fn from(_: AllocError) -> Self {
        ReadError::OutOfMemory
    }
}

impl<T: Drop> From<AllocFailed<T>> for ReadError {
    ghost use Rattle.std.specs.Prelude.{◌≡◌};
    ghost use Rattle.pg_sched.specs.declared.error.ReadError.TheVariants as read;

    ghost from_gives = { λ _ e. e ≡ read.OutOfMemory };

    fn from(_: AllocFailed<T>) -> Self {
        ReadError::OutOfMemory
    }
}
