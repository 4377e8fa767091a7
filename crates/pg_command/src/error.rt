//! Why words are no command.

ghost use Rattle.std.specs.Prelude.{◌≡◌};
ghost use Rattle.pg_command.specs.declared.error.CommandError.TheVariants.{OutOfMemory};

use std::alloc::{AllocError, AllocFailed};
use thiserror::Error;

/// Why words are no command.
#[derive(Clone, Copy, Debug, PartialEq, Eq, Error)]
pub enum CommandError {
    #[error("out of memory")]
    OutOfMemory,
    /// The number of the first word that no command has in its place, or of the one that is
    /// missing. The program's name has number 0.
    #[error("usage at word {0}")]
    Usage(u64),
}

impl From<AllocError> for CommandError {
    ghost from_gives = { λ _ e. e ≡ OutOfMemory };

    fn from(_: AllocError) -> Self {
        CommandError::OutOfMemory
    }
}
