//! Why an input was not taken.

use std::alloc::AllocError;
use thiserror::Error;

/// Why an input was not taken.
#[derive(Clone, Copy, Debug, PartialEq, Eq, Error)]
pub enum StepError {
    #[error("out of memory")]
    OutOfMemory,
    /// An earlier one ran out of memory.
    #[error("an earlier step ran out of memory")]
    Failed,
}

impl From<AllocError> for StepError {
    ghost use Rattle.std.specs.Prelude.{◌≡◌};
    ghost use Rattle.pg_server.specs.declared.error.StepError.TheVariants.{OutOfMemory};

    ghost from_gives = { λ _ e. e ≡ OutOfMemory };

    fn from(_: AllocError) -> Self {
        StepError::OutOfMemory
    }
}
