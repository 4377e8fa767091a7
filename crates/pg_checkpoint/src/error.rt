//! Why a state was not saved or loaded.

ghost use Rattle.std.specs.Prelude.{◌≡◌};
ghost use Rattle.pg_checkpoint.specs.declared.error.SnapError.TheVariants.{OutOfMemory, DiskFault};

use pg_io::Failed;
use std::alloc::AllocError;
use thiserror::Error;

#[derive(Clone, Copy, Debug, PartialEq, Eq, Error)]
pub enum SnapError {
    #[error("out of memory")]
    OutOfMemory,
    #[error("a call on the disk failed")]
    DiskFault,
    /// A slot has the greatest number that there is.
    #[error("no number is left for a slot")]
    Full,
}

impl From<AllocError> for SnapError {
    ghost from_gives = { λ _ e. e ≡ OutOfMemory };

    fn from(_: AllocError) -> Self {
        SnapError::OutOfMemory
    }
}

impl From<Failed> for SnapError {
    ghost from_gives = { λ _ e. e ≡ DiskFault };

    fn from(_: Failed) -> Self {
        SnapError::DiskFault
    }
}
