//! Why a log did not open, or took no entry.

ghost use Rattle.std.specs.Prelude.{◌≡◌};
ghost use Rattle.pg_log.specs.declared.error.LogError.TheVariants.{OutOfMemory, DiskFault};

use pg_io::Failed;
use std::alloc::AllocError;
use thiserror::Error;

#[derive(Clone, Copy, Debug, PartialEq, Eq, Error)]
pub enum LogError {
    #[error("out of memory")]
    OutOfMemory,
    #[error("a call on the disk failed")]
    DiskFault,
    /// The file is no log: no log continues with the byte at this place.
    #[error("bad log at {0}")]
    BadLog(u64),
    /// An earlier append failed on the disk.
    #[error("the log is closed")]
    Closed,
}

impl From<AllocError> for LogError {
    ghost from_gives = { λ _ e. e ≡ OutOfMemory };

    fn from(_: AllocError) -> Self {
        LogError::OutOfMemory
    }
}

impl From<Failed> for LogError {
    ghost from_gives = { λ _ e. e ≡ DiskFault };

    fn from(_: Failed) -> Self {
        LogError::DiskFault
    }
}
