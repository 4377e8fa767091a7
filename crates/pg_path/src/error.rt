//! Why a text is no name or no path.

ghost use Rattle.std.specs.Prelude.{◌≡◌};
ghost use Rattle.pg_path.specs.declared.error.BadName.TheVariants as name;
ghost use Rattle.pg_path.specs.declared.error.BadPath.TheVariants as path;

use std::alloc::AllocError;
use thiserror::Error;

/// Why a text is no client name.
#[derive(Clone, Copy, Debug, PartialEq, Eq, Error)]
pub enum BadName {
    #[error("out of memory")]
    OutOfMemory,
    #[error("a name has at least one byte")]
    Empty,
    #[error("a name has at most 255 bytes")]
    TooLong,
    /// The index of the first bad byte.
    #[error("no name has the byte at {0}")]
    BadByte(u64),
}

/// Why a text is no path.
#[derive(Clone, Copy, Debug, PartialEq, Eq, Error)]
pub enum BadPath {
    #[error("out of memory")]
    OutOfMemory,
    #[error("a path begins with a slash")]
    NoSlash,
    #[error("a path has at most 4096 bytes")]
    Long,
    #[error("a path has at most 64 components")]
    TooDeep,
    /// The first bad component, counted from 1.
    #[error("component {0} is outside the grammar")]
    BadName(u64),
}

impl From<AllocError> for BadName {
    ghost from_gives = { λ _ e. e ≡ name.OutOfMemory };

    fn from(_: AllocError) -> Self {
        BadName::OutOfMemory
    }
}

impl From<AllocError> for BadPath {
    ghost from_gives = { λ _ e. e ≡ path.OutOfMemory };

    fn from(_: AllocError) -> Self {
        BadPath::OutOfMemory
    }
}
