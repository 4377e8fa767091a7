//! Why a field could not be read.

use thiserror::Error;

/// Why no field stands at a place.
#[derive(Clone, Copy, Debug, PartialEq, Eq, Error)]
pub enum ReadError {
    /// The bytes end before the field does. This is their length.
    #[error("bytes end at {0}")]
    Short(usize),
    /// The byte at this place is none of those that a field can have there.
    #[error("bad byte at {0}")]
    BadTag(usize),
}
