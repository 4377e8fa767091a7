//! Why bytes are no state.

ghost use Rattle.std.specs.Prelude.{◌≡◌};
ghost use Rattle.pg_state_read.specs.Whole.{of_state};
ghost use Rattle.pg_state_read.specs.declared.error.StateError.TheVariants.{OutOfMemory};

use pg_packet_fields::PacketError;
use std::alloc::AllocError;
use thiserror::Error;

/// Why bytes are no state, and the place of the first that none continues.
#[derive(Clone, Copy, Debug, PartialEq, Eq, Error)]
pub enum StateError {
    #[error("out of memory")]
    OutOfMemory,
    /// The bytes end too early: their length.
    #[error("state ends at {0}")]
    Short(usize),
    /// A field has no value that it can have there, or one out of order. It is the greatest time of
    /// a stamp where a place or version has a later one, and nothing else is wrong.
    #[error("bad field at {0}")]
    BadTag(usize),
    /// A count or a length is over its limit.
    #[error("too long at {0}")]
    TooLong(usize),
    /// The state should have ended here.
    #[error("state goes on at {0}")]
    Tail(usize),
}

impl From<PacketError> for StateError {
    ghost from_gives = { λ p e. e ≡ of_state p };

    fn from(error: PacketError) -> Self {
        match error {
            PacketError::OutOfMemory => StateError::OutOfMemory,
            PacketError::Short(place) => StateError::Short(place),
            PacketError::BadTag(place) => StateError::BadTag(place),
            PacketError::TooLong(place) => StateError::TooLong(place),
            PacketError::Tail(place) => StateError::Tail(place),
        }
    }
}

impl From<AllocError> for StateError {
    ghost from_gives = { λ _ e. e ≡ OutOfMemory };

    fn from(_: AllocError) -> Self {
        StateError::OutOfMemory
    }
}
