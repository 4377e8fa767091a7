//! Why bytes are no packet.

ghost use Rattle.std.specs.Prelude.{◌≡◌};
ghost use Rattle.pg_packet_fields.specs.Faults.{widened};
ghost use Rattle.pg_packet_fields.specs.declared.error.PacketError.TheVariants.{OutOfMemory};

use pg_codec::ReadError;
use std::alloc::AllocError;
use thiserror::Error;

/// Why bytes are no packet, and the place of the first that none continues.
#[derive(Clone, Copy, Debug, PartialEq, Eq, Error)]
pub enum PacketError {
    #[error("out of memory")]
    OutOfMemory,
    /// The bytes end too early: their length.
    #[error("packet ends at {0}")]
    Short(usize),
    /// A field has no value of its table, or one out of order.
    #[error("bad field at {0}")]
    BadTag(usize),
    /// A count or a length is over its limit.
    #[error("too long at {0}")]
    TooLong(usize),
    /// The packet should have ended here.
    #[error("packet goes on at {0}")]
    Tail(usize),
}

impl From<ReadError> for PacketError {
    ghost from_gives = { λ r e. e ≡ widened r };

    fn from(error: ReadError) -> Self {
        match error {
            ReadError::Short(place) => PacketError::Short(place),
            ReadError::BadTag(place) => PacketError::BadTag(place),
        }
    }
}

impl From<AllocError> for PacketError {
    ghost from_gives = { λ _ e. e ≡ OutOfMemory };

    fn from(_: AllocError) -> Self {
        PacketError::OutOfMemory
    }
}
