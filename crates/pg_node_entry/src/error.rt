//! Why bytes are no entry.

ghost use Rattle.std.specs.Prelude.{◌≡◌};
ghost use Rattle.pg_node_entry.specs.Reading.{fault_behind};

use pg_packet_fields::PacketError;
use thiserror::Error;

/// Why bytes are no entry, or could not be read.
#[derive(Clone, Copy, Debug, PartialEq, Eq, Error)]
pub enum EntryError {
    #[error("out of memory")]
    OutOfMemory,
    /// The place in the entry, counted from 0, of the first field that no entry has there; the
    /// length of the bytes where they end too early.
    #[error("bad entry at {0}")]
    Bad(usize),
}

impl From<PacketError> for EntryError {
    ghost from_gives = { λ p e. e ≡ fault_behind 0 p };

    fn from(error: PacketError) -> Self {
        match error {
            PacketError::OutOfMemory => EntryError::OutOfMemory,
            PacketError::Short(place) => EntryError::Bad(place),
            PacketError::BadTag(place) => EntryError::Bad(place),
            PacketError::TooLong(place) => EntryError::Bad(place),
            PacketError::Tail(place) => EntryError::Bad(place),
        }
    }
}
