//! Fields of the state of a server, read.
//!
//! `orders` reads what has to stand behind what was read before, `flags` places, flags and entries,
//! `edges` edges with their keys, `contents` heads with their bodies and kept deltas, `replicas`
//! what is held, `intents` intentions.
//!
//! It touches bytes alone, and knows no whole state: that is read by `pg_state_read`. The fields
//! that packets have too are read by `pg_packet_fields`, but for flags: their numbers are below
//! 2^63 here.
//!
//! A fault names the byte where its field begins. A list that is out of order is told by the field
//! that is out of order, and an intention whose key another has by the last field of its key. A
//! count that promises more than there are bytes takes no memory: memory is taken for what was read
//! alone. A body is copied once.
//!
//! Definitions: `specs/Orders` (fields that are tested, lists of any length), one file for each
//! module, and `Spelling`; fields are joined by the words of `pg_codec` and `pg_packet_fields`.
//! docs/FORMATS.md, "States". A further field: its reading in `specs`, its reader, and its line in
//! `laws` (`IsField` of `pg_codec`).
#![tactic(auto)]

mod contents;
mod edges;
mod flags;
mod intents;
mod laws;
mod orders;
mod replicas;

pub use contents::{read_deltas, read_heads, read_ordinal};
pub use edges::read_edges;
pub use flags::{read_entries, read_own};
pub use intents::{FileKey, read_intents};
pub use laws::fields_read_back;
pub use orders::{read_next_file, read_target};
pub use replicas::{Front, Held, Inside, read_all_held};
