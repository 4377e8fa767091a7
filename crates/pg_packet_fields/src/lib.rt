//! Fields of packets, read.
//!
//! `fields` and `lists` read what is of any kind, `places` names, places, flags and entries,
//! `heads` vectors, heads and versions, `patches` ranges and bytes, `cells` cells; `error` says why
//! bytes are no packet, and `laws` that what `pg_packet_write` wrote is read again.
//!
//! It touches bytes alone, and knows no kind of packet: these are read by `pg_packet_read`.
//!
//! A fault names the byte where its field begins. A list that is out of order is told by the field
//! that is out of order, and not by an earlier one behind which it could not be ended any more. A
//! head with number 0 is not read, with a version or alone: a version's number is its vector's at
//! its actor, and numbers count from 1. It is `BadTag` at the number. A name is tested when its
//! bytes are there: where they end too early it is `Short`, whatever the bytes before.
//!
//! Definitions: `specs/Reading` and `Lists` (fields one after another, with the first fault),
//! `Faults`, `Values`, and one file for each module. Whether bytes are a name is a test there
//! (`Names`), since reading is a function: for a tilde and an id it asks all ids, and nothing runs
//! it. docs/FORMATS.md, "Packets". A further field: its reading in `specs`, its reader, and its
//! line in `laws` (`IsField` of `pg_codec`).
#![tactic(auto)]

mod cells;
mod error;
mod fields;
mod heads;
mod laws;
mod lists;
mod patches;
mod places;

pub use cells::read_cell;
pub use error::PacketError;
pub use fields::{read_ask, read_dir, read_ends, read_key, read_policy, read_server, read_text};
pub use heads::{read_head, read_vector, read_version};
pub use laws::fields_read_back;
pub use lists::read_stamps;
pub use patches::{read_block, read_ranges};
pub use places::{read_entry, read_gold, read_golds, read_name, read_place};
