//! Entries of a node's log, as bytes and back.
//!
//! A node notes each of its inputs before it sends what comes of it: a call with the moment of its
//! clock, a tick with the moment and a random word, a message that arrived, a new start; and first
//! of all which server it is and of how many. `entry` has the entries, `error` why bytes are none,
//! `writing` writes one and `reading` reads one (docs/FORMATS.md, "Entries of a node's log").
//!
//! It touches bytes alone: `pg_log` keeps them, and whoever opens a log says whose it is and which
//! entry comes first. The numbers of a first entry may be any. A call is spelled as in a client's
//! packet and may be longer than any packet's; a message's packet has at most 40,000 bytes and is
//! spelled as it came.
//!
//! Each entry has one spelling, and bytes are an entry exactly where they are one's spelling
//! (`entries_read_back`). What a packet asked that was read fits into a log (`entries_are_short`).
//! A fault names the place in the entry, which is never behind its end (`faults_are_within`); those
//! in a call and in a packet are those of `pg_packet_read`.
//!
//! Definitions: `specs/Entries` (how each is spelled, what has a spelling, what can be read) and
//! `specs/Reading`. A further kind: its number and fields in both, an arm in `writing` and one in
//! `reading`, and a line in each table of `proofs/Plain`.
#![tactic(auto)]

mod entry;
mod error;
mod laws;
mod reading;
mod writing;

pub use entry::NodeEntry;
pub use error::EntryError;
pub use laws::{entries_are_short, entries_read_back, faults_are_within};
pub use reading::read_entry;
pub use writing::write_entry;
