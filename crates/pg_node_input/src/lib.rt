//! Inputs of a server as entries of a node's log, and back.
//!
//! `noted` is the entry of an input, and `input` the input of an entry. `read_input` and
//! `read_start` read the bytes of an entry behind the gate before it: an input, or the server with
//! which a log begins. Where the bytes are no such entry the log is bad, at the first byte from
//! which on they are none, or at the entry's first where it is one of the other kind.
//!
//! It touches neither disk nor server: `pg_node_entry` spells and reads entries, `pg_host` appends
//! them and lets a server take what they note.
//!
//! What holds: the input that is read is the one whose entry these bytes are, it has a spelling,
//! and what comes of it is short enough for a packet.
//!
//! Definitions: `specs/Noted`. docs/RULES.md, "A server that runs"; docs/FORMATS.md has the bytes
//! of entries. A further kind of input is a case of `noted` and of `input`.
#![tactic(auto)]

mod noting;

pub use noting::{HEAD, input, noted, read_input, read_start};

// What the crates above name through this one.
pub use law_lengths::{call_fits, reply_fits, sends_packets, server, spelled};
