//! Whole packets, read: messages, calls and replies, each by the number of its kind, and the laws
//! that what was written is read again.
//!
//! A packet is `PG`, the number of the format, the number of its kind, its sender, the sender's
//! view, and what it says (docs/FORMATS.md, "Packets"). `reading` has its frame, `kinds` the kinds
//! of packets by number, and `numbered` reads any kind by its number. `messages` reads what a
//! message says, with the fields that only messages have in `message_fields`; `calls` what a client
//! asks, with its paths in `texts`; `replies` and `refusals` what it is told. Fields that several
//! of them have are read by `pg_packet_fields`; what is written is written by `pg_packet_write`.
//!
//! It touches bytes alone: it knows no server, no file and no socket. Nothing is repaired or
//! guessed: bytes are a packet exactly where they are its one spelling, of at most 40,000 bytes,
//! and each fault names the byte where the first field that is not read begins, or where the packet
//! should have ended.
//!
//! Each reader is the definition of its field, read aloud: `specs/Whole` for the frame,
//! `specs/Messages` and `specs/MessageFields`, `specs/Calls` and `specs/Targets`, `specs/Replies`,
//! `specs/Refusals`, `specs/Numbered`. `IsField` (`pg_codec`) ties them to what is written:
//! `messages_read_back`, `calls_read_back`, `packets_read_back`.
//!
//! A new kind: its bytes in `pg_packet_write`, its number at the end of the list of its kinds here,
//! its fields in `specs`, one arm of the reader, and in `proofs/EachMessage`, `AskedKinds`,
//! `ToldKinds` or `ReasonKinds` one line of each table.
#![tactic(auto)]

mod calls;
mod kinds;
mod laws;
mod message_fields;
mod messages;
mod numbered;
mod reading;
mod refusals;
mod replies;
mod texts;

pub use calls::read_request;
pub use laws::{calls_read_back, messages_read_back, packets_read_back};
pub use messages::read_message;
pub use numbered::read_item;
pub use reading::read_packet;
pub use replies::read_reply;
