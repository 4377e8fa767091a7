//! What servers make and send.
//!
//! `message` has the messages, with the ends of the edge that each goes along; `update` what a
//! server makes: a version, a place or a flag; `summary` what a journal tells of a message; `work`
//! what an event has done so far: what was made and sent, touched, linked and vacated. `key_word`
//! and `ranges_word` are the words of keys and of changes, `numbers` the bounds that every number
//! of a message keeps.
//!
//! It touches no store: handlers (`pg_pieces` and above) make messages, and read a `Work`.
//!
//! What is large in a message is shared, so that a message of any kind takes no more room than an
//! acknowledgement. A cell has the whole version, with vector and body, a harbinger its head; what
//! a journal tells is how it was made, its bases and its ranges: a receiver may lack the bases, and
//! a history needs no more.
//!
//! Definitions: `specs/Ends`, `Sent`, `Work`, `Numbers`, and `Text`, `UpdateText`, `VersionWords`
//! for what is printed. docs/RULES.md: "Cells, answers and ticks" and what follows it, by kind;
//! docs/FORMATS.md, section 2. A further kind of message is a case of `Message` and `MessageKind`,
//! what it tells in `summary` and its numbers in `specs/Numbers`; and a handler above. One that
//! only links its sender is a case of `Greeting`, with its word.
#![tactic(auto)]

mod key_word;
mod message;
mod numbers;
mod ranges_word;
mod summary;
mod update;
mod work;

pub use key_word::{KeyWord, one_key_spelling, read_key};
pub use message::{Ask, Delta, Ends, Granted, Message, Packet, Piece, Sent, Wanted, key_of};
pub use summary::{Detail, Greeting, MessageKind, Summary, one_summary_spelling, read_summary};
pub use update::{MadeVersion, Update, one_update_spelling, read_update};
pub use work::{Linked, Slot, Touched, Work};
