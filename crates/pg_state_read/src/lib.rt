//! The state of a server, read from its bytes.
//!
//! `whole` has the call: `read` gives the store that the bytes are the state of, or the place of
//! the first field that no state continues. `parts` reads a state part by part, and `later` wishes
//! and announced versions; what is held and what is intended is read by `pg_state_fields`. `time`
//! tells whether the greatest time is below none, and `laws` that what was written is read again.
//!
//! It touches bytes alone, and gives what a server holds as it was: no tag is drawn and nobody is
//! asked.
//!
//! A fault names the byte where its field begins. The greatest time is looked at when all else was
//! read: it is the fault where a place or version has a later one. The store is made when all was
//! read and nothing was wrong, and no body is copied for it.
//!
//! Definitions: `specs/Later`, `Whole` (the parts, and the store that is made of them), `Spelling`,
//! `Built` (that store in plain words, and which stores can be read). docs/FORMATS.md, "States". A
//! further part: its reading in `specs/Whole`, its reader, and its line in `proofs/PartFields`.
#![tactic(auto)]

mod error;
mod later;
mod laws;
mod parts;
mod time;
mod whole;

pub use error::StateError;
pub use later::{read_notes, read_wishes};
pub use laws::{parts_make_stores, parts_read_back, states_read_back};
pub use parts::{Counters, Parts, Servers, Waiting};
pub use whole::read;
