//! The fields that packets are made of, as bytes: numbers, truth values, ids and stamps.
//!
//! `writer` puts a field behind the bytes that are there, `reader` takes one from the front and
//! knows its place, `error` says where a field could not be read, and `laws` that what was written
//! is read again, whatever follows it, and nothing else is read.
//!
//! It touches bytes alone, and knows no message and no packet.
//!
//! A reader's place is never behind its bytes. A fault names the byte where its field begins, or
//! the end of the bytes where they end too early.
//!
//! Definitions: reading is a function on bytes, so the first fault from the left is by definition
//! that of the first field that cannot go on: `specs/Unread` (bytes and a place), `Reading`
//! (`followed_by`, `seen_as` and `checked` join fields, with a law for each), `Spelling`, `Laws`
//! (`IsField`: a field's spelling and its reading are inverse to each other). docs/FORMATS.md,
//! "Packets". A further field: its spelling, its reading by those words, one function of `writer`
//! and one of `Reader`, and its line in `laws`.
#![tactic(auto)]

mod error;
mod laws;
mod reader;
mod writer;

pub use error::ReadError;
pub use laws::fields_read_back;
pub use reader::Reader;
pub use writer::{
    write_bytes, write_file, write_flag, write_stamp, write_u8, write_u16, write_u32, write_u64,
};
