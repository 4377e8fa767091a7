//! Packets: messages, calls and replies as bytes.
//!
//! `datagram` has the packets and writes a whole one: `PG`, the number of the format, the number of
//! its kind, its sender, the sender's view, and what it says. `messages`, `calls` and `replies`
//! write what it says, by its kind, and `fields` what several of them have.
//!
//! It touches bytes alone, and sends nothing. A packet is a type of its own (`Datagram`), since
//! calls, ticks and replies are packets and no messages; a tick is asked for like a call. Sender
//! and view may be any numbers: whoever takes a packet looks.
//!
//! Each value of `Datagram` has a spelling (`FitsContent`): whoever makes one sees to it, so
//! `write_packet` asks nothing. That the whole is short is not among it: that no message has over
//! 40,000 bytes is for whoever makes it. The text of a call's target is an id where it spells one,
//! and else a path, so a path that spells an id has no spelling; `fits_request` tells.
//!
//! Definitions: `specs/Datagrams`, `Messages`, `Calls`, `Fields` (how each is spelled), `Fits`
//! (what has a spelling; numbers have their widths by their types). docs/FORMATS.md, "Packets". A
//! further kind: its spelling in `specs`, its arm here, and its reader in `pg_packet_read`.
#![tactic(auto)]

mod calls;
mod datagram;
mod fields;
mod messages;
mod replies;

pub use datagram::{Content, Datagram, Request, fits_request, write_packet};
pub use fields::{
    write_block, write_entry, write_golds, write_head, write_key, write_place, write_policy,
    write_ranges, write_stamps, write_version,
};
