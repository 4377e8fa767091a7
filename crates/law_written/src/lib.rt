//! Each packet that stands in memory is read again from its spelling, and no other is.
//!
//! `pg_packet_read` says of values which of them can be read (`IsWholeDatagram`). Here stands that
//! each value of `pg_packet_write::Datagram` is one of these: what a packet of that type keeps
//! (`FitsContent`) and what the types of its parts keep, as widths of numbers, the order of actors,
//! flags and parts, and limits of bytes, is all that a reader asks. So whoever has made a packet
//! knows that who gets its bytes reads this packet and no other: `packets_are_read` and
//! `packets_are_apart` of `laws`.
//!
//! `fields`, `messages`, `calls` and `replies` have one function for each type: it does nothing,
//! and its clause says that the value is one that can be read. What a type keeps is known from the
//! clauses of its methods, which is why they are called.
//!
//! It reads and writes nothing, and knows no lengths: that a packet has at most 40,000 bytes is the
//! premise of what is said of reading. A new kind of packet gets an arm in the function of its
//! type.
#![tactic(auto)]

mod calls;
mod fields;
mod laws;
mod messages;
mod replies;

pub use laws::{packets_are_apart, packets_are_read};
