//! Tests of what runs over a net and a disk, with its words and its entries.
//!
//! They need a net or a disk that fails at a given call, or bytes that are cut anywhere, which no
//! line of a program of rows can say. They stand in a crate of their own, since a crate with tests
//! inside is proved twice.
//!
//! - `words`: which word of a command is at fault, and what help is written;
//! - `checkpoints`: a node goes on from a checkpoint as from its whole log, takes it as it is,
//!   and finds in it what was announced;
//! - `client`: one call over a net in memory: what comes back in each order, and each call on the
//!   net that fails;
//! - `entries`: each kind of entry of a log read and written again and cut at each byte;
//! - `host`: a server that serves and goes on with its log, each call on the net and on the disk
//!   that fails, and what is there behind it;
//! - `nodes`: a node over a net and a disk in memory, as `checkpoints` and `host` use it.
//!
//! What each call promises its contract says, for every net and every disk; here each is seen once,
//! with values that a reader can check. The rules: docs/RULES.md, "The command", "A server that
//! runs" and "A client's call".
#![tactic(auto)]

#[cfg(test)]
mod checkpoints;
#[cfg(test)]
mod client;
#[cfg(test)]
mod entries;
#[cfg(test)]
mod host;
#[cfg(test)]
mod nodes;
#[cfg(test)]
mod words;
