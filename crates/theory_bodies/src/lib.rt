//! Bodies that are sent to who asks for them, whatever servers hold and send: what is told of
//! bodies is true, and what is put together of it is the version that was made.
//!
//! Any servers and messages are meant of which a `Protocol` says what a server notes of versions
//! that it lacks, what it holds of files, and what a message tells (`Telling`): a harbinger, a
//! whole version, bytes, or a change. A `Book` has the histories of all files at one moment.
//!
//! What it needs of an event is one record, `Local`: where each note and each content behind it
//! come from, and why each message may be sent. It gives `Keeps`, of all messages that were ever
//! sent: so loss, repeats, late messages and changes of births need no argument. Two things make it
//! work: a stamp has one version in a file, so two heads that are told under it are one; and
//! histories only grow, so what was told stays true.
//!
//! Whom a server asked last (`Asking`) is told by the messages that it sent. By `AskStep`, one case
//! for each kind of event, this goes on to agree with what is noted.
//!
//! Definitions: `specs/Book`, `Telling`, `Protocol`, `Rule`, `Asked`; the laws are stated in
//! `specs/Laws`. A further way for bodies to come is a case of `Telling`, of `IsTrue`, of
//! `MaySend`, and of `NoteComes` or `HoldingComes`.
#![tactic(auto)]

mod laws;

pub use laws::{
    Bodies, a_delta_makes_the_version, events_keep, notes_agree_with_what_was_asked,
    sent_deltas_lead, the_tag_is_a_harbingers, what_comes_is_the_version,
};
