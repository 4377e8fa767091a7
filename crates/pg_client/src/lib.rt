//! A client: one call of a server over a net, and the text of what it answers.
//!
//! `asking` has `ask`, which sends the call; `hearing` makes takes until a reply to it comes;
//! `telling` writes the text of the reply, which is that of journals, and says how the call ended.
//!
//! It touches the net and the sink that it is given, and knows no file, no store and no clock. A
//! client is no server: its packet comes from server 0 in view 0, under number 1, and goes out from
//! a free port. Of a reply the number alone is looked at, not who sent it. What is no packet, and
//! any packet but a Reply of that number, counts as a take and is passed over.
//!
//! What takes gave is told of any net, by the buffer that it filled, so the status is what they say
//! even over a net that does not tell; there the net's own number of takes bounds them. A packet
//! that is too large for the memory ends the call: it might have been the reply. What a server has
//! done may be done though no reply came.
//!
//! Definitions: `specs/Replies` (what is made of what takes gave), `Asks` (what a call does).
//! docs/RULES.md: "A client's call". A further status of a call is a case of `Status` (`pg_event`),
//! its cause a field of `Asks`.
#![tactic(auto)]

mod asking;
mod hearing;
mod telling;

pub use asking::ask;
