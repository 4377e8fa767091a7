//! One server: what it holds, what it does with what comes to it, and what it owes.
//!
//! `server` has `Server` with its one call, `step`: an `Input` (a client's call, a tick, a message,
//! a restart) goes in, and an `Out` (the reply, the updates that were made, the messages that are
//! sent) comes out. `receiving` is what each input does, in three parts: the handler of its kind,
//! the house rules and intentions, and what is sent at the end of the event. `owing` finds the
//! first thing that a server owes. Replayed runs and nodes that serve make this same step.
//!
//! It touches the `Store` and nothing outside: no clock, no net, no file. The moment and the random
//! word of an input come with it.
//!
//! What holds (the invariant of `Server`): where a step ran out of memory the server has failed,
//! and each later step answers so; else what it holds is what the definition `effect_of` says of
//! what it held and of what came.
//!
//! The definitions: `specs/Local` (`effect_of` and its parts) and `Owing`. The rules:
//! docs/RULES.md, "What a server does", "Quiet".
//!
//! A kind of message more: a case of `receive` here and in `specs/Local`, over a handler in a crate
//! below.
#![tactic(auto)]

mod error;
mod input;
mod owing;
mod receiving;
mod server;

pub use error::StepError;
pub use input::{Input, Out};
pub use server::Server;
