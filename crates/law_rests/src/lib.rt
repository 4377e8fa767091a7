//! A removed server takes nothing more, in all runs, and stays as it was at its removal.
//!
//! Who is removed gets no input: no call, no tick, no restart, and no message. So what it holds,
//! what its replicas took, and whom it asked are what they were, whatever events follow; and no
//! entry tells of an effect of it: it makes nothing, sends nothing, and answers nothing. The same
//! is so of a number of which there is no server. The statements stand in `specs/Rests`: the
//! clauses `rests` and `none_to_removed` of `run`.
//!
//! - What a removed server had, as where it gave leave for a drop, may be read at any later moment
//!   of the run: it is as at the removal.
//! - `proofs/Resting` is the frame of an event (`framed` of `pg_run`), read at a server that takes
//!   no input, and one event after another. `proofs/Under` is of the messages under way, over what
//!   each event does to them.
//! - Premises: what a server sends is from it (`MessagesAreSentInView`; `law_views` gives it). The
//!   rest stands on the definitions of runs alone, so no server has to be whole.
//! - A new kind of message or call costs nothing here; a new kind of event its line in
//!   `specs/Rests` and in `proofs`.
#![tactic(auto)]

mod laws;

pub use laws::removed_servers_rest;
