//! Bodies go to who asked for them, in all runs, and who hears of a version first asks for it.
//!
//! A version is announced to all, and its body goes to who asks: a message that holds more than
//! 1,024 bytes of a body answers a `Want`, in the same event, and goes to who sent it: the clause
//! `bodies` of `run`. Who hears of a version first asks its sender for the body, and tells the
//! peers of all other edges: the clause `first_harbingers`. The statements stand in
//! `pg_run/specs/Bodies`.
//!
//! - `IsShort` (`proofs/Short`) of a message: it holds bytes of no body, or a version of at most
//!   1,024 bytes. So are the messages of keys, of intentions, of calls and ticks, and all answers
//!   but those to a Want (`proofs/Sent`).
//! - Behind a first harbinger names are as they were, so no house rule applies, and of intentions
//!   only a Seek of the file may begin (`proofs/Begun`), since the edges of that replica alone may
//!   have changed (`proofs/Linked`). What is sent of keys is of the edge that was made
//!   (`proofs/Keys`). `proofs/First` has the event at one server, `proofs/Harbingers` in a run.
//! - Premises: servers are whole, and what messages tell of versions is so (`specs/Premises`);
//!   `law_order` and `law_contents` give them. And `TidinessIsGiven` of `law_ticks`.
//! - A new kind of message: one line in `proofs/Short` where it may hold bytes of a body, and none
//!   where it may not.
#![tactic(auto)]

mod laws;

pub use laws::{bodies_answer_wants, first_harbingers_ask};
