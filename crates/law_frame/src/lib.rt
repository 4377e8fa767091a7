//! One walk over what a server does with a message or a call, for all laws of runs.
//!
//! What holds behind each piece of a handler holds behind the handler. A law says once what each
//! piece keeps (a place is taken, a peer is linked, a message is answered); the walk over the
//! messages and calls that there are, with its case for each kind, stands here.
//!
//! There are lemmas here, and no code runs. The law of this crate is the walks tried on what no
//! piece changes: whom the server answers (`specs/Askers`).
//!
//! - `Keeps` (`proofs/Keeps`): the pieces of a message, each with what is known of it there: which
//!   message it came with, and what the server found. `receive_keeps` (`proofs/Received`) is the
//!   walk, of lemmas `<handler>_keeps`.
//! - `KeepsCalls` (`proofs/KeepsCalls`) and `call_keeps` (`proofs/Called`) are the same of calls,
//!   `KeepsEnds` and `intents_keep` (`proofs/Ended`) of the intentions behind an event.
//! - What a law keeps may be any property of a moment of an event (`Done`), also one that names the
//!   event's first moment.
//! - A law that looks at the order of pieces, as that an answer goes behind what it answers, has a
//!   walk of its own.
//! - What a piece is about stands in its premises; where these are several facts they are a record
//!   (`IsNewWish`, `IsStruck`, `IsBegun`), so that one fact more changes no law that looks at none.
//! - A new kind of message: its lemma here by the pieces that there are, and no line in the laws. A
//!   new piece: a field more, and in each law the lemma that keeps it.
#![tactic(auto)]

mod laws;

pub use laws::askers_are_kept;
