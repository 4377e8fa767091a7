//! In one event one server is asked for a version, in all runs.
//!
//! A server that was asked for a version is the only one while its Want counts (`law_contents`,
//! `one_is_asked`): that is said of a message beside what was asked before its event. Here two
//! messages of one event are compared: the clause `one_in_each` of `run`. The statement stands in
//! `specs/Wants`.
//!
//! - A Want is sent in answer to a harbinger, a piece or a delta alone, and to who sent that: so
//!   all Wants of an event go to one server (`GoesTo`, `proofs/Answers`). All else that is sent is
//!   no Want (`Wantless` of `law_contents`).
//! - `proofs/Events` has the event at one server, and in a run.
//! - Premises: none.
//! - A further message that asks for a body: its case in `proofs/Answers` and in `received_to` of
//!   `proofs/Events`.
#![tactic(auto)]

mod laws;

pub use laws::an_event_asks_one;
