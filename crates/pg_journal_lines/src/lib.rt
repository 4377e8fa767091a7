//! Lines of journals, and the replies and refusals that stand in them, read again: the mirror of
//! `pg_trace`.
//!
//! A line of a journal begins an event or tells what it did (docs/FORMATS.md, "The journal").
//! `reading` reads one, by the verb that `verb` finds in front of it; `told` reads what is answered
//! to a call or a tick, and `replica` what is shown of a replica. `reply` and `refusal` read what a
//! client is told, from the words of a line or of a server's answer, and `only` words of which
//! there is one alone. Whole journals stand above (`pg_journal`).
//!
//! It touches texts alone: it runs nothing, and asks no server whether a line is true. Nothing is
//! repaired: a line is read exactly where it is the one spelling of what it tells, so whoever
//! prints what was read has the same text again (`one_reply_spelling`, `one_refusal_spelling`).
//!
//! The spellings are those of `pg_trace` and `pg_call`; `specs/Reading` says what stands behind
//! each verb, and `specs/Told` and `specs/Reason` which words stand behind the first of a reply and
//! of a refusal.
//!
//! A new reply: its kind in `pg_call`, one line of each table in `specs/Told`, one arm of
//! `reply_of`; a new refusal: the same in `specs/Reason` and `refusal_of`. A new line of a journal:
//! its spelling in `pg_trace`, its verb in `verb`, and one arm in `reading`.
#![tactic(auto)]

mod only;
mod reading;
mod refusal;
mod replica;
mod reply;
mod told;
mod verb;

pub use only::only_id;
pub use reading::read_printed;
pub use refusal::{one_intent_spelling, one_refusal_spelling, read_refusal};
pub use reply::{one_reply_spelling, read_reply};
