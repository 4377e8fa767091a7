//! What clients ask for, and what they are told.
//!
//! `call` has the calls and their targets, `reply` what is answered, `refusal` the reasons why a
//! call is refused, with the kinds of intentions that some of them name. `field` and `limits` read
//! the words of a call, each with its own limit, `reading` a whole call by its first word, and
//! `error` and `fault` say what is wrong with a word.
//!
//! It touches no server: what a call does stands in `pg_calls`, and journals and packets print
//! replies and refusals by the kinds that stand here once.
//!
//! The limits of one read and one write are in their types (`ReadCount`, `Payload`), so no call
//! that is too large can be made, wherever it comes from. A call's path is any word, as the client
//! wrote it: whether it is a path is a question to the server, which answers with a refusal. A
//! target is a path where it begins with a slash, and else an id. `tick` is no call: it is an
//! event, with a random word that no client gives.
//!
//! The word that names a call is looked at before words are counted, and a fault is that of the
//! leftmost bad word. Why a word is bad is told here, below schedules, since whoever reads a call
//! from the command line needs the same.
//!
//! Definitions: `specs/Call`, `Fields`, `Fault`, `Reply`, `Refusal`. docs/FORMATS.md: "The first
//! bad line"; docs/RULES.md: "Client calls". A further call is a case of `Call` and `CallKind`, its
//! words in `reading` and `specs/Call`; a further refusal a case of `Refusal` and `RefusalKind`.
#![tactic(auto)]

mod call;
mod error;
mod fault;
mod field;
mod limits;
mod reading;
mod refusal;
mod reply;

pub use call::{Call, CallKind, PolicyWord, Target};
pub use error::WordsError;
pub use fault::Fault;
pub use field::{count_of, have_bytes, id_of, parse_u32, parse_u64};
pub use limits::{MOST_BYTES, Payload, ReadCount};
pub use pg_intent::{IntentKind, read_intent_kind};
pub use reading::{arguments_of, one_call_spelling, read_call};
pub use refusal::{Refusal, RefusalKind, Unsettled};
pub use reply::{Counts, Reply, ReplyKind, Stat};
