//! What a server intends until others have answered: its intentions, in the order in which they
//! began, and which server is asked next.
//!
//! `intent` has them (`Intent`), `kind` their kinds and the words of these (`IntentKind`), `key` what
//! tells two of them apart (`IntentKey`), `intents` the list of those that stand, and `target` the
//! server that is asked next. The list is a map in the order of insertion (`indexmap`), so one is
//! found by its key without going over the others, and the order in which they began stays.
//!
//! It knows nothing of what an intention is for: when one begins and ends, and with which message
//! it asks, stands in `pg_intentions`.
//!
//! What holds (the invariant of `Intents`): each intention stands at its own key, and no key twice.
//! The laws (`laws`): one that begins is found, one that ended is not, aiming changes targets
//! alone, and the keys are ordered.
//!
//! The definitions: `specs/Intent`, `Kind`, `Key`, `Intents`, `Target`. The rules: docs/RULES.md,
//! "Intentions and wishes".
//!
//! A kind more: a variant of `Intent`, `IntentKind` and `IntentKey`, its word, its place in the order of keys, and a
//! case in `pg_intentions`.
#![tactic(auto)]

mod intent;
mod intents;
mod key;
mod kind;
mod laws;
mod target;

pub use intent::Intent;
pub use intents::Intents;
pub use key::IntentKey;
pub use kind::{IntentKind, read_intent_kind};
pub use laws::{
    aims_change_targets_only, begun_intents_are_found, ended_intents_are_gone, keys_are_ordered,
    keys_stay_single, turned_intents_are_found,
};
pub use target::next_target;
