//! Runs over servers that hold what was touched: what each event does, what replicas took, what
//! that comes to, and what is to hold of all runs.
//!
//! There are definitions here, and lemmas for the laws that read them; no code runs. A run is a
//! list of events. `specs/Run` says what one event more does (`next`), `Journal` what is then under
//! way, and the meanings are functions of the list of events alone: `Took` and `Came` (what each
//! replica took), `Histories` and `State` (what that is the state of), `Quiet`, `Graphs` (who is
//! linked to whom), `Views`, `Golds`, `Births`, `Going`, `Ticks`, `Bodies` and `Deltas`. `Laws` and
//! its neighbours state what is to hold of every run; the crates `law_*` prove it, one subject
//! each.
//!
//! The two kinds of definition meet in theorems alone: what an event does is told by what a server
//! holds (`pg_server/specs/Local`), what a run means by its history.
//!
//! The rules: docs/RULES.md, from "Events" to "What was kept". docs/THEOREMS.md has each statement
//! with its law.
//!
//! An event more: a case of `next` and of `Came`, and in each law the case that it is about. A
//! statement that one law alone reads belongs into that law's `specs/`.
#![tactic(auto)]

mod laws;

pub use laws::{quiet_is_told, takes_are_what_came};
