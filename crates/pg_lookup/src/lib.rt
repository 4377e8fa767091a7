//! How paths are walked at one server, by what it knows of names.
//!
//! `paths` looks up one component after another, from the root on: `walk` finds the thing that a
//! path leads to, or the first reason why it leads nowhere; `reach` and `reach_parent` are such
//! walks to what a call is about, which has to be held and full. `chain` goes the other way:
//! whether a directory stands on the chain of held parents of another.
//!
//! It reads `Names`, and changes nothing. It makes no replica and asks nobody: who walks notes what
//! is not here yet (`pg_checks`).
//!
//! What holds here: a walk is refused with the first component at fault, and with that one's first
//! reason: the directory not held and full, no such name, no directory where one is needed.
//!
//! The definitions: `specs/Walk` (`walk`, `reach`) and `Chain`. The rules: docs/RULES.md, "Walks".
//!
//! A way to name things more: a definition in `specs/Walk` and its function beside `walk`, with the
//! reasons in the order of the refusals' numbers.
#![tactic(auto)]

mod chain;
mod paths;

pub use chain::is_above;
pub use paths::{
    Found, LookupError, ROOT, Way, is_dir_full, reach, reach_parent, reached, shown_by, walk,
};
