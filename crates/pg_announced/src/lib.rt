//! Versions that a server heard of and does not cover: who is asked for each, and how much of its
//! body is here.
//!
//! `Announcements` is the map of a server, by file and then by stamp; `Announced` is the note of
//! one version: its head, its source, the tag under which the source announced it, and the first
//! bytes of its body. A source of 0 is nobody: a note outlives its source, since its bytes serve
//! the next one.
//!
//! Callers see the entries in their order (`NotesValue`), and that order is the invariant
//! (`AreSorted`). So what is found behind a change was found before it, or is what the change put
//! there (`proofs/Found`); the definitions keep the order too (`proofs/Sorted`).
//!
//! Nothing here knows what a server holds. That no version is noted that is covered, and none of a
//! file that is not held, is the work of who changes contents and replicas: they call `end_covered`
//! and `end_file`. Memory is asked for by `put` and `lengthen` alone.
//!
//! Definitions: `specs/Announced`. One more change of a note: a function of `Announced` with its
//! definition beside `aimed`, and one of `Announcements` in the form of `aim`; `changed_by` and
//! `sorted_set` close it.
#![tactic(auto)]

mod announced;

pub use announced::{Announced, Announcements, NoteKey};
