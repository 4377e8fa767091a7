//! Journals, read again.
//!
//! A journal is a list of lines, of which some begin an event and the others tell what it did
//! (docs/FORMATS.md, "The journal"). `journal` splits a text into lines, each read by
//! `pg_journal_lines`, and finds the first that is none.
//!
//! It touches texts alone: it runs nothing, and asks no server whether a line is true. Nothing is
//! repaired, so whoever prints what was read has the same text again, and no two journals have one
//! text (`one_journal`). The fault of a text is that of its first line that is none, with its
//! number.
//!
//! `specs/Journal` says when a text is a journal, and which is its first line that is none. What a
//! line says is read below, so a new line changes nothing here: this crate has the edits that the
//! prover must refuse of readers of journals, and these cost what stands in it alone.
#![tactic(auto)]

mod journal;

pub use journal::{one_journal, read_journal};
