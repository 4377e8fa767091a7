//! What is written of a run: the lines of a journal, in the full form and in the short one.
//!
//! `journal_line` has the lines and prints them, `replica` what a server shows of a thing,
//! `writing` what a run writes of each line of its schedule, `fitting` that values have a spelling,
//! and `laws` what holds of all that is written.
//!
//! It touches no server: it prints what it is given (`pg_event`). The reader is `pg_journal`, a
//! crate of its own, since the program only writes.
//!
//! In full form each line but `trace` has its `event` line in front of its output, so that a reader
//! finds the line of the schedule that he is at; the short form leaves out what a tick did, and
//! keeps that it was refused. `end` is always the last line, so a journal that was cut short is
//! seen to be so. A message's detail goes by its kind, a version is told by its bases and its
//! ranges, a `keep` of all as `all`, and a place's words stand together wherever they stand: one
//! value has one spelling. The length that is shown stops at 2^64 - 1.
//!
//! That all that is written is read again comes from types, where they say enough; what they leave
//! open is one definition (`IsSuited`), which all entries of runs meet (`law_printable`).
//!
//! Definitions: `specs/JournalLine` (`IsPrinted`: what a line may be), `Text` (both forms),
//! `Spelled`, `Suited`. docs/FORMATS.md, section 2. A further line: its case and its spelling in
//! `journal_line`, where `writing` writes it, and an arm of the reader.
#![tactic(auto)]

mod fitting;
mod journal_line;
mod laws;
mod replica;
mod writing;

pub use journal_line::{AskedAt, JournalLine};
pub use laws::what_is_written_is_spelled;
pub use replica::{ShownContent, ShownReplica};
pub use writing::{write, write_entry, write_head, write_quiet, write_replica};
