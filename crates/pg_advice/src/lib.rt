//! What a user does about a command that did not end well.
//!
//! `advice` is a sentence for each end of each command, which the program writes to standard error
//! behind the end's own words; `name` and `port` are the files and the port that an end is about.
//!
//! It reads the words as they were given and changes nothing; whether a word is at fault, and
//! which, `pg_command` says. No clause speaks of the sentences: docs/OPERATING.md has each end with
//! its sentence, and runs of the program show them.
//!
//! A further command has its arms in `of_word` and `advice`; a further end one in `of_node_end`,
//! `of_call_end` or `of_text_end`.
#![tactic(auto)]

mod ends;

pub use ends::{advice, name, port};
