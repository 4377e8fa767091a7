//! Schedules: what is to happen in a run, and what its journal is to say, as text.
//!
//! `line` has the lines and prints them, `verb` finds which line a first word begins, `leaves`
//! reads the words that lines alone have, `reading` reads a whole line, `schedule` a whole text,
//! and `error` says which line is the first outside the grammar and why. The words of calls, and
//! why a word is bad, stand in `pg_call`.
//!
//! It touches texts alone: which servers there are, and whether a path is one, is for runs. So
//! `call 0 ..` and servers above n are lines, which are void when they are run. `show`, `quiet`,
//! `trace` and `settle` are lines and no events; a meter is a line before it does anything.
//!
//! A bad line has one cause: the first in a fixed order of those that hold of it, so that the
//! answer is a function of the text. Bytes and length are looked at before the line's end; a line
//! has at most 70,000 bytes, and a longer one is not cut into words. A last line without a line
//! feed is bad, whatever it holds: else a text that was cut short could be read as a shorter one.
//! An input of no byte lacks its header (`Header`), and a header without a line feed is `End`.
//! Eight words of a line are looked at at most, on the stack, so lines take no memory for them.
//!
//! Definitions: `specs/Line` and `Fields` (the table of lines), `Cause`, `Schedule`.
//! docs/FORMATS.md, section 1. A further line: its case and its spelling in `line`, its verb, a row
//! of `specs/Fields`, and the reader of its words.
#![tactic(auto)]

mod error;
mod leaves;
mod line;
mod reading;
mod schedule;
mod verb;

pub use error::ReadError;
pub use line::{Form, Line};
pub use reading::read_line;
pub use schedule::{Schedule, one_spelling, read, write};
