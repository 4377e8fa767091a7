//! What is drawn of a journal: a mark for each event, the ways of messages, and notes, each at its
//! height.
//!
//! `part` and `course` say how a full journal goes on, `messages` what is under way, `mark` and
//! `note` what a picture is made of, `sketch` draws a line, `picture` a whole journal, and `lack`
//! says why a journal has none.
//!
//! It touches journals alone, from whichever run, and no pixel: what it draws is written by
//! `pg_svg`. A picture is made line by line, of a line, the one behind it, and what is under way.
//! Heights are counted in lines of text, and each note has one of its own, so no two texts of the
//! right side overlap and no layout is computed. What does not reach its receiver ends half a
//! column in front of it; what is under way to a server that is removed is drawn as lost, below
//! the removal, and so is what is sent to it later.
//!
//! A journal is tested line by line: `may_follow` is a table of pairs, and what it lets through
//! beyond the journals of runs is drawn as it stands. The numbers of the schedule's lines go up by
//! one, so that a part in short form always shows; one at the end shows only in what is under way.
//! There are at most 64 servers and 2,000 events.
//!
//! Definitions: `specs/Part`, `Course`, `Messages`, `Note`, `Sketch`, `Picture`, `Lack`. `Counts`
//! says what a journal tells, with no heights and no ways: so the law that a picture is whole says
//! more than its definition. docs/FORMATS.md, section 11. A further line of journals: its part, who
//! may follow it, and what it draws.
#![tactic(auto)]

mod course;
mod lack;
mod mark;
mod messages;
mod note;
mod part;
mod picture;
mod sketch;

pub use course::{Course, MOST_EVENTS};
pub use lack::{Lack, NoPicture};
pub use mark::{Leg, LegEnd, Mark, MarkKind, Note};
pub use messages::{Message, Messages};
pub use part::Part;
pub use picture::{draw, pictures_are_whole};
pub use sketch::Sketch;
