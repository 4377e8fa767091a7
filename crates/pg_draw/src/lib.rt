//! What `pangaea_draw` does: it reads a journal, and writes its picture or says why there is none.
//!
//! `command` reads, draws and writes, and `ending` says how the program ends, by a number and by a
//! text. The program draws and does nothing else, so the words of `pangaea` stay as they are.
//!
//! The streams are taken as traits of `pg_io`, so that a stream that fails can be handed in. The
//! program itself only takes its words and its streams from the system. Nothing is written, and no
//! line is found bad, before the whole input was read; text is written in one go.
//!
//! Definitions: `specs/Written` (what is written of an input, and when it ends how), `Ending`. What
//! a picture is stands below (`pg_picture`, `pg_svg`). Its clauses go as those of `pangaea` do, and
//! are not written once for both: a program over any text of its input would have clauses over a
//! trait's definitions, and be longer than the two. docs/FORMATS.md, section 11. A further way to
//! end: its case in `Ending`, its number and text in `specs/Ending`, and when in `command`.
#![tactic(auto)]

mod command;
mod ending;

pub use command::{LIMIT, picture, run};
pub use ending::Ending;
