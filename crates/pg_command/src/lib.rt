//! Commands: what the words behind the program's name ask for, or which of them is at fault.
//!
//! `command` has the commands, `verb` the words that name them, `asked` what a server may be asked
//! for by words, and `argument` what a word of it may be; `digits` tells digits of bytes. `slots`
//! takes one word off the others, `node` the words of a node, `calling` those of a call, `help`
//! those that ask for help, and `grammar` reads them all; `program` has the commands as clap knows
//! them, and the help that it makes, and `reading` the values that clap reads of words that were
//! looked at, which are those that the look found; `laws` says that what is asked for has a packet.
//!
//! It runs nothing: `pangaea` does what a command says. Words of a call are those of a schedule, so
//! `pg_call` reads them; here is only told, and before memory is taken, which of them is the first
//! that a schedule does not have there, and that paths and targets are short enough for a packet.
//! A target that is neither a path nor an id is such a word.
//!
//! The number of a word at fault is exact: no want of memory hides it, since all words are looked
//! at before any is kept. What comes first in the words is told first, with one exception: the
//! server of a node is looked at together with the count of servers behind it.
//!
//! Definitions: `specs/Slots` (what one word has to be), `specs/Words` (commands, their words, and
//! faults), `specs/Program` (commands as clap has them). A further command: a case of `Command`
//! with its words and slots, its reader, and its help. What help says is tested, and no clause
//! speaks of it.
#![tactic(auto)]

mod argument;
mod asked;
mod calling;
mod command;
mod digits;
mod error;
mod grammar;
mod help;
mod laws;
mod node;
mod program;
mod reading;
mod slots;
mod verb;

pub use command::{Command, Help, Numbers};
pub use error::CommandError;
pub use grammar::command_of;
pub use laws::requests_have_packets;
pub use program::help_of;
pub use verb::Verb;
