//! The program's commands: what each does with its words, its streams, a net, a disk and a clock.
//!
//! `command` has `heed`, which reads the words and does what they ask for, or says which is at
//! fault; `replay`, `make`, `soak`, `node`, `call` and `help` are the commands, one module each.
//! What words ask for, and which is at fault, `pg_command` says.
//!
//! It touches what is handed in and no system: a source, a sink, a net, a disk, a clock and meters,
//! whatever they are. What holds of every run stands above, with the laws: here it is what is
//! written, and what a command leaves of the outside.
//!
//! A command ends with a status. Nothing is written before all of it is there, and a command
//! changes none of what it does not use.
//!
//! Definitions: `specs/Written` (what each command writes), `Outside` (what it does on a net, a
//! disk and a clock, and what a crash leaves), `Acts` (all that a command does, in one record for
//! each kind), `Ending`, `Seen` (what is looked at before and behind it). The rules: docs/RULES.md,
//! "The command". A further command: its words and slots in `pg_command`, an arm of `Acts` and of
//! `Keeps`, and a module of its own.
#![tactic(auto)]

mod call;
mod command;
mod help;
mod make;
mod node;
mod replay;
mod soak;

pub use command::heed;
pub use pg_replay::{journals_are_alike, lines_are_events};
pub use replay::LIMIT;
