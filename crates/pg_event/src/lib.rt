//! What happens in a run, what its journal says of it, what the run waits for, and how a command
//! ends.
//!
//! `event` has the events and the causes for which one is void, `entry` what a run notes of an
//! event, `quiet` the answer to the question what is still owed, `meter` the kinds of meters, and
//! `status` the numbers with which a command ends.
//!
//! It touches no server and no text but its own words: servers answer with these types, runs
//! collect them and journals print them, so that neither stands on the other.
//!
//! A run is told to be quiet by one answer: the first thing that it waits for, the oldest message
//! before any key. It takes no memory, and is one line of the journal. An entry also
//! has what was sent to a removed server, of whose removal its sender may not know.
//!
//! Definitions: `specs/Event`, `Entry`, `Quiet`, `Meter`, `Status`. docs/RULES.md: "Events",
//! "Quiet", "The command"; docs/FORMATS.md, sections 2 and 3. A further event is a case of `Event`
//! and of its line in `pg_sched`; a further reason to wait is a case of `Owing`, with its words in
//! `quiet`.
#![tactic(auto)]

mod entry;
mod event;
mod meter;
mod quiet;
mod status;

pub use entry::{Entry, VoidCause, one_void_spelling, read_void};
pub use event::Event;
pub use meter::{MeterKind, one_meter_spelling, read_meter_kind};
pub use quiet::{Cause, OwedIntent, OwedKey, Owing, Quiet, one_quiet_spelling, read_quiet};
pub use status::Status;
