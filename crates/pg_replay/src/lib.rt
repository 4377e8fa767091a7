//! Schedules that are replayed: what is written of their runs, and what is counted.
//!
//! `journal` takes a schedule line by line, with the events of its settlings, and writes the
//! journal; `shown` writes what servers hold, `mark` has what is counted of an event, `soak` runs
//! a made schedule and tells what came of it. `laws` says that meters change nothing but their own
//! lines, and that lines one behind the other are the events of one run.
//!
//! It touches a run (`pg_world`), and writes by `pg_trace`. What is replayed is told apart from
//! what is counted: a replay notes a mark of each event, as plain data, and who drives it shows
//! the marks of a line to the meters (`journal_of`), or adds them up and forgets what the journal
//! would say (`summary_of`). So a soak keeps, beyond servers, bag and events, what one line of its
//! schedule brings.
//!
//! Definitions: `specs/Settling` (which events a line stands for), `Text` (the journal), `Marks`,
//! `Soaking`, `Apart`, `Lines`; and for proofs `Going` and `Soaked`, how a replay goes on. A further line
//! of schedules: its events in `Settling`, its output in `Text`, and an arm of `Replay::answer`.
#![tactic(auto)]

mod journal;
mod laws;
mod mark;
mod shown;
mod soak;

pub use journal::journal_of;
pub use laws::{journals_are_alike, lines_are_events};
pub use mark::{Mark, Outcome};
pub use soak::summary_of;
