//! Whole runs: the servers, and the messages between them.
//!
//! `world` has a run as others see it, `machine` its servers and the messages under way,
//! `event_list` the events so far, kept small, and `repeats` whether a message brings what its
//! receiver has.
//!
//! It touches servers by their calls alone (`pg_server`), and writes nothing: each entry is handed
//! out, and who drives the run prints it or counts it.
//!
//! A world is seen as its number of servers, the list of all its events, and whether it has
//! failed: all else is a function of the first two (`run` of `pg_run`). A step that runs out of
//! memory leaves a world that has failed.
//!
//! Definitions: `specs/Played`, and inside `Stands`, that the servers and the bag are those of a
//! run; `Repeats`. What one event does stands in `pg_run/specs/Run`.
#![tactic(auto)]

mod event_list;
mod machine;
mod repeats;
mod world;

pub use world::World;
