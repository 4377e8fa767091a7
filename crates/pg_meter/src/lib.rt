//! Meters: what is counted of a run.
//!
//! `note` makes the note of an event, `meter` has what a meter is and those that are handed in,
//! and `counter` the meters that the program hands in.
//!
//! It touches entries alone, and adds up: which bodies came again is told it (`World::repeats`).
//! Meters change nothing of a run.
//!
//! A meter keeps its number when others are taken off: it is counted in the order in which they
//! were handed in, so a schedule that takes off 1 and then 2 means the same two in either order.
//! Counts stop at 2^64 - 1. No call but `hand_in` takes memory.
//!
//! Definitions: `specs/Note`. A further kind: its word in `pg_event`, its field of the note with
//! how `Note::new` fills it, and its arm of `field_of`.
#![tactic(auto)]

mod counter;
mod meter;
mod note;

pub use counter::Counter;
pub use meter::{Meter, Meters, Reading, hand_in, read, see_all, take_off};
pub use note::Note;
