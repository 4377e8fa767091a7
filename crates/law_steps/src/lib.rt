//! What a step of a world leaves, by the laws of all runs.
//!
//! `World::step` says what it does by the run of the world's events (`state`, `entry`). What holds
//! of all runs so holds of each step; here it is said in the words of these clauses, where it is
//! asked for by whoever drives a world: a step that tells a refusal changes nothing. The statement
//! stands in `specs/Refused`.
//!
//! - Of a world before a step and behind it: what each server holds (`held` of
//!   `pg_world/specs/Played`), and the entry that is handed out.
//! - This is no clause of `World::step` itself, since what it stands on is a law of runs, which
//!   needs all that servers keep: with it in the way, a world could be proved only behind the laws,
//!   and what drives worlds (`pg_replay`) only behind that. The law and the clause say the same.
//! - Premise: that a refused call changes nothing in any run, which the joined laws give.
//! - A further law of runs that a step is to tell: a record beside `RefusedStepLeaves`, and a
//!   function.
#![tactic(auto)]

mod laws;

pub use laws::refused_steps_change_nothing;

// What the crates above name through this one.
pub use law_refused::{confirms_begin_only, intentions_begin_in_turn, refusals_change_nothing};
