//! A node saves its own state: a save is left out for no other cause than that the state has no
//! spelling, or one too long for a slot, or that no slot's number is left.
//!
//! There are lemmas here, and no code runs. `pg_saving` looks whether a state is of this server, of
//! so many, before it saves it. Here stands that this holds of all that a node comes to, from any
//! log and slots that it goes on with, a stranger's too.
//!
//! - `specs/Saved`: what a node that goes on with a log and slots holds is its own.
//! - `proofs/Saved`: what it begins with is its own, and events keep that (`law_stays`).
//! - What is saved when, and what slots load to behind it, is `states_are_saved` of `pg_host`.
//!
//! docs/RULES.md: "Checkpoints".
#![tactic(auto)]

mod laws;

pub use laws::saves_are_own;
