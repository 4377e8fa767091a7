//! Each state that was written is read again, and where other bytes stop being a state.
//!
//! `pg_state_read` says of stores which of them can be read (`IsWholeState`). Here stands that each
//! store that has a spelling (`FitsState` of `pg_state`) is one of these: what `fits` tests and
//! what the types of a store keep, as widths of numbers and bytes, is all that a reader asks. So
//! whoever wrote a state reads this store again and no other: `states_are_read` of `laws`. And what
//! is read can be written, as these bytes and no others: `states_are_spelled`.
//!
//! `widths`, `held` and `waiting` have one function for each type: it does nothing, and its clause
//! says what values of that type keep (`specs/Widths`). What a type keeps is known from the clauses
//! of its methods, which is why they are called.
//!
//! `faults_are_of_states` ties each fault that reading names to the states that there are: with the
//! field at its place no state begins so (`specs/Faults`). Not said is that a state begins with the
//! bytes before that place: a count may promise more than can come.
//!
//! It reads and writes nothing. A further field gets its widths, its lines in `proofs/Leaves`,
//! `Expected` or `Things` and in `Fitting`, and where its reader stops in `proofs/Fields`.
#![tactic(auto)]

mod held;
mod laws;
mod waiting;
mod widths;

pub use laws::{faults_are_of_states, states_are_read, states_are_spelled};
