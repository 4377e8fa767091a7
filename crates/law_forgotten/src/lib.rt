//! What a forget removes does not come back in its event, in all runs.
//!
//! A removal stays in the event of its rmdir (`law_lists`, the clause `removal_stays` of `run`).
//! The other call that makes dead places is `forget`: here it is shown that it makes them of the
//! file that it names alone, and that no house rule answers with a place of it: the clause
//! `forget_stays`. The statement stands in `specs/Forgets`.
//!
//! - `made_fine` (`proofs/Forgotten`): what a forget makes, by its three ways: a filling replica
//!   gets a live place, a lost directory begins with a live one, and a lost file is struck out.
//! - Behind the first effect live places of directories alone are made (`made_live` of
//!   `law_returns`): so none is of a file (`proofs/Runs`).
//! - Premises: none.
//! - A further way to give up what was lost: its updates in `forget_fine`.
#![tactic(auto)]

mod laws;

pub use laws::forgets_stay;
