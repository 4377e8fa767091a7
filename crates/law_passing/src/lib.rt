//! That the house rules are passing, of what replicas took.
//!
//! No clause of `run` comes of it alone: `law_names` stands on it, and `law_returns` through that.
//! It has no runs, events or messages: a server that knows of names just what its replicas took,
//! and the rules behind its first effect. So a new kind of message costs nothing here, and a new
//! house rule a lemma like those of `proofs/Rules`.
//!
//! - `Tells` (`specs/Tells`): of each thing the place is the latest taken, and the flags the
//!   newest, and so for each child that a directory lists; `AreApart`: no two places of a thing
//!   with one stamp, no two flags with one number. `IsLatest` and `AreNewest` stand in
//!   `specs/Newest`, `IsParty` in `specs/Gets`.
//! - `Passes` (`specs/Passing`) is what is shown: behind the rules `Tells` holds again of what was
//!   taken, with all that they made, where all that is held passes again behind each.
//!   `RulesArePassing` asks besides that only directories list, and that no place is later than the
//!   greatest time.
//! - `proofs/Takes` and `Singles` look into lists of takes, `Pieces` has what a few more change,
//!   `PassedAll` and `Coming` what is known once all has passed, `Rules` one place that a rule
//!   makes, and `House` the induction over the rules (`Stands`, `Follows`).
//! - `proofs/States` turns `Tells` into the state that is computed of what was taken.
//! - It cites the definitions of `pg_run`, and laws of `pg_house` and `pg_names`; no other law.
#![tactic(auto)]

mod laws;

pub use laws::rules_are_passing;
