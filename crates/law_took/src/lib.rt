//! What each replica took of places and flags, in all runs: by replica, as it is said of versions.
//!
//! `took` of `run` says of places and flags what came to a server, whichever of its replicas knew
//! them. Here it is said of each replica that took one: the thing's own, or that of a directory
//! with an entry for the thing (the clause `took_by` of `run`). What came to a replica since it
//! last went it has; and what it has came to it since, or another replica at its server had it in
//! some event since, from which it passed. The statement stands in `specs/Takers`.
//!
//! - `taken_at`, `left_has`, `come_has` (`proofs/Once`): one input that takes effect. What is known
//!   behind passing was known before (`Knowing` of `pg_run`), by this replica or by another.
//! - `proofs/Coming`: any event, and any events.
//! - Premises: none.
//! - A new kind of update of a thing gets a case of `IsOfNames` and `AnotherHas`, and a lemma
//!   beside `place_by`. A new kind of message costs nothing here.
#![tactic(auto)]

mod laws;

pub use laws::replicas_took_what_came;
