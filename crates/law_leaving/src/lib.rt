//! Drops: what a replica that goes had, another has and took.
//!
//! Of the laws come the clauses `drops`, `gone_is_over`, `byes` and `heard` of `run`;
//! `GiversHaveEachCell` is for `law_listings`. The statements stand in `specs/Laws` and in
//! `pg_run/specs/Leaving`.
//!
//! - `theory_leaving` has the induction: moments of a run, what went before with the replica as it
//!   stood, and a rule for one server's event. `specs/Seen` shows a run to it: `leaving` names its
//!   parts, and `word_of` what a message says of the thing. `specs/Taken` and `Gone` have what
//!   replicas took, and replicas that went.
//! - `proofs/Rules` shows that each event keeps that rule, `proofs/Moments` leads from one moment
//!   to the next, `proofs/Start` has the first; `proofs/Ordered` and `InOrder` have what other laws
//!   give of each, `proofs/Kept` the induction, and `proofs/Drops` and `Safe` what follows for
//!   cells and for states.
//! - `proofs/Said` goes over all that is sent: a Bye is owed, or answered, and answers go to who
//!   was accepted (`specs/Answers`), and is listed (`proofs/Acks`, `Listed`).
//! - Premises: `StandOn` and `StatesAreCited` (`specs/Premises`), of births, events, edges, flags,
//!   views and contents. It goes by `law_births` alone, so laws of names and quiet may cite it.
//! - A new kind of message says nothing of replicas that go, where `word_of` has no word for it,
//!   and is read here only if it links, or takes an edge or a replica away: then in `word_of`,
//!   `proofs/Words`, `Said` and `Rules`.
#![tactic(auto)]

mod laws;

pub use laws::{drops_are_safe, drops_leave_all, heard_edges_are_known, what_went_is_over};
