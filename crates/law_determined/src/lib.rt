//! That names depend on nothing but which updates were taken.
//!
//! Of it comes the clause `determined_names` of `run` (`NamesAreDetermined`): where the replicas of
//! a thing at two servers took the same updates, in whatever order and however often, the servers
//! have the same place, the same flags and, of a directory, the same entry of each child. So it is
//! at two moments of one run, and in two runs. Of contents `determined` says it. The statements
//! stand in `specs/Determined`.
//!
//! - `AreTheSame` compares what one replica took of one thing, `TookTheSame` all that the replica
//!   of a thing took of names. Versions have no part in it.
//! - `proofs/Same`: of two lists with the same places the latest is one, and so are the newest
//!   flags, as `law_passing` has it of sets (`IsLatest`, `AreNewest`), where stamps and numbers
//!   tell places and flags apart (`AreApart`). It is enough that one of the two lists is so.
//! - `proofs/Determined` says it of runs: what replicas took is told apart, since it was made, and
//!   what servers have is the state of it (`law_names`).
//! - Premise: `NamesStandOn` of `law_names`.
//! - A new kind of message costs nothing here; a new kind of update is one more field of
//!   `AreTheSame`.
#![tactic(auto)]

mod laws;

pub use laws::names_are_determined;
