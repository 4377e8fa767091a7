//! What sends walks: the full replicas, other than the root's, that have one edge or two.
//!
//! A walk gives an edge more to a replica that has few, so that the replicas of a thing stay joined
//! where some of them go. At a tick one of these replicas sends one. `sends_walks` is the test of
//! one thing; `all_walkers` goes over all that is held; `relist_each` looks at some things anew, in
//! a list that is right for all others.
//!
//! It reads names and replicas and changes neither. Whoever keeps such a list beside them says in
//! the invariant of its own type for which things it is right (`AreListed`), and which are still to
//! be looked at.
//!
//! The list is a sorted set of ids. Where an insertion runs out of memory, a part of the things may
//! have been looked at; to take one off takes no memory.
//!
//! Definitions: `specs/Walkers`, by `sends_walks`, and `walkers_of` for all of them in order. That a
//! list which is right for all things is `walkers_of` stands in `proofs/Relisted`. The rules:
//! docs/RULES.md, on walks. What else makes a replica send walks joins `sends_walks`, in the body
//! and in the definition.
#![tactic(auto)]

mod walkers;

pub use walkers::{all_walkers, relist_each, sends_walks};
