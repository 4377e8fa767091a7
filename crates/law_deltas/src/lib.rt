//! A Want is answered by the change that kept deltas lead to, in all runs.
//!
//! Where the deltas that a replica keeps lead from just the heads that a Want names to the version,
//! and their ranges in one are worth it, they are sent; else the first bytes of the body are, and
//! in both cases nothing else. What is kept is told by what was made and taken (`law_contents`).
//! The statement stands in `pg_run/specs/Deltas`.
//!
//! - `delta_is` (`proofs/Computed`): what is computed is what kept deltas lead to. The ranges of
//!   all kept deltas are ranges, as `law_contents` shows of each server (`Stands`).
//! - A Want changes nothing, so no house rule applies behind it (`law_ticks`), and nothing but the
//!   answer is sent (`proofs/Answered`).
//! - Premises: `StandOn` of `law_contents`, and `TidinessIsGiven` of `law_ticks`.
#![tactic(auto)]

mod laws;

pub use laws::wants_get_the_shortest_change;
