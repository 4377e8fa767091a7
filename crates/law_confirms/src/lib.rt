//! When a Confirm begins, and how long it stands, in all runs.
//!
//! A Confirm stands only of a child that a directory lists and that is not held (`law_intents`, the
//! clause `intends` of `run`). Here is what makes one stand: a place that came in the event, and of
//! which its sender was not sure, or a further view; and one that stood ends only where the place
//! is told for sure, is listed no longer, or the child is held: the clause `confirms`. The
//! statement stands in `specs/Confirms`.
//!
//! - It is the rule of one step of `theory_listing` (`listed_new`, `confirm_ends`, `enters` of
//!   `MayStep`), which each event of a run keeps (`by_rule` of `law_listings`), read without its
//!   letters (`proofs/Told`). Nothing goes over handlers here.
//! - Premise: `ListingsStandOn` of `law_listings`.
//! - That nothing else makes a Confirm begin is a law of its own (`law_begins`).
//! - A further message that tells a place for sure: a case of `TellsPlace`, and one of `told_is`.
#![tactic(auto)]

mod laws;

pub use laws::confirms_begin_and_stay;
