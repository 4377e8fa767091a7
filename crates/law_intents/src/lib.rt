//! What servers intend is decided by what they hold, after every event of every run.
//!
//! Of it comes the clause `intends` of `run`. That a further end of an event changes nothing, and
//! that each intention has a message, are for `law_ticks` (`specs/Laws`). `IntentionsAreInOrder`
//! stands in `pg_run/specs/Intending`, and is a premise of nearly all other laws.
//!
//! - Invariants: `IsFar` (`proofs/Far`) in the midst of an event: who is asked is another live
//!   server, and Patches and what was noted are of held things. `GoesOn` (`proofs/Goes`) leads from
//!   one moment of an event to a later one: places go to later ones, and of live ones that is
//!   noted. `IsResting` (`proofs/Ends`) is what stands behind an event, where intentions have ended
//!   and begun.
//! - `proofs/Begun` has what ends where a replica begins, `proofs/Asked` and `Aimed` who is asked,
//!   `proofs/Settled` what the house rules and raised flags leave of it.
//! - Premises: `ViewsArePrefixes` alone; of other laws it cites those of `law_order`.
//! - What each piece of a message and of a call keeps is said in `proofs/Heard` and `Called`; the
//!   walk over them is that of `law_frame`. A new kind of intention gets its case where intentions
//!   begin and end (`proofs/Asked`, `proofs/Ends`), and where a view is entered (`proofs/Entered`).
#![tactic(auto)]

mod laws;

pub use laws::{intentions_are_in_order, nothing_is_left_to_do};

// What the floors above name through this one.
pub use law_order as order;
