//! What directories list in a run: a child that is listed and not held beside it is asked after, or
//! it is known where it is.
//!
//! No clause of `run` comes of it alone: it is what `law_quiet` draws the tree of names from.
//! `ListingsAreKept` stands in `specs/Laws`.
//!
//! - `theory_listing` has the induction, over any protocol; `theory_listing_house` the part of the
//!   house rules. `specs/Letters` shows a run to it: what directories see of servers, and each
//!   message as a letter, in which a LeaveOk has its sender's place (`MessagesHaveLetters`,
//!   `proofs/Mailed`).
//! - A step has two parts. The first is the handler's (`First`; `proofs/Receiving`, `Calling`,
//!   `Lost`, `Entering`); the second is of house rules and intentions (`proofs/Settling`,
//!   `Behind`). `proofs/Events` and `Steps` join them, and `proofs/Runs` has the run.
//! - `Alike` (`proofs/Alike`, `Unseen`): stores that directories see alike. What changes edges,
//!   flags, versions or birth numbers alone is done with by it. `proofs/PlacesAlone` has the lemmas
//!   over servers of which births are not seen; `proofs/Births` adds births, for the whole event.
//! - Premises: `ListingsStandOn` (`specs/Laws`), of names, places, births, drops, ticks and views.
//! - A new kind of message gets its line in `receive_first` (`proofs/Receiving`), by the lemma of
//!   `theory_listing/proofs/Handlers` for what it does; what it promises, in `says`
//!   (`specs/Letters`).
#![tactic(auto)]

mod laws;

pub use laws::listings_are_kept;

// What the floors above name through this one.
pub use law_places as places;
