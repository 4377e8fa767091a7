//! That of each stamp there is one place of a thing in a run, and that none comes from nowhere.
//!
//! Of it comes the clause `one_place` of `run`. That each place that is known was made, and when,
//! is for `law_names`, `law_returns`, `law_quiet` and `law_listings`. The statements stand in
//! `specs/Laws`.
//!
//! - `AreKnown` (`proofs/Known`) says any property of all places that a server knows, or owes to a
//!   directory; `Fine` (`proofs/Fine`) says it in the midst of an event, and of what was sent;
//!   `AllKnown` (`proofs/Worlds`) of a world, with the time of each place at its maker.
//! - No history of places is kept: all places that are known anywhere are among those made by the
//!   end of the run, a list that is fixed once (`IsFrom`, `proofs/Origins`). `proofs/OnePlace`
//!   draws from it that of two with one stamp there is but one.
//! - `proofs/Timed`: no place that is known is later than the greatest time, so a new stamp is new.
//! - `proofs/Behind` has what stands behind the first effect: house rules, intentions, what is
//!   sent.
//! - Premises: `IntentionsAreInOrder`. Of laws it stands on `law_frame` alone, below those of
//!   listings and quiet.
//! - What each piece of a message keeps is said in `proofs/Handled`; the walk over them is that of
//!   `law_frame`. A message that tells of a place gets its case in `proofs/Messages`.
#![tactic(auto)]

mod laws;

pub use laws::{one_place_a_stamp, places_were_made};
