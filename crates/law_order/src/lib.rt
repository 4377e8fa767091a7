//! What the house rules keep along all runs, and what is said of all that is known of names in
//! them.
//!
//! The lowest of the laws of names: it cites no other law. Of it comes the clause `order` of `run`.
//! The rest is for other laws, and is stated in `specs/Laws`: servers are whole, all that is named
//! was given out, what begins at a server was not held there, and no directory shows two children
//! by one name.
//!
//! - `Saying` (`specs/Saying`) takes any property of ids, places, flags and parents, and says it of
//!   all that a server knows, intends, notes and sends; `IsClosed` is what the property has to
//!   keep. A law on names is one instance of it, as those of `specs/Named` are: no second pass over
//!   the handlers.
//! - Invariants: `AreTidy` and `IsSound` (`specs/Sound`) of one server, `IsSoundSoFar`
//!   (`proofs/Sent`) in the midst of an event, `AreSound` (`proofs/Runs`) of a world. `IsSettled`
//!   is what the house rules leave.
//! - `proofs/Pieces`, `Sounding` and `Taking` have a lemma for each piece of an event; `Received`,
//!   `Called` and `Intended` take them along the walks of `law_frame` over messages, calls and
//!   intentions; `Ended` has what stands behind the first effect.
//! - A new kind of message gets its case in what is said of a message (`IsSaidOfMessage`).
#![tactic(auto)]

mod laws;

pub use laws::{all_is_named, house_is_in_order, servers_are_whole, what_begins_is_new};
