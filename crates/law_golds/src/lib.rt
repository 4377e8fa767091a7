//! Flags and gold replicas along every run: each flag is its server's own, or an earlier one, and
//! nothing else is known; each full replica sees a live gold, and edges or Seeks lead to those that
//! are seen.
//!
//! Of the laws come the clauses `golds` and `golds_are_linked` of `run`. That flags have numbers of
//! their own is for `law_names` and `law_quiet`, that they are made where the thing is held for
//! `law_leaving` and `law_repair`. The statements stand in `specs/Laws`, and in
//! `pg_run/specs/Golds`, `Known` and `Going`.
//!
//! - `AreOwn` (`proofs/Worlds`) is the invariant of a world: each flag that is known is up to its
//!   server's own (`IsOwn`, `proofs/Own`), or its birth is past. `Says` (`proofs/Says`) is any
//!   property of flags in the midst of an event; `Fine` (`proofs/Fine`): what is known then was
//!   known before, or was made.
//! - `proofs/Seen` has what sees no live gold and why none of it is full; `SeenAfter` has it of
//!   runs. `proofs/Named` reads edges and Seeks off the intentions that are in order.
//! - Premises: that names and replicas go together (`HoldBoth` of `law_contents`), what
//!   `specs/Premises` names, and laws on births, views and intentions.
//! - What each piece of a message that raises no flag keeps is said in `proofs/Received`; the walk
//!   over them is that of `law_frame`. One that raises a flag gets a lemma in `proofs/Filling`, and
//!   its line in `proofs/Effects`.
#![tactic(auto)]

mod laws;

pub use laws::{flags_are_own, golds_are_named, golds_are_seen};

// What the floors above name through this one.
pub use law_births as births;
pub use law_contents as contents;
