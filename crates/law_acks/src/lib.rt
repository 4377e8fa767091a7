//! That every event of a run keeps what edges and messages promise.
//!
//! Of it comes the clause `acked_is_had` of `run`: where a key is acknowledged, the peer has its
//! cell, or its birth is over. That servers hold on what they hold (`RunsGrow`, `EventsGrow`), and
//! that each event keeps the rule of the edges (`EventsKeepTheRule`), is for most laws above.
//!
//! - `theory_flood` has the promise and the rule, `theory_flood_pieces` that each piece of an event
//!   keeps it, whatever the kind of a cell. Here each handler is put together of these pieces.
//! - `Goes` (`proofs/Pieces`) is what has happened so far in an event, `IsFirst` and `Begins`
//!   (`proofs/Ends`) what its first effect left; `Keeps` (`proofs/Runs`) is the invariant of a
//!   world: servers are whole, tags are sound, edges and all that was ever sent keep their promise.
//! - A birth that goes counts as over all along its event (`Counts`, `proofs/Gone`).
//! - Premises: `StandOn` (`specs/Laws`), of contents (`HaveHistories`, `specs/Histories`), of who
//!   is asked for versions, of what begins, and of births. No crate of laws is cited: `pangaea`
//!   joins them.
//! - A harbinger is answered at once, where its version is covered (`proofs/Told`), or when the
//!   body comes (`proofs/Came`): its sender announced the version (`proofs/Sources`). Of what comes
//!   so only the head has to be one of the history (`proofs/Heads`): edges do not read bodies.
//! - A new kind of message gets its line in `received_first` (`proofs/Effects`), with a lemma
//!   `.._done` for its handler (`proofs/Handlers`, `Walks`, `Leaving`, `Told`, `Came`), and its
//!   case of `saying` (`theory_flood_pieces/specs/Seen`): what it promises.
#![tactic(auto)]

mod laws;

pub use laws::{contents_are_of_histories, runs_grow, runs_keep_edges};
