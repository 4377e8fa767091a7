//! Edges to gold replicas, and walks: what keeps the replicas of a thing joined; and replicas that
//! go. One function for each message that seeks, meets, walks, asks for leave or says good-bye, and
//! the walk of a tick.
//!
//! A handler is made of the pieces of `pg_pieces` alone, and touches what they touch: the server's
//! `Store` and the event's `Work`. What seeks by itself, and whose Seeks begin, is decided at the
//! end of the event (`pg_intentions`).
//!
//! What holds here:
//! - who seeks, and who is met by a walk, is linked by the replica that answers, whatever kind it
//!   is, but for a birth that is not the sender's latest;
//! - a walk that a tick sends goes at most three steps, none of them back to whom it came from or
//!   began at, and by the word of the tick: no handler draws one;
//! - a replica goes only behind the leave of a gold one that knew its place, with nothing that
//!   keeps it (`stays_for`); then a Bye begins to each peer, by peer;
//! - a Bye takes away the edge to the birth that went, and is answered whatever is here.
//!
//! The definitions: `specs/Seeking`, `Walks`, `Leaving`, each beside the module of its name. The
//! rules: docs/RULES.md, "Gold replicas and walks", "Replicas that go".
//!
//! A message more: its definition and its function in the module of its subject, a case in
//! `pg_server`, and a lemma on it in each law that walks over the handlers.
#![tactic(auto)]

mod leaving;
mod seeking;
mod walks;

pub use leaving::{bye, bye_ok, leave, leave_ok, may_still_leave};
pub use seeking::{here, seek};
pub use walks::{walk, walk_of_tick};

// What the crates above name through this one.
pub use pg_pieces::{house, intent, msg, names, store};

pub mod pieces {
    pub use pg_pieces::{begin_intent, ends_to, is_gold, send};
}
