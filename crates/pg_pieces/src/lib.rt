//! The pieces of which every handler is made: how a message along an edge is accepted, what a held
//! thing takes, what a server makes, intends and sends, which replicas are gold, and what keeps a
//! replica from going.
//!
//! A piece reads and changes the server's `Store` and the event's `Work`, and nothing else. Its
//! definition gives a `Done`: what the server holds then, and what comes of the event so far. So a
//! handler is some pieces, one after another, and its definition the same ones; what each piece
//! keeps each handler keeps (`theory_flood_pieces`).
//!
//! What holds of all pieces:
//! - what is news is noted where it is taken: its key as touched, the directory of a live place
//!   that it replaces, a cell that is to be confirmed; an edge that is made is noted as linked, an
//!   intention that begins as begun;
//! - an update that the server makes is noted as made, and then taken as it takes what comes;
//! - a message goes behind those that are sent already, with the server's own view. No piece sends
//!   a cell: touched keys go at the end of the event (`pg_cells`);
//! - after out of memory a part may be done. A piece that does not apply changes nothing.
//!
//! The definitions: `specs/Accepting`, `Posting`, `Taking`, `Making`, `Intending`, `Golds`,
//! `Parting`, each beside the module of its name, over `Done`. The rules: docs/RULES.md, "What a
//! server does", "What a server holds", and golds in "Cells, answers and ticks".
//!
//! A piece more: where two handlers want it and it names no kind of message, its definition goes
//! into the module of its subject, its function beside that, and what each theory says of pieces
//! gets a lemma on it.
#![tactic(auto)]

mod accepting;
mod golds;
mod intending;
mod making;
mod parting;
mod posting;
mod taking;

pub use accepting::{EdgeUse, accept, ends_to, is_accepted, link_of, link_peer};
pub use golds::{goldless, is_gold, is_goldless};
pub use intending::begin_intent;
pub use making::{lower_flag, raise_flag};
pub use parting::stays_for;
pub use pg_store::msg;
pub use posting::{post, send};
pub use taking::{take_entry, take_entry_cell, take_flag, take_flags, take_place, take_version};

// What the crates above name through this one.
pub mod call {
    pub use pg_call::{Call, Counts, Payload, ReadCount, Refusal, Reply, Stat, Target};
}

pub mod house {
    pub use pg_store::{count_held_back, dirty_things, first_held_back, is_root};
}

pub mod intent {
    pub use pg_store::{Intent, IntentKey, Intents};
}

pub mod names {
    pub use pg_store::{Attributes, Inode, Names, is_dir, is_same_stamp};
}

pub mod replica {
    pub use pg_store::{Link, Replica};
}

pub mod store {
    pub use pg_store::{COUNTER_LIMIT, LATEST_TIME, Store, Wish};
}
