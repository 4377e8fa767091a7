//! Cells and the end of an event: what a server does with cells, acknowledgements and ticks, the
//! house rules behind the first effect of an event, and what is sent of the keys that were touched.
//!
//! It stands on the pieces of `pg_pieces` and the rules of `pg_house`, and touches what they touch:
//! the server's `Store` and the event's `Work`. It sends cells, and harbingers of long versions,
//! and hears cells and their answers; all other messages have their handlers elsewhere.
//!
//! What holds here:
//! - a cell that is accepted is taken and then answered, whether it was news or not;
//! - behind `settle` no house rule applies, and each full thing sees a live gold (`laws`); what the
//!   rules change is touched, in their order;
//! - `finish` and `tick` send by file, peer and key, each key once, under its present tag and with
//!   its present cell, or the head alone of a long version; the dead place of a directory waits
//!   while the key of an entry is on the edge;
//! - sending changes nothing that the server holds.
//!
//! The definitions: `specs/Cells`, `Acks`, `Ticks`, `Settling` (with `Raised`), `Sending` and
//! `Finish` (with `KeyFilter`), `Counts`. The rules: docs/RULES.md, "Cells, answers and ticks".
//!
//! A kind of cell more: a case in `specs/Cells` and `src/cells.rt`, over a piece that takes it
//! (`pg_pieces`). One thing more that the end of an event does stands in `pg_server`, behind
//! `settle` and before `finish`.
#![tactic(auto)]

mod acks;
mod cells;
mod counting;
mod finishing;
mod key_filter;
mod laws;
mod sending;
mod settling;
mod ticks;

pub use acks::ack;
pub use cells::cell;
pub use counting::key_count;
pub use finishing::finish;
pub use laws::{
    every_full_thing_sees_a_gold, golds_change_flags_alone, settled_names_are_calm,
    settled_stores_stay,
};
pub use settling::settle;
pub use ticks::tick;

// What the crates above name through this one.
pub use pg_pieces::{call, house, intent, msg, names, replica, store};

pub mod pieces {
    pub use pg_pieces::{
        begin_intent, is_gold, lower_flag, raise_flag, stays_for, take_entry, take_place,
    };
}
