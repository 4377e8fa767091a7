//! The state of a server, as bytes.
//!
//! `state` has both calls: `fits` tells whether all that a store holds has a spelling, and `write`
//! writes it. `edges`, `contents`, `replicas` and `waiting` write the parts; `fields`, `fitting`
//! and `expecting` say whether each fits, and `time` whether the greatest time is late enough.
//!
//! It touches a store that is lent to it, and bytes. It reads nothing: that is for a crate above.
//!
//! The whole store is written, with its wishes and announced versions, though a restart loses
//! these: whoever folds later entries on the state finds what was there. A replica stands in one
//! piece, with what names keep of it. The store keeps the next tag, and the state has the latest
//! that was drawn. Counters of memory, as indexes, are not written: they are made again.
//!
//! `write` asks for `FitsState`, and `fits` is its test, exactly; it takes no memory. What the
//! types of the store keep is in `FitsState` too, so that it says all that a reader asks: flags by
//! server, entries by child, actors and edges in order, ranges that are ranges, bodies as long as
//! their heads say, intentions of different keys, wishes and announced versions in order. The rest
//! is tested: servers, names, limits, the order of heads and of bases, that just what is held has
//! a replica, that directories have no content and files no entries.
//!
//! Definitions: `specs/Spelling` (how each part is spelled), `Fits` (what has a spelling) and
//! `Rising`. A further field of the store: its spelling, its condition, its line here in both.
#![tactic(auto)]

mod contents;
mod edges;
mod expecting;
mod fields;
mod fitting;
mod replicas;
mod state;
mod time;
mod waiting;

pub use state::{fits, write};
