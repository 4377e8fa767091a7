//! Keys that peers have not acknowledged, over the replicas of all files.
//!
//! `Due` is a key of a file's replica that a peer has not acknowledged. `Unacked` has those of each
//! peer, by file and then by key: so what a peer is still owed is gone through in order, without a
//! look at replicas that owe it nothing. `DueList` is one peer's, in a sorted `Vec`.
//!
//! Beside it stand the changes of edges that make dues and take them: `changes` has each change of
//! the edges of one file's replica, `owing` the pieces, and `replacing` edges that come with all
//! their keys.
//!
//! It touches no replica, and whoever holds an `Unacked` beside replicas says in the invariant of
//! its own type that just the keys on their edges are due (`AreDueOf`, of one file). Each change
//! here keeps that (`Redues`): where it held of the edges before, it holds of those behind it, and
//! what is due of other files stays. So changes go one behind another, and a further change is a
//! function of `changes` with `Redues` as a clause.
//!
//! Kept by the types: the dues of a peer rise, so each is there once. A look-up goes by halves. A
//! due above all others is found to be so by one comparison, is put at the end and moves nothing.
//! Where an insertion runs out of memory all is as it was; to take out takes no memory, and a peer
//! whose last due goes takes none from then on. Where memory runs out in the middle of a change of
//! edges, all edges go, and with them all that is due of the file.
//!
//! Definitions: `specs/Due` for contracts, by `has_due` and `dues_to`; `specs/Owes`, which keys the
//! edge to a peer has; `specs/Changes`, how both agree; `specs/Place` for the code alone. A change
//! is told by which dues a peer has behind it: so the proof that they agree with the edges of the
//! replicas goes due by due, and lists in order with the same dues are one.
#![tactic(auto)]

mod changes;
mod due;
mod list;
mod owing;
mod replacing;
mod unacked;

pub use changes::{acknowledge_due, let_go, link_due, retire_due, touch_due, unlink_due};
pub use due::Due;
pub use replacing::{enter_due, exchange_due};
pub use unacked::Unacked;
