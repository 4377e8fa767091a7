//! The end of an event: which intentions end and begin, what their messages are, and who is invited
//! to be gold. All that a server intends until others have answered is decided here, from what it
//! holds once the house rules have run.
//!
//! It reads the server's `Store` and the event's `Work`. It changes the intentions, the births that
//! were given out and the wishes that a Fill takes over, and in the work what began and what is
//! sent; names and replicas it never changes. It answers no message: that is for the handlers of
//! `pg_repair` and `pg_graph`, on which it stands.
//!
//! What holds here:
//! - behind `begin_end` a Fill stands of each thing that is to be filled and of no other, a Seek of
//!   each thing that seeks and of no other, a Confirm only of a child that a directory lists and
//!   that is not held (`laws`);
//! - a Patch begins of each live place that was replaced in the event, where its directory is not
//!   held; all other Patches, and each Bye, stay as they were; a Leave stands while its peer is a
//!   gold one that is listed;
//! - kinds go in the order Patches, Fills, Seeks, Confirms, each by id; one that stands keeps its
//!   place and whom it asks, but a Seek asks anew where an edge of its thing was made;
//! - a second `begin_end` behind the first leaves all as it is;
//! - messages go in the order of the intentions, and only to a target that is not 0.
//!
//! The definitions: `specs/Beginning` (`begin_end`) over `Patches`, `Fills`, `Seeks` and
//! `Confirms`, with `Intending`; `Requests`, `Inviting`; `Needed` says in words of its own what
//! must stand. The rules: docs/RULES.md, "Intentions and wishes", "Gold replicas and walks".
//!
//! A kind of intention more: a variant in `pg_intent`, its message in `Requests`, its condition in
//! `still_stands`, and where it begins by itself a module beside `fills`, called by `begin_end` in
//! its place, with its law in `Needed`.
#![tactic(auto)]

mod beginning;
mod confirms;
mod fills;
mod intending;
mod inviting;
mod laws;
mod patches;
mod requests;
mod seeks;

pub use beginning::begin_end;
pub use inviting::invite_all;
pub use laws::{intentions_follow_what_is_held, patches_follow_what_was_left, what_is_to_fill};
pub use requests::{ask_all, ask_begun};
pub use seeks::{begin_seeks, is_seeking, matches, to_seek};

// What the crates above name through this one.
pub mod graph {
    pub use pg_graph::{bye, bye_ok, here, leave, leave_ok, seek, walk, walk_of_tick};
}

pub mod repair {
    pub use pg_repair::{
        confirm, fetch, fill, full, gone, grant, invite, no_grant, none_here, place_is, tell,
        tell_ok,
    };
}
