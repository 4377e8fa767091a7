//! What a server holds: what it knows of names, and beside that a replica of each file and
//! directory with its edges, and the content of a file.
//!
//! `store` has `Store`: names, replicas, notes of versions, intentions, wishes, and the numbers it
//! gives out (tags, ids, births). `start` makes the first; `taking` and `versions` take places,
//! flags, entries and versions that come or are made; `links` makes and cuts edges; `beginning`
//! lets replicas begin and go; `cells` reads the cell of a key; `lists` lends what stands in a
//! directory, what lists a thing and what a peer did not acknowledge; `views` enters a view;
//! `settling` lets the house rules run, and lends what may seek a gold (`seekers`) and what sends
//! walks; `servers` says who is live, and who is asked next; `wishes` has what clients ask for.
//!
//! A change here keeps names and replicas together: what is held in one is held in the other, and
//! what is news touches its key on every edge. No message is made or sent.
//!
//! Kept by the type: what seeks a gold replica is marked (`seekers`), so that nobody has to look
//! for it among all that is held. Each write of names or replicas marks its file first. By the same
//! marks what sends walks is listed anew at the end of an event.
//!
//! The laws (`laws`): births move one way, and a server that enters a view cuts the edges to who is
//! removed and changes nothing else. `is_before_clock_end` tells of a number at its end.
//!
//! The definitions: `specs/Value`, `Store`, `Start`, `Beginning`, `Births`, `Cells`, `Links`,
//! `Seekers`, `Seen`, `Servers`, `Views`, `Wishes`, `Together`. The rules: docs/RULES.md.
//!
//! A field more: it joins `Store`, its value and `new_store`; what a restart or a view does to it
//! is said in `pg_server/specs/Local` and `specs/Views`.
#![tactic(auto)]

mod beginning;
mod cells;
mod laws;
mod links;
mod lists;
mod seekers;
mod servers;
mod settling;
mod start;
mod store;
mod taking;
mod versions;
mod views;
mod wishes;

pub use laws::{births_move, views_are_entered};
pub use pg_house::{count_held_back, dirty_things, first_held_back, is_root, msg, note_left};
pub use pg_intent::{Intent, IntentKey, Intents};
pub use pg_names::{Attributes, Inode, Names, is_dir, is_same_stamp};
pub use pg_replica::{Link, Replica};
pub use store::{COUNTER_LIMIT, LATEST_TIME, Store};
pub use taking::EntryNews;
pub use wishes::{Wish, Wishes};
