//! The house rules of a server: what holds of its names at the end of each event, whatever came.
//!
//! They are three, and each is a module: `passing` (a thing and the directories that know of it
//! come to one place and the same flags), `returning` (a removed directory that lists a child comes
//! back), `cycles` (of live directories that stand in each other one moves to the root). `rules`
//! runs them in this order, over what may not be calm alone (`changes`): of all else `Names` knows
//! that no rule applies to it; `holding` finds places that are held back; `placing` makes a new
//! place, `touching` notes what changed.
//!
//! It reads and changes `Names` and the event's `Work`, and nothing else: no replica, no edge, no
//! message. After out of memory a part may be done.
//!
//! What holds behind `house`, whatever came before, stands in `laws`: every cell for a thing is the
//! greatest of what is known, no removed directory lists a child, live directories form no cycle,
//! none of the rules applies again, what is held is the same, and each live place that was replaced
//! is noted.
//!
//! The definitions go through all that is held: `specs/House` (the whole), `Passing`, `Placing`,
//! `Returning`, `Cycles`, `Holding`; what holds of calm names: `Facts`, `Calm`. The rules:
//! docs/RULES.md, "House rules".
//!
//! A rule more: its definition and its module beside these, its step in `House` and `rules`, in
//! `laws` what it leaves, and what it looks for as a field of `IsCalm` in pg_names.
#![tactic(auto)]

mod changes;
mod cycles;
mod holding;
mod laws;
mod passing;
mod placing;
mod returning;
mod rules;
mod touching;

pub use changes::dirty_things;
pub use holding::{count_held_back, first_held_back};
pub use laws::{
    a_flag_passes, all_have_passed, all_is_told, calm_names_stay, few_places_are_made, no_cycle,
    no_dead_directory_lists, none_applies, own_parent, passed_things_stay,
    replaced_places_are_noted, stays_sound, the_same_is_held,
};
pub use pg_names::is_root;
pub use rules::house;
pub use touching::note_left;

/// What the crates above name of messages through this one.
pub mod msg {
    pub use pg_msg::{
        Ask, Delta, Ends, Granted, Greeting, Linked, MadeVersion, Message, Packet, Piece, Sent,
        Slot, Touched, Update, Wanted, Work, key_of,
    };
}
