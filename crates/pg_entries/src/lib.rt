//! What a directory knows of its children, and the names that it shows.
//!
//! An `entry` is a child's id with the place and the flags that this directory knows; `entries`
//! has one for each child, by id, joins what comes, and finds who shows a name. `named` is the
//! index of names, at the `slot` of each. `claim` and `tilde` say which child shows the plain name
//! and which its name with a tilde and its id; `listing` gives the rows, whole or a page. A `cell`
//! is what an edge carries: a version, a place, flags or an entry.
//!
//! It touches no replica and no message: which entries there are is for the house rules.
//!
//! Kept by the type: entries stand at their own child, by id, and the index lists each live child
//! at the slot of its name where it stands, an id that is made of its parent's and the name's
//! bytes. A dead child shows no name and has no slot, and one that was moved away has another: each
//! is taken off the slot that it had, so to look up a name costs no more where many had it before.
//! The index may list more: a child is put at its new slot first and taken off the old one last, so
//! that running out of memory leaves nothing to undo. Of two listed children of one name the one
//! with the earlier stamp shows it plain, and of equal stamps the one of lesser id. A look-up tries
//! the two that can show a name, the one with the first claim on it and the one whose id stands
//! behind its last tilde: so it costs as much as names of listed children are equal, or share a
//! slot, and takes no memory. Where names outside the rule make two children show one name, it
//! gives the one of lesser id, and a listing has both rows. A listing looks at all entries, keeps
//! the first claim on each name in a map, and sorts once; a page is cut from the whole listing,
//! whose rows share the bytes of names.
//!
//! Definitions: `specs/Entry`, `Names`, `Shown`, `Firsts`, `Slots` for the index, and
//! `EntriesInside` for what the type keeps. The laws: shown names differ, and each row is found by
//! its name. docs/RULES.md: "Entries of a directory", "Shown names", "Cells". A further kind of
//! cell is a case of `Cell`, with its key in `pg_edges`, and `key_of` in `pg_msg` joins the two.
#![tactic(auto)]

mod cell;
mod claim;
mod entries;
mod entry;
mod laws;
mod listing;
mod named;
mod slot;
mod tilde;

pub use cell::Cell;
pub use entries::Entries;
pub use entry::Entry;
pub use laws::{entries_are_found, shown_names_differ};
pub use listing::Listing;
