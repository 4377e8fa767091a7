//! No two versions or places of a run have one stamp.
//!
//! A server draws the stamps of versions and of places from one clock, so no stamp is drawn twice:
//! what was made with one stamp is one version, or one place of one thing. The law gives the clause
//! `one_stamp` of `run`; the statement stands in `specs/Stamps`.
//!
//! - Versions among themselves, and places, have own stamps by `law_contents` and `law_places`.
//!   What is new here is that no version has the stamp of a place.
//! - A version that a call makes has a stamp that is drawn behind those of its places
//!   (`proofs/Called`), and what the house rules make behind it is later (`proofs/Off`);
//!   `proofs/Rooted` has the root, and `proofs/Stamped` worlds.
//! - Premises: those of contents (`StandOn` of `law_contents`).
//! - A new kind of message costs nothing here; a new call its line in `proofs/Called`.
#![tactic(auto)]

mod laws;

pub use laws::stamps_are_drawn_once;
