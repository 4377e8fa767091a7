//! What the lines of a `show` tell is the state of what was taken, in all runs.
//!
//! A `show` prints what each live server holds of a thing. The text is that of the lines which
//! `pg_replay/specs/Text` makes of stores (`shown_lines`); here stands what these lines tell of the
//! updates that replicas took: the clause `shows` of `run`, and `ShowsAreStates` in `specs/Shows`.
//!
//! - A live server shows one line of a thing exactly where it holds it: its place, gold or bronze,
//!   full or filling, and for a file the heads, the length and the first bytes of the content that
//!   was taken, for a directory how many children it lists by what it took of them. Where no live
//!   server holds the thing, that is told.
//! - `proofs/Counted` counts the children: entries stand by id, each once, so that what is found at
//!   a child and what is counted are the same. `proofs/Shows` has one server, `proofs/Told` all
//!   lines of a `show`.
//! - It stands on `HoldsWhatItTook` and `NamesMerge`: contents and names are what was taken. That
//!   servers are whole and entries stand by id it cites of `law_order` itself.
//! - A field more of a line: one more of `ShowsState`, and its line in `proofs/Shows`. A new kind
//!   of message costs nothing here.
#![tactic(auto)]

mod laws;

pub use laws::shows_are_states;
