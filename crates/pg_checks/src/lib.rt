//! What comes before a call is done: what it is about, why it is refused, and how what is not here
//! yet is asked for.
//!
//! `paths` reads the texts of a call; `checks` finds what the call is about and tries the reasons
//! to refuse it, in the order of the refusals' numbers; `asking` keeps a wish for what is not held,
//! and sends its first message. `listing` finds where a thing is listed that is to be given up.
//! `call_error` is how a check ends that does not find what it looks for.
//!
//! Checks read the server's `Store` and change nothing. Only `deny` changes it, where a call is
//! refused with `NotYet`: a birth is given out, a wish kept, and one message sent.
//!
//! What holds: each check answers what it is about or the first reason against it (`Tells`), and
//! out of memory only where memory was refused.
//!
//! The definitions: `specs/Checks`, `Paths`, `Asking`, `Listing`, `Answer` (`Tells`, which ties the
//! program's results to the definitions'). The rules: docs/RULES.md, "Client calls", "Walks".
//!
//! A reason more: its variant in `pg_call`, its test in `specs/Checks` and `checks`, at its
//! number's place.
#![tactic(auto)]

mod asking;
mod call_error;
mod checks;
mod listing;
mod paths;

pub use asking::deny;
pub use call_error::CallError;
pub use checks::{
    Move, NewName, dir_at, empty_dir_at, file_at, in_time, move_of, new_name, target_at,
};
pub use listing::{dirs_of, last_cell, last_listing};
pub use paths::Paths;
pub use pg_lookup::ROOT;
