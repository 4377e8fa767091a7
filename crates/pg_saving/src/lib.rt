//! What a server holds, saved in the slots of its name, and loaded again.
//!
//! `saving` saves a store, with the number of the log's entries that are folded in it, where it has
//! a spelling and a number is left for a slot; else nothing is done, and whoever serves goes on
//! without. `loading` loads it again where it is usable over a log of so many entries.
//!
//! It joins three crates: the slots of `pg_checkpoint`, in which a state is bytes; the spelling of
//! a state (`pg_state`); and its reading (`pg_state_read`), with the law that what was written is
//! read again (`law_states`). It touches the files 1 and 2 of the chosen name, and never the log:
//! that a state is the fold of a log's first entries is for whoever serves.
//!
//! Slots may be a stranger's. What is loaded is fixed by what the slots load to, whatever they are
//! (`usable`), and a store that is loaded has a spelling again (`IsUsable`).
//!
//! Definitions: `specs/Usable` (which checkpoint a server goes on with) and `specs/Saves` (what
//! becomes of the slots). docs/RULES.md: "Checkpoints". A further condition on a loaded state is a
//! test of `is_of`, here and there.
#![tactic(auto)]

mod loading;
mod saving;

pub use loading::{Checkpoint, load_state};
pub use saving::save_state;
