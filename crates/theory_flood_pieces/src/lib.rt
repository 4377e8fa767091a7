//! That each piece of an event keeps what edges promise, whatever the kind of a cell.
//!
//! `theory_flood` says what one server may do in an event so that an edge without unacknowledged
//! keys goes on to mean that the peer has every cell. Here each piece of which handlers are made
//! (`pg_pieces`, `pg_cells`, `pg_house`, the pieces of views and of replicas that begin and go) is
//! shown to be such a step, over the cells of all kinds at once. A law of runs (`law_acks`) then
//! only says which pieces its events are.
//!
//! The laws are clauses of the functions of `laws`, which do nothing: links leave every key
//! touched, changes touch what they change, cells that are sent are those that stand, answers are
//! taken by their tags alone, and tags stand at one slot.
//!
//! The definitions: `specs/Whole` (what the edges see of a store), `UpTo` (when one cell is up to
//! another), `Seen`, `Growing`, `Histories`, `Names`, `Laws`. The rules: docs/RULES.md, "What edges
//! keep".
//!
//! A piece more: a lemma that it is a step, in the file of its subject, and a field of
//! `specs/Laws`. A kind of cell more: a case of `specs/UpTo`, and of what `specs/Whole` sees at its
//! key.
#![tactic(auto)]

mod laws;

pub use laws::{
    answers_are_taken, cells_are_sound, cells_may_be_sent, changes_are_steps, links_are_steps,
    links_leave_whole, over_counts, servers_stay_whole, start_keeps_promises, what_comes_is_taken,
};
