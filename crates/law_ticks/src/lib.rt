//! What a tick sends in a run and what a restart does, and what a run waits for.
//!
//! Of the laws comes the clause `owed` of `run`. What a world is told to wait for is the first of
//! its causes; each key that is owed has a cell; and no house rule applies after any events: these
//! are laws of their own. The statements stand in `specs/Laws` and `pg_run/specs/Ticks`.
//!
//! - `AllHaveCells` (`proofs/KeysCells`) is the invariant of one server: each key on an edge has a
//!   cell. `KeysLinks`, `KeysVersions` and `KeysRuns` have it of edges that are made, of versions,
//!   and of runs; `Touches` (`proofs/Keyed`) what the house rules touch, whatever was touched
//!   before.
//! - `OutlivesPieces` (`proofs/Pieces`) takes any property of a store that each piece of an event
//!   keeps, and gives it behind every message, call (`proofs/Called`) and end of an event
//!   (`proofs/Intended`), by the walks of `law_frame`.
//! - `proofs/FirstCause` is on worlds alone, with no run; `proofs/Ticks` joins what
//!   `pg_run/proofs/Ticks` has of one tick with what other laws say of its server.
//! - Premises: `TidinessIsGiven` (`specs/Given`), of the house rules, order, golds, intentions and
//!   whole servers. No crate of laws is cited.
//! - A new kind of key gets its cell in `proofs/KeysCells`.
#![tactic(auto)]

mod laws;

pub use laws::{
    first_cause_is_told, keys_have_cells, no_rule_applies, restarts_lose_wishes,
    ticks_send_what_is_owed,
};
