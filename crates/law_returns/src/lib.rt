//! The gate: a server that knows a directory to be removed knows all that its remover knew of its
//! children. So a directory comes back only for children that the remover did not know.
//!
//! Of the laws comes the clause `justified` of `run`; the steps to it stand in `specs/Gate`, each a
//! clause of its own (`MessagesAreMindful`, `RemovedAreEmpty`, `GateStands`,
//! `ReturnsFindNewPlaces`).
//!
//! - `IsMindful`: what messages may say of dead directories, kept along runs in `proofs/Letters`.
//! - `IsGated` and `Brings`: of one directory and one removal, at one server. Before its maker
//!   makes it, a removal `IsUnknown` (`proofs/Begun`); from then on `proofs/Gated` keeps the gate,
//!   and `proofs/Gating` has it at one edge: the removal waits there for the entries.
//! - `proofs/Deaths` and `MadeDeaths` tell which event gives a directory a dead place, `HouseDirs`
//!   that the rules give none; `proofs/Lasting` and `Knowing` what stays so along a run.
//! - `specs/Returns`, `proofs/OfTakes`, `Staying` and `Justified` say it of what replicas took, in
//!   the midst of events too.
//! - Premises: `EdgesAreKept` (`specs/Gate`), and for what was taken `NamesStandOn` of `law_names`.
//!   It cites the passes of `law_full`, so a new kind of message enters there; here it has to be
//!   mindful (`proofs/Letters`), which is free for those that `is_plain` of `pg_run/proofs/Sends`
//!   names.
#![tactic(auto)]

mod laws;

pub use laws::{removals_are_gated, returns_are_justified};

// What the floors above name through this one.
pub use law_full as full;
pub use law_names as names;
