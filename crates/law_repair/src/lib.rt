//! The repair theorem: wherever a run is quiet, the graph of each thing of which one gold replica
//! stayed is connected.
//!
//! Of it come the clauses `kept`, `kept_agree`, `kept_tree`, `kept_listed` and `kept_back` of
//! `run`. `specs/Kept` has the definitions: the moments of a thing are its creation (`IsCreated`)
//! and each later quiet end of an event (`IsQuietBehind`); between neighbours one replica
//! `StaysGold`, and none `Forgets` the thing.
//!
//! - `AreAgreed` (`proofs/Agreed`) is the invariant between two moments: each live full replica
//!   knows the present flag of the one that stays gold, and so does each that is told to be full.
//!   `proofs/Keeping` keeps it.
//!   `proofs/Starts` and `Creating` have the first moment, `proofs/Walking` goes from one to the
//!   next, and `proofs/Joining` has that the graph is connected where all know that flag.
//! - `specs/Facts` has what is shown of single events: what becomes full was told so (`Filled`,
//!   `Said`), stays so (`Stays`), and a full gold replica makes no raised flag (`Made`,
//!   `Demoted`, `Raising`, `Settling`).
//! - `specs/Witness` and `proofs/Witness` try the definitions on runs, by computation.
//! - Premises: `StandOn` (`specs/Given`), of events, of what is held and known, and of quiet runs.
//!   It stands on the crates of golds, full replicas, drops and quiet, and may cite what these
//!   stand on.
//! - A new kind of message enters in `proofs/Made`, as one that raises no flag, and, if it tells a
//!   server that its replica is full, in `proofs/Filled` and `Said`.
#![tactic(auto)]

mod laws;

pub use laws::{
    full_replicas_come, full_replicas_stay, golds_raise_none, kept_runs_are_repaired,
    kept_things_are_connected, made_things_are_created, some_things_are_kept, starts_are_connected,
};

// What the floors above name through this one.
pub use law_golds as golds;
pub use law_golds::{births, contents};
pub use law_leaving as leaving;
pub use law_quiet as quiet;
pub use law_quiet::{listings, places};
