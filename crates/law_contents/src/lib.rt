//! What holds of contents in any run: what servers hold is the state of the versions that they
//! took, whatever was lost, repeated or late.
//!
//! Of the laws come the clauses `merge`, `heads`, `determined`, `histories`, `one_version_a_stamp`,
//! `ancestry`, `carried` and `clock` of `run`, all of fewer than 2 ^ 32 servers. The statements
//! stand in `pg_run/specs/Histories` and `Laws`.
//!
//! - The proof goes up in layers, each a record over the one below: a file alone (`HoldsFile`,
//!   `proofs/Files`), a server alone (`Stands`, `proofs/Servers`), an input (`Arrives`,
//!   `proofs/Arrivals`), a world (`Sound`, `proofs/Worlds`), a run (`proofs/Runs`).
//! - Of a replica only its `Core` is seen (birth and content, `proofs/Changes`): a piece `Keeps`
//!   all cores, or `Alters` the one of one file. A field more of a replica changes little here.
//! - What a server took is a set of versions, told by its members (`proofs/Sets`). A fact on all
//!   files is shown of the file of the last version (`proofs/Histories`).
//! - What a server notes of versions agrees with whom it asked for them (`Agrees`,
//!   `proofs/Agreed`), unless the version is covered: so what a piece or a delta carries is told by
//!   the messages that were sent. Who is asked announced the version (`proofs/HarbingersCame`), and
//!   none is noted that is covered (`proofs/Opens`).
//! - Kept deltas are those of what was made and taken (`proofs/KeptRuns`): each piece tells how
//!   they go on (`KeptStep`, `proofs/KeptSteps`).
//! - Bodies on demand: a first effect that asks for nothing lets notes end only where they are
//!   covered (`Goes`, `proofs/Goings`); the five kinds of bodies have steps of their own
//!   (`proofs/AsksBodies`, `AsksEnding`).
//! - Premises: `StandOn` (`specs/Together`), of `law_order` and the laws on births and intentions.
//! - A new kind of message gets its line in `receive_arrives` (`proofs/Receiving`): where it brings
//!   no version and nothing begins, by a lemma `.._quiet` of `proofs/Handlers`; and its case of
//!   what a message carries, in `proofs/Carrying`.
#![tactic(auto)]

mod laws;

pub use laws::{
    clocks_end_first, contents_are_states, kept_deltas_are_latest, one_is_asked,
    runs_make_histories, sources_announced, states_are_heads,
};
