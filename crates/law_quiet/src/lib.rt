//! That wherever a run is quiet all servers agree, and what follows of names.
//!
//! Of the laws come the clauses `joined`, `agree`, `tree`, `listed` and `no_dead_parent` of `run`.
//! Quiet is that no message is under way, each live server has entered the last removal, and none
//! owes anything (`IsQuiet`, `pg_run/specs/Quiet`). The statements stand in `pg_run/specs/Laws`,
//! and `QuietStoresAgree`, from which the others are drawn, in `specs/Laws`.
//!
//! - `proofs/Across`: where a server owes nothing, a peer that has an edge has all that it holds of
//!   the thing, or more. `Agreement` has it both ways along joined edges, so that by `Alike` both
//!   hold the same.
//! - `Facts` (`proofs/Facts`) is what is known of a quiet world whose graphs are connected. On it
//!   stand `Standing` (each thing has the place that its parent has of it), `WhatIsListed` and
//!   `Trees`.
//! - `proofs/Servers` turns what is held into what was taken, by `NamesMerge`, for the words of the
//!   laws.
//! - Premises: `AgreementIsGiven` and `TreeIsGiven` (`specs/Given`), what other laws say of each
//!   server; that graphs are connected is a premise of the statements, which `law_repair` meets for
//!   kept things.
//! - It has no events and no induction: a new kind of message costs nothing here. It has to fit
//!   what is owed and under way (`pg_run/specs/Quiet`), and `law_acks` and `law_listings` have to
//!   hold of it.
#![tactic(auto)]

mod laws;

pub use laws::{quiet_names_form_a_tree, quiet_servers_agree, quiet_stores_agree};

// What the floors above name through this one.
pub use law_listings as listings;
pub use law_listings::places;
