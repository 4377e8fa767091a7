//! Behind the house rules what a server knows of names is settled, as the listings ask; and what
//! the rules do to it on the way.
//!
//! `theory_listing` asks of a server, behind each event, that cells, own places and what is noted
//! fit each other. Here it is shown of `house`, whatever the names were before: own places and
//! cells only grow, each live place that is replaced is noted, what is not held stays so, and from
//! each directory one climbs out of the live directories.
//!
//! It stands on the definitions of the house rules and of the listings, and on no message and no
//! run. `law_listings` and `law_intents` read it.
//!
//! The laws are clauses of the functions of `laws`, each about `house` as a whole: second parts of
//! an event, in the words of the listings.
//!
//! The definitions: `specs/Listing` (what the listings see of names), `Second`, `Laws`. The rules:
//! docs/RULES.md, "House rules", "Listings".
//!
//! A house rule more: a lemma that its step is a second part, in `proofs/Second` and `Later`.
#![tactic(auto)]

mod laws;

pub use laws::{
    Keeping, cells_grow, climbs_come_out, own_places_grow, parents_at_start, replaced_are_noted,
    rules_are_second_parts, settled_behind, unheld_stay,
};
