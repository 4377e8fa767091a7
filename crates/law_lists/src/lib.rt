//! Directories that come back, in all runs: who does lists a child, and none does in the event that
//! removes it.
//!
//! A house rule brings a directory back where its own place is dead and it lists a child.
//! `law_returns` says that this child was not known to the remover; here stands that there is one,
//! by what the server's replicas took up to that update (the clause `returns_list` of `run`), and
//! that in the event of an rmdir the rules make no place of the directory that it removed
//! (`removal_stays`). The statements stand in `specs/Laws`.
//!
//! - `IsReasoned` (`proofs/Reasons`) of one update that the rules make, `AreReasoned` of all, each
//!   by what was taken by then. `proofs/Returning` keeps it from rule to rule, beside `Stands` of
//!   `law_passing`: what is known is what was taken, and all has passed.
//! - `IsGone` (`proofs/Staying`) of names in which one directory was removed, and nothing else
//!   changed. All others have passed, no dead directory lists a child, so none comes back; and what
//!   stands in a cycle is live (`Rests`). `proofs/Removing` has that an rmdir leaves names so.
//! - `proofs/Behind`: behind the first effect of an event comes what one run of the rules makes,
//!   and then flags alone.
//! - Premises: `NamesStandOn` of `law_names`, and of `law_order` that names are in order, and that
//!   first effects are whole and by id.
//! - A new house rule gets a line beside `return_follows` and `moved_rests`. A new kind of message
//!   costs nothing here.
#![tactic(auto)]

mod laws;

pub use laws::{removals_stay, returns_list_a_child};
