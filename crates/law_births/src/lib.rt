//! Births: of each thing a server has one at a time, and whoever names one names one that was given
//! out.
//!
//! Of the laws come the clauses `known`, `one_birth_at_a_time`, `births_of_one_thing`, `edges`,
//! `linked` and `told` of `run`. That births move one way, and why edges, replicas and Byes come
//! and go, is for `law_leaving` and `law_repair`. The statements stand in `pg_run/specs/Births`,
//! `Going` and `Ruled`.
//!
//! - `Moves` (`proofs/Moving`) leads from a server's store to a later one: births are given out,
//!   edges go to greater ones. Its parameter `Why` is what has to hold where an edge or a replica
//!   goes, so that a law on the reason needs no second pass.
//! - `IsAlone` (`proofs/Has`): one birth a thing, of its replica or to come, the greatest given
//!   out.
//! - `SaysStore` and `SaysNames` (`specs/Flags`) say any property of all flags and births that a
//!   server knows; `IsSaid` (`proofs/Saying`) says it of an answer. `law_golds` stands on them too.
//! - `proofs/ByeKeys`, `ByeEvents` and `Owing` look at the key of one Bye: what an event leaves
//!   there.
//! - Premises: `IntentionsAreInOrder`; what `law_order` gives is cited in `proofs/Given`.
//! - Messages and calls go by the walks of `law_frame`: `proofs/Handlers`, `Received`, `Unmade` and
//!   `ByeKeys` say what each piece of a message keeps, `Calls`, `FineCalls` and `ByeCalls` of a
//!   call. A new kind of message that goes along an edge gets its line in
//!   `along_named` (`proofs/Mails`), and one that links its sender another in `linking_named`.
#![tactic(auto)]

mod laws;

pub use laws::{
    births_are_alone, births_are_known, births_move_on, edges_follow_births, events_of_leaving,
    gone_stays_gone,
};
