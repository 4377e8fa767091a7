//! How replicas come to be and are filled, and how directories hear of children that moved. There
//! is one function for each message that asks for a replica, gives one, fills one, tells of a child
//! or confirms one, or says that nothing is here.
//!
//! A handler is made of the pieces of `pg_pieces` alone, and touches what they touch: the server's
//! `Store` and the event's `Work`. It may end an intention that its message answers, or have it ask
//! another server; none begins here (`pg_intentions`).
//!
//! What holds here:
//! - a replica begins where it was asked for, with the birth that was given out for it, and is
//!   filling until a peer says that it has nothing more;
//! - a replica that becomes full raises its flag where it sees few live golds, and so does a full
//!   one that is invited;
//! - an intention ends here only by an answer that fits it: a Patch by the stamp that was told, a
//!   Confirm where the directory has just the place that is told, or does not list the child;
//! - who asks a server that has nothing is told so, and asks the next.
//!
//! The definitions: `specs/Fetching`, `Granting`, `Filling`, `Telling`, `Confirming`, `NoneHere`,
//! each beside the module of its subject. The rules: docs/RULES.md, "How replicas come and are
//! filled", "How directories hear of children".
//!
//! A message more: its definition and its function in the module of its subject, a case in
//! `pg_server`, and a lemma on it in each law that walks over the handlers.
#![tactic(auto)]

mod confirming;
mod fetching;
mod filling;
mod granting;
mod telling;
mod turning;

pub use confirming::{confirm, own_entry, place_is};
pub use fetching::fetch;
pub use filling::{FEW_GOLDS, fill, full, invite, live_golds};
pub use granting::{gone, grant, no_grant};
pub use telling::{tell, tell_ok};
pub use turning::none_here;
