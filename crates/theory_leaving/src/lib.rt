//! Replicas that go: who has an edge to one, who may be relied on, and that a drop leaves all of it
//! with another. Whatever servers hold and send.
//!
//! It stands on the theory of edges (`theory_flood`), and adds births that end, own flags that rise
//! and are lowered, and which edges a server has heard of (`specs/Protocol`, `Moment`).
//! `specs/Rule` is what one event of one server may do; whatever keeps it keeps at all times: a
//! birth that is over is held nowhere, whoever has an edge to a replica is known to it, and a gold
//! replica that gave leave to go has all that the leaving one had.
//!
//! It knows nothing of what cells are, nor of directories. `law_leaving` shows that Pangaea's runs
//! keep the rule.
//!
//! The laws are clauses of the functions of `laws`: drops are safe, a gold replica can be relied
//! on, replicas are known.
//!
//! The definitions: `specs/Protocol`, `Moment`, `Rule`, `Laws`. The rules: docs/RULES.md, "Replicas
//! that go".
//!
//! An event more that touches births or flags: its case of `Rule`'s record, in `law_leaving`.
#![tactic(auto)]

mod laws;

pub use laws::{
    Leaving, drops_are_safe, gold_can_be_relied_on, replicas_are_known, starts_are_known,
};
