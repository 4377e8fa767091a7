//! That what a server knows of names is what its replicas took.
//!
//! Of it comes the clause `names` of `run` (`NamesMerge`): after any events a server holds just the
//! things of which a replica began there, each with the latest place and the newest flags that it
//! took, and each directory has so of its children. Passing is included, and what is held back.
//!
//! - `Goes` (`specs/Goes`) is a server in the midst of an event, `IsMerged` (`specs/Merged`) one of
//!   a run, `AreMerged` all. What other laws say of one world is `StandsOn`, of all runs
//!   `NamesStandOn`: what is carried is known, stamps and numbers are each server's own, new ids
//!   are new.
//! - Each piece is shown to keep `Goes`, with the takes that it adds: `proofs/Comes` and `Entries`
//!   what comes, `Beginning` and `Patched` what begins, `Making` what is made, `Gone` what goes
//!   with all that it took; `Settling` has the house rules, by `law_passing`.
//! - `proofs/Notes` has which pieces make nothing and leave names as they were: these need no more.
//!   What comes about bodies of versions is of these too (`proofs/Bodies`), and a version that is
//!   taken.
//! - `proofs/Sources`: what is taken was made, or was there at the start; so `AreApart` holds.
//! - `law_passing` is cited, and no other law: the rest comes by `NamesStandOn`.
//! - A new kind of message gets its line in `message_goes` (`proofs/Messages`): what it carries
//!   (`carried`) is what is known more then. If it carries nothing, a line of `proofs/Notes` does.
#![tactic(auto)]

mod laws;

pub use laws::names_are_what_was_taken;
