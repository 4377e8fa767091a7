//! Where the children are that directories list, whatever servers hold and send: at a quiet moment
//! each thing is listed at its own place, and nowhere else.
//!
//! Servers, files, places and stamps are parameters (`specs/Protocol`). A server may list a child
//! that it does not hold; what it then knows, or is told, or has asked for, is what `specs/Rule`
//! asks of it behind each event, and `specs/Promises` of each message that was ever sent. Whatever
//! keeps both keeps them along any run, with losses, drops and servers that are given up; and where
//! nothing is owed, each listed child is where its own place says, and the live directories are a
//! tree.
//!
//! It has no code of Pangaea below it. `theory_listing_house` ties it to the house rules,
//! `law_listings` to runs.
//!
//! The laws are clauses of the functions of `laws`: parts of events are steps, runs keep the rule,
//! quiet moments list rightly.
//!
//! The definitions: `specs/Protocol`, `World`, `Rule`, `Promises`, `Parts`, `Runs`, `Laws`. The
//! rules: docs/RULES.md, "Listings".
//!
//! A message more about a child's place: a word of `World.Saying`, its promise, and its case in
//! `Parts`.
#![tactic(auto)]

mod laws;

pub use laws::{Listing, parts_are_steps, quiet_lists, quiet_tree, runs_keep, runs_list};
