//! Tests of one server in states that no run of the examples reaches.
//!
//! Runs that anyone can replay are files of `examples/`, and calls of single functions are rows
//! (`pg_leaf_rows`, `pg_text_rows`). What stands here needs neither: a store is made by hand, with
//! full directories or places that only a stranger's message could have brought, and one call is
//! made of it.
//!
//! - `refusals`: calls that are refused for what a store holds, each with its reason and with the
//!   store as it was;
//! - `lists`: what a store lends without memory: what stands where, what lists what, what is owed;
//! - `numbers`: messages whose numbers are as great as a message may have, and greater;
//! - `servers`: a server and what comes to it, as `lists` and `numbers` use them.
//!
//! Expected values come from docs/RULES.md, "Client calls", and never from the program. Each test
//! calls with ample memory: that a call answers something else than out of memory is shown by tests
//! alone.
//!
//! A store or a server is dear to hold over many ways out. So a function begins it and lends it to
//! one that looks at it, and what is looked for is asked at once.
//!
//! A test more: where a schedule of `examples/` can say it, it goes there, since a run costs no
//! proof.
#![tactic(auto)]

#[cfg(test)]
mod lists;
#[cfg(test)]
mod numbers;
#[cfg(test)]
mod refusals;
#[cfg(test)]
mod servers;
