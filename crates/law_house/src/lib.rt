//! The house rules in other words than their loop, and in all runs.
//!
//! `house` (`pg_house/specs/House`) runs each rule so many times, in one order. Here stands what it
//! is for. The rules go by single steps (`specs/Steps`): each is of the lowest rule that applies,
//! to the least id to which it does, until none applies; and no other end is reached so. A new
//! place that a rule makes is one step, its passing the next. Who moves where directories stand in
//! each other is the least of the latest members of all cycles (`specs/Standing`), a cycle being
//! live held directories, each of which stands in the next. So it is behind the first effect of
//! each event of a run (`specs/Runs`): the clause `by_steps` of `run`.
//!
//! - `proofs/Climbing`, `Moving`: steps up come round by no more steps than there are directories
//!   (`Pigeons` of `pg_run`), so the latest of so many is the latest of its cycle.
//! - `proofs/Deciding`: passing changes nothing, or something that can be told. `Walking`: things
//!   pass by id, each in one step or in none. `Placing`: only what got a new place passes behind
//!   it.
//! - `proofs/Returning`, `Breaking`, `Ending`: each turn of the loop is one or two steps. `Drawn`:
//!   the stamp of a new place is the next, and the test of a dead place says what `Returns` says.
//! - `proofs/Running`: names are fit for the rules behind the first effect of an event.
//! - Premises: of names, what the laws of `pg_house` ask for, and that things are by id (`AreFit`);
//!   of runs, what `law_order` says of first effects.
//! - A new house rule gets a record beside `IsReturn`, a case of `IsStep`, and its line in
//!   `one_way`, which says that of one state there is one step.
#![tactic(auto)]

mod laws;

pub use laws::{house_goes_by_steps, rules_go_by_steps, who_moves};
