//! What holds of servers that are not live, in all runs. Each law is a clause of a function that
//! does nothing.

ghost use Rattle.std.specs.Prelude.{ℕ};
ghost use Rattle.law_rests.specs.Rests.{NoneIsUnderWayToRemoved, RemovedServersRest};
ghost use Rattle.pg_run.specs.Views.{MessagesAreSentInView};

/// A server that is not live takes nothing more, whatever events follow: its store, what its
/// replicas took, and whom it asked stay as they were, and no entry tells of an effect of it
/// (`rests`). No message to a removed server is under way (`none`).
pub fn removed_servers_rest()
    ensures rests { (servers : ℕ) → MessagesAreSentInView servers → RemovedServersRest servers }
    ensures none { (servers : ℕ) → NoneIsUnderWayToRemoved servers }
{}
