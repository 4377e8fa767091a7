//! What each replica took, in all runs. Each law is a clause of a function that does nothing.

ghost use Rattle.std.specs.Prelude.{ℕ};
ghost use Rattle.law_took.specs.Takers.{ReplicasTookWhatCame};

/// A place or flag of a thing that a replica took came to just this replica, or another replica at
/// its server had it, since the replica last went; and each that came to a replica since it last
/// went it has.
pub fn replicas_took_what_came()
    ensures { (servers : ℕ) → ReplicasTookWhatCame servers }
{}
