//! What holds of changes of bodies in all runs. Each law is a clause of a function that does
//! nothing.

ghost use Rattle.std.specs.Prelude.{ℕ, ◌<◌, ◌^◌};
ghost use Rattle.law_contents.specs.Together.{StandOn};
ghost use Rattle.pg_run.specs.Deltas.{WantsGetTheShortestChange};
ghost use Rattle.law_ticks.specs.Given.{TidinessIsGiven};

/// A Want for a head from its first byte on is answered by a Delta exactly where a chain of the
/// deltas that the replica made or took, as far as it keeps them, leads from just the heads that it
/// names, and its ranges in one are few and small enough; else by the first bytes of the body.
/// Nothing else is sent.
pub fn wants_get_the_shortest_change()
    ensures { (servers : ℕ) → servers < 2 ^ 32 → StandOn servers → TidinessIsGiven servers
        → WantsGetTheShortestChange servers }
{}
