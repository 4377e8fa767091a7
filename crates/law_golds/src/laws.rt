//! What holds of flags along every run. Each law is a clause of a function that does nothing.

ghost use Rattle.std.specs.Prelude.{ℕ};
ghost use Rattle.law_contents.specs.Together.{HoldBoth};
ghost use Rattle.law_golds.specs.Laws.{FlagsAreKnown};
ghost use Rattle.law_golds.specs.Premises.{FirstEffectsAreWhole, NextIdsAreAway};
ghost use Rattle.law_frame.specs.pg_run.Births.{BirthsAreAlone, BirthsAreKnown, BirthsMoveInEvents};
ghost use Rattle.law_frame.specs.pg_run.Going.{FlagsAreMadeWhereHeld};
ghost use Rattle.law_frame.specs.pg_run.Grown.{EventsGrow};
ghost use Rattle.law_frame.specs.pg_run.Known.{FlagsAreOwn, FlagsHaveOwnNumbers};
ghost use Rattle.law_frame.specs.pg_run.Golds.{FullReplicasSeeGold, ReplicasNameGolds};
ghost use Rattle.law_frame.specs.pg_run.Intending.{IntentionsAreInOrder};
ghost use Rattle.law_frame.specs.pg_run.Views.{ViewsArePrefixes};

/// Each flag of a thing, wherever it is known, is its server's own flag, or an earlier one of the
/// same birth, or its birth is over: no two of them have one number. And it was made in the run, by
/// its server, which had a replica of this birth then, or was there at the start.
pub fn flags_are_own()
    ensures own { (servers : ℕ) → HoldBoth servers → EventsGrow servers
        → BirthsMoveInEvents servers → FirstEffectsAreWhole servers
        → NextIdsAreAway servers → FlagsAreOwn servers }
    ensures numbers { (servers : ℕ) → HoldBoth servers → EventsGrow servers
        → BirthsMoveInEvents servers → FirstEffectsAreWhole servers
        → NextIdsAreAway servers → FlagsHaveOwnNumbers servers }
    ensures known { (servers : ℕ) → HoldBoth servers → EventsGrow servers
        → BirthsMoveInEvents servers → FirstEffectsAreWhole servers
        → NextIdsAreAway servers → FlagsAreKnown servers }
    ensures made { (servers : ℕ) → HoldBoth servers → EventsGrow servers
        → BirthsMoveInEvents servers → FirstEffectsAreWhole servers
        → NextIdsAreAway servers → FlagsAreMadeWhereHeld servers }
{}

/// After every event each full replica sees a live gold: one of the flags that its server knows of
/// the thing is raised, and is of no removed server.
pub fn golds_are_seen()
    ensures { (servers : ℕ) → ViewsArePrefixes servers → BirthsAreKnown servers
        → BirthsAreAlone servers → FullReplicasSeeGold servers }
{}

/// After every event a gold replica has an edge to each live gold of another server that it sees,
/// or a Seek of the thing stands; and any other replica has an edge to some live gold that it sees,
/// or a Seek stands.
pub fn golds_are_named()
    ensures { (servers : ℕ) → IntentionsAreInOrder servers → ReplicasNameGolds servers }
{}
