//! What holds of full replicas along every run. Each law is a clause of a function that does
//! nothing.

ghost use Rattle.std.specs.Prelude.{ℕ};
ghost use Rattle.law_full.specs.Filled.{FullPlaced, FullSays};
ghost use Rattle.law_frame.specs.pg_run.Acknowledged.{AcknowledgedKeysAreHad};
ghost use Rattle.law_frame.specs.pg_run.Births.{BirthsMoveInEvents};
ghost use Rattle.law_frame.specs.pg_run.Grown.{EventsGrow};
ghost use Rattle.law_frame.specs.pg_run.Known.{CarriedIsKnown, PlacesHaveOwnStamps};

/// Where peers have what they acknowledged, servers lose nothing that they hold unless a replica
/// goes, and no two places of a thing have one stamp: each full replica but the root's has a place
/// that is not the blank one; and a server that is told that its replica is full holds it, with the
/// birth that was asked for and with such a place, or that birth is over.
pub fn full_replicas_have_places()
    ensures placed { (servers : ℕ) → AcknowledgedKeysAreHad servers → EventsGrow servers
        → BirthsMoveInEvents servers → CarriedIsKnown servers
        → PlacesHaveOwnStamps servers → FullPlaced servers }
    ensures said { (servers : ℕ) → AcknowledgedKeysAreHad servers → EventsGrow servers
        → BirthsMoveInEvents servers → CarriedIsKnown servers
        → PlacesHaveOwnStamps servers → FullSays servers }
{}
