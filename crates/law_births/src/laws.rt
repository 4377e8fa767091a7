//! What holds of births along every run. Each law is a clause of a function that does nothing.

ghost use Rattle.std.specs.Prelude.{ℕ};
ghost use Rattle.pg_run.specs.Births.{BirthsAreAlone, BirthsAreKnown, BirthsAreOfOneThing, BirthsMoveInEvents, BirthsMoveOn, GoneSays, GreaterBirthsReplaceEdges, LinksNameTheSender, ReplicasStayOrGo};
ghost use Rattle.pg_run.specs.Going.{BirthsEndByLeave, ByesBeginWhereOneGoes, ByesEndByAnswers, EachPeerIsTold, EdgesGoByWord};
ghost use Rattle.pg_run.specs.Intending.{IntentionsAreInOrder};
ghost use Rattle.pg_run.specs.Leaving.{ByesAreOfOver};
ghost use Rattle.pg_run.specs.Ruled.{WhatGoesIsOver};

/// Of each thing a server has one birth at a time, of its replica or to come; it is the greatest
/// that the server gave out for the thing; and what was given out for one thing was given out for
/// no other.
pub fn births_are_alone()
    ensures alone { (servers : ℕ) → IntentionsAreInOrder servers → BirthsAreAlone servers }
    ensures apart { (servers : ℕ) → IntentionsAreInOrder servers
        → BirthsAreOfOneThing servers }
{}

/// What is held stays held with its birth, or the birth is over; and of two births of a peer the
/// greater has the edge; and who accepts a message that links its sender lists that from then on.
pub fn edges_follow_births()
    ensures greater { (servers : ℕ) → IntentionsAreInOrder servers
        → GreaterBirthsReplaceEdges servers }
    ensures sender { (servers : ℕ) → IntentionsAreInOrder servers
        → LinksNameTheSender servers }
{}

/// Each birth that is named, in edges, flags, what was made, and messages, was given out by its
/// server for its thing.
pub fn births_are_known()
    ensures { (servers : ℕ) → IntentionsAreInOrder servers → BirthsAreKnown servers }
{}

/// A birth that a server says is gone was given out by it for the thing; it does not have it, and
/// never has it again.
pub fn gone_stays_gone()
    ensures { (servers : ℕ) → IntentionsAreInOrder servers → GoneSays servers }
{}

/// Births move one way, within each event and along every run: one that is over stays over. A
/// replica that goes in an event leaves its birth over, and the thing not held. And a Bye is owed
/// of a birth that is over.
pub fn births_move_on()
    ensures events { (servers : ℕ) → IntentionsAreInOrder servers
        → BirthsMoveInEvents servers }
    ensures runs { (servers : ℕ) → IntentionsAreInOrder servers → BirthsMoveOn servers }
    ensures replicas { (servers : ℕ) → IntentionsAreInOrder servers
        → ReplicasStayOrGo servers }
    ensures byes { (servers : ℕ) → IntentionsAreInOrder servers → ByesAreOfOver servers }
{}

/// In each event an edge goes only where its peer said that its replica is not there, or is
/// removed, and a replica only with leave, which leaves its birth over. A Bye begins only where a
/// replica goes, of each of its edges, and ends only by its peer's answer, or where the peer is
/// removed.
pub fn events_of_leaving()
    ensures edges { (servers : ℕ) → IntentionsAreInOrder servers → EdgesGoByWord servers }
    ensures ends { (servers : ℕ) → IntentionsAreInOrder servers → BirthsEndByLeave servers }
    ensures over { (servers : ℕ) → IntentionsAreInOrder servers → WhatGoesIsOver servers }
    ensures begin { (servers : ℕ) → IntentionsAreInOrder servers
        → ByesBeginWhereOneGoes servers }
    ensures told { (servers : ℕ) → IntentionsAreInOrder servers → EachPeerIsTold servers }
    ensures answered { (servers : ℕ) → IntentionsAreInOrder servers
        → ByesEndByAnswers servers }
{}
