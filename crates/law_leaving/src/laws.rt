//! What holds of replicas that go, along every run. Each law is a clause of a function that does
//! nothing.

ghost use Rattle.std.specs.Prelude.{ℕ};
ghost use Rattle.law_leaving.specs.Laws.{DropsLeaveAll};
ghost use Rattle.law_leaving.specs.Premises.{StandOn, StatesAreCited};
ghost use Rattle.pg_run.specs.Leaving.{ByesAreOver, DropsAreSafe, GiversHaveEachCell, HeardEdgesAreKnown, WhatWentIsOver};

/// What went is over; and so is each birth of which a Bye was sent, or heard.
pub fn what_went_is_over()
    ensures went { (servers : ℕ) → StandOn servers → WhatWentIsOver servers }
    ensures byes { (servers : ℕ) → StandOn servers → ByesAreOver servers }
{}

/// An edge that its peer has heard of is named back, or the replica there went and a Bye is owed;
/// unless the edge's server is removed in the peer's view.
pub fn heard_edges_are_known()
    ensures { (servers : ℕ) → StandOn servers → HeardEdgesAreKnown servers }
{}

/// A replica goes by leave of another server, that is not removed in the view of the one at which
/// it goes; and that server's replica, which the leave names, has every cell of the one that goes,
/// or one that tells more, and took what it tells of places, flags and entries.
pub fn drops_leave_all()
    ensures all { (servers : ℕ) → StandOn servers → DropsLeaveAll servers }
    ensures cells { (servers : ℕ) → StandOn servers → GiversHaveEachCell servers }
{}

/// The server that gave a replica leave to go took every update of the state of the one that goes:
/// place, flags and entries, and the versions with their ancestors.
pub fn drops_are_safe()
    ensures { (servers : ℕ) → StandOn servers → StatesAreCited servers → DropsAreSafe servers }
{}
