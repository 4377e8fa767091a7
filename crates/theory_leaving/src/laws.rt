//! What holds whenever an event is over. Each law is a clause of a function that does nothing.

ghost use Rattle.theory_leaving.specs.Laws.{ActsKeep, DropsLeaveAll, GoldsAreReliable, IdlesKeep, StartsHold};

/// What servers hold and send, as replicas that go see it.
pub trait Leaving {
    ghost use Rattle.theory_leaving.specs.Protocol.{Protocol};

    /// Moments of a run.
    type Moment;

    /// What a server holds.
    type Node;

    type Message;

    type Cell;

    ghost protocol: { Protocol Self.Moment Self.Node Self.Message Self.Cell };
}

/// At the start, where no replica went and each edge is named back, all holds that is kept.
pub fn starts_are_known<L: Leaving>()
    ensures { StartsHold L.protocol }
{}

/// Whatever one server does by the rule, an edge that its peer has heard of stays known at its
/// other end: it is named back there, or the replica there went and a Bye is owed. At such an edge
/// to a replica that went, its last own flag is known, and it was not raised. Lost, repeated and
/// late messages make no difference.
pub fn replicas_are_known<L: Leaving>()
    ensures acts { ActsKeep L.protocol }
    ensures idles { IdlesKeep L.protocol }
{}

/// Across a clean edge to a replica whose flag is seen raised, that replica is held, and has and
/// took every cell.
pub fn gold_can_be_relied_on<L: Leaving>()
    ensures { GoldsAreReliable L.protocol }
{}

/// A replica goes by leave of another that is held, and that has and took every cell of it.
pub fn drops_are_safe<L: Leaving>()
    ensures { DropsLeaveAll L.protocol }
{}
