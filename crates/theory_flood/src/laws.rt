//! What holds wherever nothing is owed, and what may be answered late. Each law is a clause of a
//! function that does nothing.

ghost use Rattle.theory_flood.specs.Laws.{ConnectedAgree, LinkedAgree};
ghost use Rattle.theory_flood.specs.Noting.{EarlyIsLate, LateAnswersKeep};

/// What servers hold and send, as the edges see it.
pub trait Flooding {
    ghost use Rattle.theory_flood.specs.Protocol.{Protocol};

    type Node;

    type Message;

    type Cell;

    ghost protocol: { Protocol Self.Node Self.Message Self.Cell };
}

/// Where no message is under way and no key is unacknowledged, two replicas that name each other
/// hold the same, up to what the protocol takes for the same.
pub fn linked_agree<F: Flooding>()
    ensures { LinkedAgree F.protocol }
{}

/// Where no message is under way and no key is unacknowledged, two replicas hold the same, up to
/// what the protocol takes for the same, if a chain joins them of replicas that name each other.
pub fn connected_agree<F: Flooding>()
    ensures { ConnectedAgree F.protocol }
{}

/// Where all messages that were ever sent keep their promises, an event may answer what any of them
/// said, and edges and messages keep what they promise.
pub fn late_answers_keep<F: Flooding>()
    ensures { LateAnswersKeep F.protocol }
{}

/// A server that answers at once what it heard keeps the rule of late answers too.
pub fn early_is_late<F: Flooding>()
    ensures { EarlyIsLate F.protocol }
{}
