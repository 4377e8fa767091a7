//! What holds in every run. Each law is a clause of a function that does nothing.

ghost use Rattle.theory_bodies.specs.Laws.{ADeltaMakesTheVersion, EventsKeep, NotesGoOnToAgree, SentDeltasLead, TheTagIsAHarbingers, WhatComesIsTheVersion, WhatIsAskedIsNoted};

/// What servers hold and send, as bodies see it.
pub trait Bodies {
    ghost use Rattle.theory_bodies.specs.Protocol.{Protocol};

    /// What a server holds.
    type Node;

    type Message;

    /// What of them tells of bodies, is noted and is held.
    ghost protocol: { Protocol Self.Node Self.Message };
}

/// What is told of versions and bodies, noted and held is so by the histories, behind each event of
/// servers that keep the rule. Lost, repeated and late messages make no difference.
pub fn events_keep<B: Bodies>()
    ensures { EventsKeep B.protocol }
{}

/// A version that comes whole, or whose last bytes come, is the version that was made.
pub fn what_comes_is_the_version<B: Bodies>()
    ensures { WhatComesIsTheVersion B.protocol }
{}

/// What the ranges of a delta make of what is shown is the version that was made, where the heads
/// are just those that the delta starts from.
pub fn a_delta_makes_the_version<B: Bodies>()
    ensures { ADeltaMakesTheVersion B.protocol }
{}

/// Where something is computed to be sent of kept deltas, they lead there by it.
pub fn sent_deltas_lead()
    ensures { SentDeltasLead }
{}

/// A server that is asked for a version announced it to the one that asks, under the tag that will
/// be acknowledged.
pub fn the_tag_is_a_harbingers<B: Bodies>()
    ensures { TheTagIsAHarbingers B.protocol }
{}

/// What is noted of a version agrees with what was asked for it last, unless the version is
/// covered: so who is asked by a note, and from which byte on, is told by the messages that were
/// sent.
pub fn notes_agree_with_what_was_asked()
    ensures on { NotesGoOnToAgree }
    ensures noted { WhatIsAskedIsNoted }
{}
