//! What holds in every run, and what follows wherever nothing is owed. Each law is a clause of a
//! function that does nothing.

ghost use Rattle.theory_listing.specs.Laws.{QuietLists, QuietTree, RunsKeep, RunsList};
ghost use Rattle.theory_listing.specs.Parts.{PartsAreSteps, PlacesAreKnown};

/// What servers hold and send, as directories see it.
pub trait Listing {
    ghost use Rattle.theory_listing.specs.Protocol.{Protocol};

    /// What a server holds.
    type Node;

    /// Files and directories.
    type Thing;

    type Place;

    /// Of two places of a thing the one with the later stamp counts.
    type Stamp;

    ghost protocol: { Protocol Self.Node Self.Thing Self.Place Self.Stamp };
}

/// Behind each event of each run, of servers that step by the rule, a child that a directory lists
/// and that is not held beside it is asked after, or it is known where it is; and every message
/// that was sent keeps what it promises. Lost, repeated and late messages make no difference.
pub fn runs_keep<F: Listing>()
    ensures { RunsKeep F.protocol }
{}

/// Where this is so and nothing is owed, each survivor is listed by its parent, with its place, and
/// by no other directory, and nothing else is listed.
pub fn quiet_lists<F: Listing>()
    ensures { QuietLists F.protocol }
{}

/// At each quiet moment of each run, each survivor is listed by its parent, with its place, and by
/// no other directory, and nothing else is listed.
pub fn runs_list<F: Listing>()
    ensures { RunsList F.protocol }
{}

/// Where also the house rules have run, the survivors are a tree below the root, and their parents
/// are live.
pub fn quiet_tree<F: Listing>()
    ensures { QuietTree F.protocol }
{}

/// A handler and the house rules behind it, each with facts of its own, make a step by the rule
/// (`steps`); and the place that the handler left may be told at the end (`places`).
pub fn parts_are_steps<F: Listing>()
    ensures steps { PartsAreSteps F.protocol }
    ensures places { PlacesAreKnown F.protocol }
{}
