//! What holds of removed directories along every run. Each law is a clause of a function that does
//! nothing.

ghost use Rattle.std.specs.Prelude.{ℕ};
ghost use Rattle.law_returns.specs.Gate.{EdgesAreKept, GateStands, MessagesAreMindful, RemovedAreEmpty, ReturnsFindNewPlaces};
ghost use Rattle.law_returns.specs.Returns.{DeadPlacesStay, TakesHaveOwnStamps};
ghost use Rattle.pg_run.specs.Laws.{NamesMerge, ReturnsAreJustified};
ghost use Rattle.law_names.specs.Merged.{NamesStandOn};

/// Where the edges of a run keep what they promise: no message grants a directory with a dead
/// place, but the blank one, or asks to confirm what is not listed; the remover of a directory
/// listed no child of it; its removal comes to a server only with all that the remover knew of the
/// children, unless the remover is removed in that server's view; and so, where a directory comes
/// back, each child that it lists has a place that the remover did not know, but for such a
/// remover. The last says it of what servers took, where that is what they know, in the midst of
/// events too.
pub fn removals_are_gated()
    ensures messages { (servers : ℕ) → EdgesAreKept servers → MessagesAreMindful servers }
    ensures empty { (servers : ℕ) → EdgesAreKept servers → RemovedAreEmpty servers }
    ensures gate { (servers : ℕ) → EdgesAreKept servers → GateStands servers }
    ensures places { (servers : ℕ) → EdgesAreKept servers → ReturnsFindNewPlaces servers }
    ensures takes { (servers : ℕ) → EdgesAreKept servers → NamesMerge servers
        → TakesHaveOwnStamps servers → DeadPlacesStay servers → ReturnsAreJustified servers }
{}

/// The places that a replica took of a thing have stamps of their own; a directory that has a dead
/// place while the house rules run had it behind the first effect, but for one whose maker is
/// removed; and so, where a directory comes back, no child that it lists had its place known to the
/// remover, unless that is removed in the view.
pub fn returns_are_justified()
    ensures stamps { (servers : ℕ) → NamesStandOn servers → TakesHaveOwnStamps servers }
    ensures dead { (servers : ℕ) → NamesStandOn servers → DeadPlacesStay servers }
    ensures justified { (servers : ℕ) → NamesStandOn servers
        → EdgesAreKept servers → ReturnsAreJustified servers }
{}
