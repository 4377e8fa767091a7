//! What holds of all runs. Each law is a clause of a function that does nothing.

ghost use Rattle.std.specs.Prelude.{ℕ};
ghost use Rattle.law_acks.specs.Histories.{HaveHistories, HoldHistories};
ghost use Rattle.law_acks.specs.Laws.{RunsKeepEdges, RunsStayWhole, StandOn};
ghost use Rattle.pg_run.specs.Acknowledged.{AcknowledgedKeysAreHad};
ghost use Rattle.pg_run.specs.Grown.{EventsGrow, RunsGrow};
ghost use Rattle.pg_run.specs.Ruled.{EventsKeepTheRule};

/// The heads of each replica are versions of its file's history, and it has the policy of the file.
pub fn contents_are_of_histories()
    ensures { (servers : ℕ) → HaveHistories servers → HoldHistories servers }
{}

/// Where a key is acknowledged the peer's replica has its cell, or its birth is over, and each
/// message ever sent keeps its promise, since each event keeps the rule of the edges; and every
/// edge is to another server.
pub fn runs_keep_edges()
    ensures edges { (servers : ℕ) → StandOn servers → RunsKeepEdges servers }
    ensures whole { (servers : ℕ) → StandOn servers → RunsStayWhole servers }
    ensures had { (servers : ℕ) → StandOn servers → AcknowledgedKeysAreHad servers }
    ensures acts { (servers : ℕ) → StandOn servers → EventsKeepTheRule servers }
{}

/// What a server holds it holds on: replicas with their births, and of all that is known as much or
/// more, within an event and after any more events; until the birth is over.
pub fn runs_grow()
    ensures runs { (servers : ℕ) → StandOn servers → RunsGrow servers }
    ensures events { (servers : ℕ) → StandOn servers → EventsGrow servers }
{}
