//! What holds of the contents of files after any events, of servers at which names and replicas go
//! together.

ghost use Rattle.std.specs.Prelude.{ℕ, ◌<◌, ◌^◌};
ghost use Rattle.law_contents.specs.Together.{StandOn};
ghost use Rattle.pg_run.specs.Bodies.{OneIsAskedAtATime};
ghost use Rattle.pg_run.specs.Deltas.{KeepsWhatItMadeOrTook};
ghost use Rattle.pg_run.specs.Histories.{AncestryByVectors, CarriesHistory, ClockEndsFirst, HistoryIsWhatWasMade, MakesHistories, OneVersionAStamp, StateIsDetermined, StateIsItsHeads};
ghost use Rattle.pg_run.specs.Laws.{HoldsWhatItTook};
ghost use Rattle.pg_run.specs.Noted.{SourcesAnnounced};

/// What a server holds of a file's content is the state of exactly the versions that it took,
/// whatever was lost, repeated or late.
pub fn contents_are_states()
    ensures { (servers : ℕ) → servers < 2 ^ 32 → StandOn servers → HoldsWhatItTook servers }
{}

/// The state of what a server took is its heads, whole, and does not depend on the order in which
/// they came.
pub fn states_are_heads()
    ensures heads { (servers : ℕ) → servers < 2 ^ 32 → StandOn servers → StateIsItsHeads servers }
    ensures determined { (servers : ℕ) → servers < 2 ^ 32 → StandOn servers
        → StateIsDetermined servers }
{}

/// The versions of a file are a history, no two of which have one stamp; it has just the versions
/// that entries tell of. A version's vector tells its ancestors, and each message that was ever
/// sent and carries a version carries one of the history, as it is there; a grant names the policy
/// of its file.
pub fn runs_make_histories()
    ensures histories { (servers : ℕ) → servers < 2 ^ 32 → StandOn servers
        → MakesHistories servers }
    ensures one { (servers : ℕ) → servers < 2 ^ 32 → StandOn servers → OneVersionAStamp servers }
    ensures told { (servers : ℕ) → HistoryIsWhatWasMade servers }
    ensures ancestry { (servers : ℕ) → servers < 2 ^ 32 → StandOn servers
        → AncestryByVectors servers }
    ensures carried { (servers : ℕ) → servers < 2 ^ 32 → StandOn servers
        → CarriesHistory servers }
{}

/// Numbers of versions never end before the clock does.
pub fn clocks_end_first()
    ensures { (servers : ℕ) → servers < 2 ^ 32 → StandOn servers → ClockEndsFirst servers }
{}

/// A server that is asked for a version, which another one notes, announced it to that one: just
/// that version, under just the tag that is noted.
pub fn sources_announced()
    ensures { (servers : ℕ) → servers < 2 ^ 32 → StandOn servers → SourcesAnnounced servers }
{}

/// The deltas that a replica keeps are the latest of those of the versions that it made, or took as
/// a change of just its heads.
pub fn kept_deltas_are_latest()
    ensures { (servers : ℕ) → servers < 2 ^ 32 → StandOn servers
        → KeepsWhatItMadeOrTook servers }
{}

/// While the last Want of a server for a version counts, it sends none for it to another server.
pub fn one_is_asked()
    ensures { (servers : ℕ) → servers < 2 ^ 32 → StandOn servers → OneIsAskedAtATime servers }
{}
