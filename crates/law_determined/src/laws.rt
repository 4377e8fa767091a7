//! What names depend on, in any run.

ghost use Rattle.std.specs.Prelude.{ℕ};
ghost use Rattle.law_determined.specs.Determined.{NamesAreDetermined};
ghost use Rattle.law_names.specs.Merged.{NamesStandOn};

/// Two servers whose replicas of a thing took the same updates, in whatever order and however
/// often, have the same place of it, the same flags and, of a directory, the same entry of each
/// child: behind the same events, and behind any two lists of events.
pub fn names_are_determined()
    ensures { (servers : ℕ) → NamesStandOn servers → NamesAreDetermined servers }
{}
