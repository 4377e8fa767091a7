//! What holds of directories that come back. Each law is a clause of a function that does nothing.

ghost use Rattle.std.specs.Prelude.{ℕ};
ghost use Rattle.pg_run.specs.Laws.{HouseIsInOrder};
ghost use Rattle.law_lists.specs.Laws.{RemovalsStay, ReturnsList};
ghost use Rattle.law_names.specs.Merged.{NamesStandOn};
ghost use Rattle.law_order.specs.Laws.{FirstEffectsAreOrdered, FirstEffectsAreWhole, ServersAreWhole};

/// Where the house rules make a place of a thing whose own place is dead by then, the thing lists a
/// child at that moment: one whose place is live, and in this directory.
pub fn returns_list_a_child()
    ensures { (servers : ℕ) → NamesStandOn servers → FirstEffectsAreOrdered servers
        → ReturnsList servers }
{}

/// In the event in which a client's rmdir makes a directory's dead place, the house rules make no
/// place of this directory.
pub fn removals_stay()
    ensures { (servers : ℕ) → HouseIsInOrder servers → ServersAreWhole servers
        → FirstEffectsAreWhole servers → FirstEffectsAreOrdered servers → RemovalsStay servers }
{}
