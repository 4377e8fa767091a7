//! In which order intentions begin, in all runs. Each law is a clause of a function that does
//! nothing.

ghost use Rattle.std.specs.Prelude.{ℕ};
ghost use Rattle.law_order.specs.Laws.{NamesAreById};
ghost use Rattle.law_turns.specs.Turns.{IntentionsBeginInTurn};

/// Behind each event the intentions that began stand behind the others, and behind the Byes and the
/// Leave that began: Patches, Fills, Seeks, Confirms, each kind by file, or by directory and child.
/// A Patch and a Fill ask who sent the event's message. A Seek asks the least live other server
/// whose flag is raised and whose replica of that birth no edge names, a Confirm the least whose
/// flag is raised in the directory's entry of the child. Where there is none each asks the least
/// live other server above this one, else the least of all, else nobody.
pub fn intentions_begin_in_turn()
    ensures { (servers : ℕ) → NamesAreById servers → IntentionsBeginInTurn servers }
{}
