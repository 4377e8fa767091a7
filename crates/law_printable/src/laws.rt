//! What holds of all that is told of a run.

ghost use Rattle.std.specs.Prelude.{ℕ};
ghost use Rattle.law_printable.specs.Laws.{AnswersSuit, EntriesSuit, PlacesSuit};

/// After any events the entry of one more event of a schedule answers what was asked, tells of
/// versions of files, of places with names that they may have, and of each message what goes by its
/// kind; what the run waits for suits too, and the place of whatever a server holds.
pub fn entries_suit()
    ensures entries { (servers : ℕ) → EntriesSuit servers }
    ensures answers { (servers : ℕ) → AnswersSuit servers }
    ensures places { (servers : ℕ) → PlacesSuit servers }
{}
