//! What holds of Confirms in all runs. Each law is a clause of a function that does nothing.

ghost use Rattle.std.specs.Prelude.{ℕ};
ghost use Rattle.law_confirms.specs.Confirms.{ConfirmsBeginAndStay};
ghost use Rattle.law_listings.specs.Laws.{ListingsStandOn};

/// Behind each event, of a child that a directory lists and that is not held beside it a Confirm
/// stands where its place came in the event, or one stood before, unless the event's message told
/// the place for sure; and where a further view was entered one stands in any case.
pub fn confirms_begin_and_stay()
    ensures { (servers : ℕ) → ListingsStandOn servers → ConfirmsBeginAndStay servers }
{}
