//! What holds of intentions that begin, in all runs. Each law is a clause of a function that does
//! nothing.

ghost use Rattle.std.specs.Prelude.{ℕ};
ghost use Rattle.law_begins.specs.Confirms.{ConfirmsBeginOnly};

/// A Confirm that stands behind an event, and did not stand before it, began because the event
/// entered a further view, or because a cell brought the directory a later place of the child, of
/// which its sender was not sure.
pub fn confirms_begin_only()
    ensures { (servers : ℕ) → ConfirmsBeginOnly servers }
{}
