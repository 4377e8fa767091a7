//! What holds of refused calls in all runs. Each law is a clause of a function that does nothing.

ghost use Rattle.std.specs.Prelude.{ℕ};
ghost use Rattle.law_refused.specs.Refusals.{RefusalsChangeNothing};
ghost use Rattle.law_ticks.specs.Given.{TidinessIsGiven};

/// Where a client is told that a call was refused, nothing was made, and, but for `NotYet`, nothing
/// was sent and no server changed. With `NotYet` at most the wish for that thing changed, with the
/// birth that it names, and at most the Fetch of it was sent, to its target, which is not 0. The
/// target of a new wish is the least live other server of which a gold flag stands in the cell by
/// which the call came to the thing, and where there is none the next server behind this one.
pub fn refusals_change_nothing()
    ensures { (servers : ℕ) → TidinessIsGiven servers → RefusalsChangeNothing servers }
{}
