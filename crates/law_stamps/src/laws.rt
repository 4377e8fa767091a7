//! What holds of stamps in all runs. The law is a clause of a function that does nothing.

ghost use Rattle.std.specs.Prelude.{ℕ, ◌<◌, ◌^◌};
ghost use Rattle.law_contents.specs.Together.{StandOn};
ghost use Rattle.law_stamps.specs.Stamps.{OneStampEach};

/// No two versions or places that were made in a run have one stamp, be they of two things, or a
/// version and a place.
pub fn stamps_are_drawn_once()
    ensures { (servers : ℕ) → servers < 2 ^ 32 → StandOn servers → OneStampEach servers }
{}
