//! What holds of what is forgotten, in all runs. Each law is a clause of a function that does
//! nothing.

ghost use Rattle.std.specs.Prelude.{ℕ};
ghost use Rattle.law_forgotten.specs.Forgets.{ForgetsStay};

/// A dead place that a client's forget makes is of the file that it names, never of a directory,
/// and in that event the house rules make no place of this file.
pub fn forgets_stay()
    ensures { (servers : ℕ) → ForgetsStay servers }
{}
