//! What holds of each step of a world. Each law is a clause of a function that does nothing.

ghost use Rattle.std.specs.Prelude.{ℕ};
ghost use Rattle.law_refused.specs.Refusals.{RefusalsChangeNothing};
ghost use Rattle.law_steps.specs.Refused.{RefusedStepsChangeNothing};

/// Where a refused call changes nothing in any run, no step of a world does that tells a client
/// that its call was refused: it made nothing, and no other server changed. For any reason but
/// `NotYet` the server that was called is as it was too, and nothing was sent. With `NotYet` the
/// thing is asked for, and nothing else changed or was sent.
pub fn refused_steps_change_nothing()
    ensures { ((servers : ℕ) → RefusalsChangeNothing servers) → RefusedStepsChangeNothing }
{}
