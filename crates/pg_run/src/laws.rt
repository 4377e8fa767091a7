//! What holds of any run.

ghost use Rattle.std.specs.Prelude.{ℕ};
ghost use Rattle.pg_run.specs.Came.{IsMadeInParts, TakesWhatCame};
ghost use Rattle.pg_run.specs.Laws.{QuietIsTold};

/// A world is told to be quiet exactly where no message is under way, each live server has entered
/// the last removal, and none of them owes anything.
pub fn quiet_is_told()
    ensures { QuietIsTold }
{}

/// The things that a server holds, and the versions of a file that came to it, are those that it
/// made, that were delivered to it, or that were there from the start on, since the thing's replica
/// last went there. So came the places and flags that it knows of a thing, and it knows them as
/// long as no replica goes: passing brings nothing, and what a replica took goes with it alone.
/// What is made in an event is what its first effect made, and behind that what the house rules
/// made.
pub fn takes_are_what_came()
    ensures took { (servers : ℕ) → TakesWhatCame servers }
    ensures parts { IsMadeInParts }
{}
