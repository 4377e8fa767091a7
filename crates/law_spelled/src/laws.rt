//! What a server sends has a spelling.

ghost use Rattle.law_spelled.specs.Laws.{NewFits, StepFits};

/// A server of 1 to 64 begins so that what it holds fits, and keeps that with whatever comes: any
/// call at any moment, a tick, a restart, and any message that has a spelling, whoever sent it.
/// Each message that it sends then goes to a server, and has a spelling.
pub fn spelled()
    ensures new { NewFits }
    ensures step { StepFits }
{}
