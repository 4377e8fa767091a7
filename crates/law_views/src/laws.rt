//! What holds of the views of servers in all runs. Each law is a clause of a function that does
//! nothing.

ghost use Rattle.std.specs.Prelude.{ℕ};
ghost use Rattle.law_frame.specs.pg_run.Views.{MessagesAreOfViews, MessagesAreSentInView, ViewsArePrefixes, ViewsGrow};
ghost use Rattle.law_views.specs.Premises.{StandOn};

/// After every event each server knows the first so many removals, in their order, and its own is
/// none of them; no edge of it leads to who is removed in its view, and no wish asks one. And what
/// is removed in a server's view stays so.
pub fn views_are_prefixes()
    ensures fronts { (servers : ℕ) → StandOn servers → ViewsArePrefixes servers }
    ensures grow { (servers : ℕ) → StandOn servers → ViewsGrow servers }
{}

/// What a server sends in an event is from it, and in the view in which the event leaves it. So
/// each message ever sent is of a view that its sender had then and in which the sender was not
/// removed, nor a walk's origin.
pub fn messages_are_of_views()
    ensures sent { (servers : ℕ) → StandOn servers → MessagesAreSentInView servers }
    ensures views { (servers : ℕ) → StandOn servers → MessagesAreOfViews servers }
{}
