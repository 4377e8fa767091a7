//! What servers intend along every run. Each law is a clause of a function that does nothing.

ghost use Rattle.std.specs.Prelude.{ℕ};
ghost use Rattle.law_frame.specs.pg_run.Intending.{IntentionsAreInOrder};
ghost use Rattle.law_frame.specs.pg_run.Views.{ViewsArePrefixes};
ghost use Rattle.law_intents.specs.Laws.{IntentionsHaveRequests, NothingIsLeftToDo};

/// After every event Fills stand of just what is to be filled, so that the parent of whatever is
/// held is held or to be filled; Confirms only of children in doubt; each Patch is of a held child,
/// with the place that this has or an earlier one; Seeks of just what seeks: gold replicas that see
/// a live gold to which they have no edge, and others that have no edge to a live gold; Leaves only
/// of held things, and to a listed peer whose flag is raised; and who is asked is another server
/// that is not removed in the server's view.
pub fn intentions_are_in_order()
    ensures { (servers : ℕ) → ViewsArePrefixes servers → IntentionsAreInOrder servers }
{}

/// After every event the end of a further one changes nothing, where no place was replaced, no
/// doubtful cell came and no edge was made, be it with the wishes that the server has or with none.
/// And each intention has a message.
pub fn nothing_is_left_to_do()
    ensures still { (servers : ℕ) → ViewsArePrefixes servers → NothingIsLeftToDo servers }
    ensures asked { (servers : ℕ) → ViewsArePrefixes servers → IntentionsHaveRequests servers }
{}
