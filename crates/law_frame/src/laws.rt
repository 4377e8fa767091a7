//! What the walks give at once. Each law is a clause of a function that does nothing.

ghost use Rattle.law_frame.specs.Askers.{CallsKeepAskers, IntentionsKeepAskers, MessagesKeepAskers};

/// Whatever a server does with a message or with a call, and whichever intentions end and begin
/// behind it, it answers the server whose message came.
pub fn askers_are_kept()
    ensures messages { MessagesKeepAskers }
    ensures calls { CallsKeepAskers }
    ensures intentions { IntentionsKeepAskers }
{}
