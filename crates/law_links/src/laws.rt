//! What holds of the edges that come by asking in all runs. Each law is a clause of a function that
//! does nothing.

ghost use Rattle.std.specs.Prelude.{ℕ};
ghost use Rattle.pg_run.specs.Intending.{IntentionsAreInOrder};
ghost use Rattle.law_links.specs.Links.{AsksLinkTheAsker};

/// A server that hears a Fetch of what it holds full, or a Seek of what it holds, lists the sender
/// behind the event, and one with which a walk ends lists the walk's origin: each with the birth
/// that the message names, where it lists no later one.
pub fn asks_link_the_asker()
    ensures { (servers : ℕ) → IntentionsAreInOrder servers → AsksLinkTheAsker servers }
{}
