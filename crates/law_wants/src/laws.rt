//! What holds of Wants in all runs. Each law is a clause of a function that does nothing.

ghost use Rattle.std.specs.Prelude.{ℕ};
ghost use Rattle.law_wants.specs.Wants.{AnEventAsksOne};

/// Two Wants of one entry for one version are sent to one server. So, with the law that a server
/// asks no other one while a Want counts, no version is asked of two servers at a time, within an
/// event either.
pub fn an_event_asks_one()
    ensures { (servers : ℕ) → AnEventAsksOne servers }
{}
