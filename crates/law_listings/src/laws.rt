//! What holds of all runs, where what is said of other things holds of them. Each law is a clause
//! of a function that does nothing.

ghost use Rattle.std.specs.Prelude.{ℕ};
ghost use Rattle.law_listings.specs.Laws.{ListingsAreKept, ListingsStandOn, MessagesHaveLetters};

/// Behind each event, at each live server that has entered the last removal, a child that a
/// directory lists, and that is not held beside it, is asked after, or it is known where it is; and
/// every message of that view, whenever it was sent, keeps what it promises (`kept`). This is said
/// of the letters of messages, in which a LeaveOk has its sender's place: each message has one
/// (`letters`).
pub fn listings_are_kept()
    ensures kept { (servers : ℕ) → ListingsStandOn servers → ListingsAreKept servers }
    ensures letters { (servers : ℕ) → ListingsStandOn servers → MessagesHaveLetters servers }
{}
