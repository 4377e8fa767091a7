//! What holds of all runs, where the intentions of servers are in order. Each law is a clause of a
//! function that does nothing.

ghost use Rattle.std.specs.Prelude.{ℕ};
ghost use Rattle.law_places.specs.Laws.{OneMadePlaceAStamp, OnePlaceAStamp, PlacesWereMade};
ghost use Rattle.law_frame.specs.pg_run.Intending.{IntentionsAreInOrder};
ghost use Rattle.law_frame.specs.pg_run.Known.{PlacesHaveOwnStamps, PlacesMadeArePast};

/// Two places of a thing with one stamp are one place, wherever they are known: at a server, in
/// what a directory is to be told, and in each message that was ever sent.
pub fn one_place_a_stamp()
    ensures { (servers : ℕ) → IntentionsAreInOrder servers → OnePlaceAStamp servers }
{}

/// Each place that is known anywhere was made, as the journal tells, or is known of a thing before
/// any is made (`made`); no two that were made have one stamp, be it of two things (`one`), and so
/// of all the places of a thing (`own`); and the time of each that was made is past at its maker
/// (`past`).
pub fn places_were_made()
    ensures made { (servers : ℕ) → IntentionsAreInOrder servers → PlacesWereMade servers }
    ensures one { (servers : ℕ) → IntentionsAreInOrder servers → OneMadePlaceAStamp servers }
    ensures own { (servers : ℕ) → IntentionsAreInOrder servers → PlacesHaveOwnStamps servers }
    ensures past { (servers : ℕ) → IntentionsAreInOrder servers → PlacesMadeArePast servers }
{}
