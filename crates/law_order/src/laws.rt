//! What holds of names along every run. Each law is a clause of a function that does nothing.

ghost use Rattle.std.specs.Prelude.{ℕ};
ghost use Rattle.law_frame.specs.pg_run.Away.{DirectoriesAreTold, WhatBeginsIsAway};
ghost use Rattle.law_order.specs.Laws.{AllIsNamed, BirthsAreGiven, FirstEffectsAreOrdered, FirstEffectsAreWhole, HouseStaysInOrder, NamesAreById, NamesAreDistinct, NextIdsAreNew, ServersAreWhole, ThingsArePlacedWell};

/// After every event each server's names are as the house rules ask: all things have passed, no
/// dead directory lists a child, and no live directories stand in each other.
pub fn house_is_in_order()
    ensures { HouseStaysInOrder }
{}

/// After every event, and behind the first effect of each, each server is whole: only directories
/// have entries, flags are by server, no stamp of a place is later than the greatest time, just
/// what is held has a replica, and entries are by id.
pub fn servers_are_whole()
    ensures whole { (servers : ℕ) → ServersAreWhole servers }
    ensures first { (servers : ℕ) → FirstEffectsAreWhole servers }
    ensures ordered { (servers : ℕ) → FirstEffectsAreOrdered servers }
    ensures order { (servers : ℕ) → NamesAreById servers }
{}

/// All ids that are known, intended or told anywhere in a run were given out, all parents are
/// directories, all names are a client's or made of an id, all flags are of the run's servers, and
/// walks begin at these. So each thing stands in a directory, the root has no cell, and no
/// directory shows two children by one name.
pub fn all_is_named()
    ensures named { (servers : ℕ) → AllIsNamed servers }
    ensures placed { (servers : ℕ) → ThingsArePlacedWell servers }
    ensures distinct { (servers : ℕ) → NamesAreDistinct servers }
    ensures told { (servers : ℕ) → DirectoriesAreTold servers }
{}

/// What begins at a server was not held there: nobody knows the id that it gives out next, and a
/// wish is for what is not held.
pub fn what_begins_is_new()
    ensures births { (servers : ℕ) → BirthsAreGiven servers }
    ensures ids { (servers : ℕ) → NextIdsAreNew servers }
    ensures away { (servers : ℕ) → WhatBeginsIsAway servers }
{}
