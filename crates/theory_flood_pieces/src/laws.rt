//! What each piece of an event leaves of the promises of the edges. A server that goes on by steps
//! goes on to cover what it covers, and a key that is acknowledged behind them was so before, with
//! the same cell; so all promises outlive them. Each law is a clause of a function that does
//! nothing.

ghost use Rattle.theory_flood_pieces.specs.Laws.{AnswersAreTaken, AnswersLeaveWhole, BeginningsAreSteps, BeginningsLeaveWhole, CellsAreSound, EndsMaySend, EntriesAreTaken, EntriesLeaveWhole, EventsAreByTheRule, FillingIsUnseen, FillingLeavesWhole, FlagsAreTaken, FlagsLeaveWhole, GoingsAreSteps, GoingsLeaveWhole, KeysAreAll, KeysAreTouched, LinksAreSteps, LinksLeaveWhole, NamesAreTold, OthersMayBeSent, PlacesAreTaken, PlacesLeaveWhole, RulesAreSettled, RulesLeaveWhole, StartKeepsEdges, StartsWhole, TicksMaySend, UnlinksAreSteps, UnlinksLeaveWhole, VersionsAreMade, VersionsAreTaken, VersionsLeaveWhole, ViewsAreSteps, ViewsLeaveWhole, WhatIsBesideIsUnseen, WhatIsBesideLeavesWhole, WritesLeaveWhole};

/// A cell is up to itself, and what is up to a second is up to whatever the second is up to.
pub fn cells_are_sound()
    ensures { CellsAreSound }
{}

/// Within an event the births that are over at its end may count as over all along, whatever is
/// answered late.
pub fn over_counts()
    ensures { EventsAreByTheRule }
{}

/// A cell that comes to a thing that is held is held from then on, or more: so its answer may be
/// sent. A version is one of a history, whose versions are the heads that are held.
pub fn what_comes_is_taken()
    ensures places { PlacesAreTaken }
    ensures flags { FlagsAreTaken }
    ensures entries { EntriesAreTaken }
    ensures versions { VersionsAreTaken }
{}

/// A version that is made on all heads, keys that are touched, names that grow with the keys
/// touched that tell of it, and the house rules, whatever they change: nothing that is covered is
/// lost, and no acknowledged key has another cell.
pub fn changes_are_steps()
    ensures writes { VersionsAreMade }
    ensures touches { KeysAreTouched }
    ensures names { NamesAreTold }
    ensures rules { RulesAreSettled }
{}

/// An edge that is made has all keys, and one that goes has none any more; a replica that begins
/// has no edge, and one goes only when its birth counts as over. What stands beside names, replicas
/// and tags, and that a replica is full, the edges do not see; nor which servers are removed, where
/// a view is entered.
pub fn links_are_steps()
    ensures keys { KeysAreAll }
    ensures links { LinksAreSteps }
    ensures unlinks { UnlinksAreSteps }
    ensures beginnings { BeginningsAreSteps }
    ensures goings { GoingsAreSteps }
    ensures beside { WhatIsBesideIsUnseen }
    ensures filling { FillingIsUnseen }
    ensures views { ViewsAreSteps }
{}

/// An answer takes a key off only where its own cell is still the present one.
pub fn answers_are_taken()
    ensures { AnswersAreTaken }
{}

/// What a tick sends, and what is sent at the end of an event, tells of present cells under tags
/// that stand nowhere else. What the edges do not read may always be sent.
pub fn cells_may_be_sent()
    ensures ticks { TicksMaySend }
    ensures ends { EndsMaySend }
    ensures others { OthersMayBeSent }
{}

/// Each piece leaves every edge with another server at its other end, just what is held with a
/// replica, and names as the house rules ask.
pub fn servers_stay_whole()
    ensures places { PlacesLeaveWhole }
    ensures flags { FlagsLeaveWhole }
    ensures entries { EntriesLeaveWhole }
    ensures versions { VersionsLeaveWhole }
    ensures writes { WritesLeaveWhole }
    ensures answers { AnswersLeaveWhole }
    ensures rules { RulesLeaveWhole }
{}

/// Edges and replicas that come and go, and what the edges do not see, leave whole what was whole.
pub fn links_leave_whole()
    ensures links { LinksLeaveWhole }
    ensures unlinks { UnlinksLeaveWhole }
    ensures beginnings { BeginningsLeaveWhole }
    ensures goings { GoingsLeaveWhole }
    ensures beside { WhatIsBesideLeavesWhole }
    ensures filling { FillingLeavesWhole }
    ensures views { ViewsLeaveWhole }
{}

/// At the start every server is whole, no tag stands, and each edge keeps what it promises.
pub fn start_keeps_promises()
    ensures whole { StartsWhole }
    ensures edges { StartKeepsEdges }
{}
