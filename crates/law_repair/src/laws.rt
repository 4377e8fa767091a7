//! What holds of things that are kept, along every run. Each law is a clause of a function that
//! does nothing.

ghost use Rattle.std.specs.Prelude.{ℕ};
ghost use Rattle.law_golds.specs.law_contents.Together.{HoldBoth};
ghost use Rattle.law_golds.specs.Premises as flagging;
ghost use Rattle.law_golds.specs.Premises.{NextIdsAreAway};
ghost use Rattle.law_golds.specs.law_order.Laws.{AllIsNamed, FirstEffectsAreWhole};
ghost use Rattle.law_quiet.specs.Given.{ServersAreWhole};
ghost use Rattle.pg_run.specs.Births.{BirthsAreAlone, BirthsMoveInEvents, ReplicasStayOrGo};
ghost use Rattle.pg_run.specs.Going.{FlagsAreMadeWhereHeld};
ghost use Rattle.pg_run.specs.Grown.{EventsGrow};
ghost use Rattle.pg_run.specs.Laws.{HouseIsInOrder, QuietDirectoriesAreBroughtBack, QuietNamesFormATree, QuietServersAgree, QuietThingsAreListedOnlyWhereTheyStand};
ghost use Rattle.pg_run.specs.Views.{ViewsArePrefixes};
ghost use Rattle.law_repair.specs.Facts.{FullBegins, FullIsSaid, FullStays, GoldsRaiseNone};
ghost use Rattle.law_repair.specs.Given.{StandOn};
ghost use Rattle.law_repair.specs.Witness.{LossIsNotKept, LossParts, RemovalKeepsTheRoot, StartIsConnected};
ghost use Rattle.law_repair.specs.Kept.{KeptDirectoriesAreBroughtBack, KeptNamesFormATree, KeptServersAgree, KeptThingsAreConnected, KeptThingsAreListedOnlyWhereTheyStand, MadeThingsAreCreated};

/// What becomes full in an event is told so, or made, or forgotten; and only what was full says
/// that another is, to a peer that had acknowledged all.
pub fn full_replicas_come()
    ensures begins { (servers : ℕ) → FullBegins servers }
    ensures said { (servers : ℕ) → FullIsSaid servers }
{}

/// What is full stays so, as long as its replica is held.
pub fn full_replicas_stay()
    ensures { (servers : ℕ) → ServersAreWhole servers → FirstEffectsAreWhole servers
        → BirthsAreAlone servers → BirthsMoveInEvents servers → ReplicasStayOrGo servers
        → FullStays servers }
{}

/// Of a full gold replica no raised flag is made.
pub fn golds_raise_none()
    ensures { (servers : ℕ) → HoldBoth servers → EventsGrow servers → BirthsMoveInEvents servers
        → flagging.FirstEffectsAreWhole servers → NextIdsAreAway servers → ServersAreWhole servers
        → ViewsArePrefixes servers → ReplicasStayOrGo servers → FlagsAreMadeWhereHeld servers
        → HouseIsInOrder servers → GoldsRaiseNone servers }
{}

/// A thing is created where a client is told that it was made: some server holds it then, and none
/// did before.
pub fn made_things_are_created()
    ensures { (servers : ℕ) → AllIsNamed servers → ServersAreWhole servers
        → MadeThingsAreCreated servers }
{}

/// Wherever a run is quiet, the graph of each thing is connected that was kept: where between each
/// two neighbouring moments of its life, its creation and the quiet ends of events, one replica of
/// a live server stayed gold, and none forgot the thing.
pub fn kept_things_are_connected()
    ensures { (servers : ℕ) → StandOn servers → KeptThingsAreConnected servers }
{}

/// Where all things that live servers hold were kept, quiet servers agree, and their names form a
/// tree, with no premise on graphs.
pub fn kept_runs_are_repaired()
    ensures agree { (servers : ℕ) → StandOn servers → QuietServersAgree servers
        → KeptServersAgree servers }
    ensures tree { (servers : ℕ) → StandOn servers → QuietNamesFormATree servers
        → KeptNamesFormATree servers }
    ensures listed { (servers : ℕ) → StandOn servers
        → QuietThingsAreListedOnlyWhereTheyStand servers
        → KeptThingsAreListedOnlyWhereTheyStand servers }
    ensures back { (servers : ℕ) → StandOn servers → QuietDirectoriesAreBroughtBack servers
        → KeptDirectoriesAreBroughtBack servers }
{}

/// The definitions, tried on runs: where a server is removed and the others give it up, the root
/// was kept; where the one gold replica of a file, and that of a directory, went with their server,
/// neither was. And where a file moves while all its gold replicas go, all gets quiet and the file
/// is not connected: that a thing was kept is a premise that is needed.
pub fn some_things_are_kept()
    ensures kept { RemovalKeepsTheRoot }
    ensures lost { LossIsNotKept }
    ensures parted { LossParts }
{}

/// The graphs of the start are connected.
pub fn starts_are_connected()
    ensures { (servers : ℕ) → StandOn servers → StartIsConnected servers }
{}
