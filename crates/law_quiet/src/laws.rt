//! What holds of all runs. Each law is a clause of a function that does nothing.

ghost use Rattle.std.specs.Prelude.{ℕ};
ghost use Rattle.pg_run.specs.Laws.{NamesMerge, QuietDirectoriesAreBroughtBack, QuietJoinedServersAgree, QuietNamesFormATree, QuietServersAgree, QuietThingsAreListedOnlyWhereTheyStand};
ghost use Rattle.law_quiet.specs.Given.{AgreementIsGiven, TreeIsGiven};
ghost use Rattle.law_quiet.specs.Laws.{QuietStoresAgree};

/// Wherever no message is under way, each live server has entered the last removal, and none owes
/// anything, live servers that are joined by edges for a thing hold the same of it: place and
/// flags, entries and content.
pub fn quiet_stores_agree()
    ensures { (servers : ℕ) → AgreementIsGiven servers → QuietStoresAgree servers }
{}

/// Wherever a run is quiet, live servers that are joined by edges for a thing agree on what they
/// took, where what they hold is what that comes to; and so do all live ones that hold a thing,
/// where its graph is connected.
pub fn quiet_servers_agree()
    ensures joined { (servers : ℕ) → AgreementIsGiven servers → NamesMerge servers
        → QuietJoinedServersAgree servers }
    ensures connected { (servers : ℕ) → AgreementIsGiven servers → NamesMerge servers
        → QuietServersAgree servers }
{}

/// Wherever a run is quiet and the graph of each thing is connected, each survivor leads to the
/// root through survivors, no directory shows two children by one name, each survivor is listed
/// where it stands and nowhere else, and no dead directory holds one.
pub fn quiet_names_form_a_tree()
    ensures tree { (servers : ℕ) → TreeIsGiven servers → QuietNamesFormATree servers }
    ensures listed { (servers : ℕ) → TreeIsGiven servers
        → QuietThingsAreListedOnlyWhereTheyStand servers }
    ensures returned { (servers : ℕ) → TreeIsGiven servers
        → QuietDirectoriesAreBroughtBack servers }
{}
