//! What holds of births, and of a server that enters a view.

ghost use Rattle.pg_store.specs.Together.{AsBeforeIsAMove, GoingsEndBirths, OverIsTested, OverStaysOver};
ghost use Rattle.pg_store.specs.Views.{EdgesAreCut, EnteringIsTogether, EnteringKeepsBirths, EnteringMoves, NamesStay, WishesAreAimed};

/// Births move one way: one that is over stays over, and with a replica about which nothing is
/// intended its birth is over.
pub fn births_move()
    ensures tested { OverIsTested }
    ensures over { OverStaysOver }
    ensures moves { AsBeforeIsAMove }
    ensures goings { GoingsEndBirths }
{}

/// Where a server is removed in a view, the edges to it are gone, and that is all that is gone:
/// what was held is held, with the births that it had, and of names only the removals change.
pub fn views_are_entered()
    ensures edges { EdgesAreCut }
    ensures names { NamesStay }
    ensures together { EnteringIsTogether }
    ensures births { EnteringKeepsBirths }
    ensures moves { EnteringMoves }
    ensures wishes { WishesAreAimed }
{}
