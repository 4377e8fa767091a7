//! What the house rules give to the listings of `theory_listing`. Each law is a clause of a
//! function that does nothing.

ghost use Rattle.theory_listing_house.specs.Laws.{CellsGrow, ClimbsComeOut, NothingBegins, OwnPlacesGrow, ParentsAtStart, ReplacedAreNoted, SettledBehind, UnheldStay};
ghost use Rattle.theory_listing_house.specs.Second.{RulesAreSecondParts};

/// Servers that keep names, and births, intentions and views beside them.
pub trait Keeping {
    ghost use Rattle.pg_names.specs.Names.{NamesValue};
    ghost use Rattle.theory_listing_house.specs.Listing.{Beside};

    /// What a server holds.
    type Node;

    ghost see: { Self.Node → NamesValue };

    ghost beside: { Beside Self.Node };
}

/// Behind the rules a cell for a held child has the child's own place, or one that is held back; a
/// held directory has a cell for each held child that is live in it; and only held directories have
/// cells. Asks that only directories have entries, and that flags are by server.
pub fn settled_behind()
    ensures { SettledBehind }
{}

/// A held directory has in the end a cell for each held child that was live in it at the start,
/// unless a later place was there that the child takes. So a place that is replaced leaves a later
/// one behind in its parent, where that is held.
pub fn parents_at_start()
    ensures { ParentsAtStart }
{}

/// Cells stay, and none goes to an earlier stamp. Asks also that no stamp is later than the
/// greatest time.
pub fn cells_grow()
    ensures { CellsGrow }
{}

/// What is held stays held, with the same place or one of a later stamp. Asks for the same.
pub fn own_places_grow()
    ensures { OwnPlacesGrow }
{}

/// What is not held in the end was not held before, and its cells are as they were. Nothing becomes
/// held (`none`). Asks for nothing.
pub fn unheld_stay()
    ensures stay { UnheldStay }
    ensures none { NothingBegins }
{}

/// Where the place of a thing becomes a later one it is noted that it left the directory in which
/// it was live at the start, held or not: none is forgotten. Asks for nothing.
pub fn replaced_are_noted()
    ensures { ReplacedAreNoted }
{}

/// From each thing a climb comes to the root, or to what is not held live: there is no cycle. Asks
/// for the same as `cells_grow`.
pub fn climbs_come_out()
    ensures { ClimbsComeOut }
{}

/// Where places in the end are those behind the rules, they are the second part of a step, as
/// `parts_are_steps` of `theory_listing` wants it, but for what the intentions give: births,
/// Patches and Confirms.
pub fn rules_are_second_parts<K: Keeping>()
    ensures { RulesAreSecondParts K.see K.beside }
{}
