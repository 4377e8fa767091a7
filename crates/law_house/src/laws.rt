//! The house rules in words of their own, and in all runs. Each law is a clause of a function that
//! does nothing.

ghost use Rattle.std.specs.Prelude.{ℕ, None, length};
ghost use Rattle.pg_run.specs.pg_house.Cycles.{first_moving};
ghost use Rattle.pg_run.specs.pg_names.Names.{NamesValue, directories};
ghost use Rattle.law_house.specs.Runs.{RulesGoBySteps};
ghost use Rattle.law_house.specs.Standing.{IsWhoMoves};
ghost use Rattle.law_house.specs.Steps.{HouseGoesBySteps};
ghost use Rattle.law_order.specs.Laws.{FirstEffectsAreOrdered, FirstEffectsAreWhole, NamesAreById};

/// Whoever cycle breaking moves lies on a cycle of live held directories, no member of which has a
/// place with a later stamp; of all such members of all cycles none is less, by id. Where nobody
/// moves there is no cycle.
pub fn who_moves()
    ensures { (names : NamesValue) → IsWhoMoves names
        (first_moving names (length (directories names)) None (directories names)) }
{}

/// The house rules reach their end by single steps: each is of the lowest rule that applies
/// (passing, then return, then cycle breaking), to the least id to which it does, and at the end
/// none applies. Such steps lead to no other end.
pub fn house_goes_by_steps()
    ensures { HouseGoesBySteps }
{}

/// So they do behind the first effect of whatever takes effect, in every run.
pub fn rules_go_by_steps()
    ensures { (servers : ℕ) → FirstEffectsAreWhole servers → FirstEffectsAreOrdered servers
        → NamesAreById servers → RulesGoBySteps servers }
{}
