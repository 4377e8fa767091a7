//! What holds behind the house rules, whatever came before. Each law is a clause of a function that
//! does nothing.

ghost use Rattle.std.specs.Prelude.{ℕ, ◌≡◌, ◌≤◌, ◌+◌, false, List, length};
ghost use Rattle.std.specs.List.{filter};
ghost use Rattle.pg_base.specs.declared.id.FileId.{FileId};
ghost use Rattle.std.specs.Map.{keys_of};
ghost use Rattle.pg_names.specs.Names.{directories, is_full};
ghost use Rattle.pg_house.specs.Work.{State};
ghost use Rattle.pg_house.specs.House.{house, house_with, movable};
ghost use Rattle.pg_register.specs.declared.flag.Flag.{Flag};
ghost use Rattle.pg_house.specs.Calm.{DiffersByFlags, IsCalm, flagged};
ghost use Rattle.pg_house.specs.Facts.{AreByServer, AreOrdered, HasPassed, IsLast, IsNoted, IsOfDirs, IsTold, NoCycle, NoDeadLists, OwnParent, Passing, is_among};

/// Every cell for a thing is the greatest of what is known of it, the held parent in the greatest
/// place has a cell, and the thing has the greatest itself, but for a place that is held back.
pub fn all_have_passed()
    ensures { (moment : ℕ) (st : State) → IsOfDirs st.names → AreByServer st.names
        → Passing (house moment st).names }
{}

/// The held parent in a thing's own live place has a cell for it.
pub fn own_parent()
    ensures { (moment : ℕ) (st : State) → IsOfDirs st.names → AreByServer st.names
        → OwnParent (house moment st).names }
{}

/// No directory with a dead place lists a child, but for the blank place.
pub fn no_dead_directory_lists()
    ensures { (moment : ℕ) (st : State) → IsOfDirs st.names → AreByServer st.names → IsLast st.names
        → NoDeadLists (house moment st).names }
{}

/// Live directories form no cycle.
pub fn no_cycle()
    ensures { (moment : ℕ) (st : State) → IsOfDirs st.names → AreByServer st.names → IsLast st.names
        → NoCycle (house moment st).names }
{}

/// What the laws ask for holds again behind the rules.
pub fn stays_sound()
    ensures dirs { (moment : ℕ) (st : State) → IsOfDirs st.names → AreByServer st.names
        → IsOfDirs (house moment st).names }
    ensures by_server { (moment : ℕ) (st : State) → IsOfDirs st.names → AreByServer st.names
        → AreByServer (house moment st).names }
    ensures last { (moment : ℕ) (st : State) → IsOfDirs st.names → AreByServer st.names
        → IsLast st.names → IsLast (house moment st).names }
    ensures ordered { (moment : ℕ) (st : State) → AreOrdered st.names
        → AreOrdered (house moment st).names }
{}

/// Just the same things are held, and the same of them are full.
pub fn the_same_is_held()
    ensures held { (moment : ℕ) (st : State)
        → keys_of (house moment st).names.held ≡ keys_of st.names.held }
    ensures full { (moment : ℕ) (st : State) (file : FileId)
        → is_full (house moment st).names file ≡ is_full st.names file }
{}

/// Run again the rules change nothing, touch nothing and make nothing: none applies any more.
pub fn none_applies()
    ensures { (moment : ℕ) (st : State) → IsOfDirs st.names → AreByServer st.names → IsLast st.names
        → AreOrdered st.names → house moment (house moment st) ≡ house moment st }
{}

/// Behind the rules names are calm, and no rule applies to calm names, whatever else comes of the
/// event.
pub fn calm_names_stay()
    ensures behind { (moment : ℕ) (st : State) → IsOfDirs st.names → AreByServer st.names
        → IsLast st.names → AreOrdered st.names → IsCalm (house moment st).names }
    ensures stay { (moment : ℕ) (st : State) → IsCalm st.names → house moment st ≡ st }
{}

/// A flag that comes to a thing of calm names passes to the cells for the thing that are there.
/// Nothing else changes: no place, no other cell and no own flag. Nothing is made, and no place is
/// replaced.
pub fn a_flag_passes()
    ensures differs { (moment : ℕ) (st : State) (file : FileId) (flag : Flag) → IsCalm st.names
        → DiffersByFlags file (flagged st file flag) (house moment (flagged st file flag)) }
    ensures calm { (moment : ℕ) (st : State) (file : FileId) (flag : Flag) → IsCalm st.names
        → IsCalm (house moment (flagged st file flag)).names }
{}

/// Where all things but these have passed, only these need to pass.
pub fn passed_things_stay()
    ensures { (moment : ℕ) (st : State) (changed : List FileId)
        → ((file : FileId) → is_among file changed ≡ false
        → HasPassed st.names (directories st.names) file)
        → house_with moment (directories st.names)
        (filter (λ file. is_among file changed) (movable st.names)) st ≡ house moment st }
{}

/// No more than two places are made for each directory that is held.
pub fn few_places_are_made()
    ensures { (moment : ℕ) (st : State) → length (house moment st).work.made
        ≤ length st.work.made + (length (directories (house moment st).names)
        + length (directories (house moment st).names)) }
{}

/// Every cell that the rules change is among the keys touched, and so is every own place and own
/// flag.
pub fn all_is_told()
    ensures { (moment : ℕ) (st : State)
        → IsTold st.names (house moment st).names (house moment st).work }
{}

/// What is held stays held. Of each live place of a held thing, other than the root, that is
/// another in the end it is noted that it was replaced. Nothing else is noted but such a place, or
/// a live one that a thing had in between: it came by a cell, or the rules made it.
pub fn replaced_places_are_noted()
    ensures { (moment : ℕ) (st : State) → IsNoted st (house moment st) }
{}
