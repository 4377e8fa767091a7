//! What holds behind the house rules and the raising of golds. Each law is a clause of a function
//! that does nothing.

ghost use Rattle.std.specs.Prelude.{◌≡◌, false};
ghost use Rattle.pg_base.specs.declared.id.FileId.{FileId};
ghost use Rattle.pg_register.specs.Flag.{is_removed};
ghost use Rattle.pg_pieces.specs.pg_msg.declared.work.Work.{Work};
ghost use Rattle.pg_pieces.specs.pg_house.Calm.{IsCalm};
ghost use Rattle.pg_pieces.specs.pg_house.Facts.{AreByServer, AreOrdered, IsLast, IsOfDirs};
ghost use Rattle.pg_pieces.specs.pg_store.declared.store.Store.{Store};
ghost use Rattle.pg_pieces.specs.pg_store.Seen.{removed_of, server_of};
ghost use Rattle.pg_pieces.specs.Done.{idle};
ghost use Rattle.pg_pieces.specs.Golds.{is_goldless};
ghost use Rattle.pg_cells.specs.Raised.{DiffersByGolds};
ghost use Rattle.pg_cells.specs.Settling.{rules, settle};

/// No house rule applies behind settling.
pub fn settled_names_are_calm()
    ensures { (store : Store) (work : Work) → IsOfDirs store.names → AreByServer store.names
        → IsLast store.names → AreOrdered store.names → IsCalm (settle store work).store.names }
{}

/// Things that become gold change flags alone: what the rules left stands where they left it.
pub fn golds_change_flags_alone()
    ensures { (store : Store) (work : Work) → IsOfDirs store.names → AreByServer store.names
        → IsLast store.names → AreOrdered store.names
        → DiffersByGolds (rules store work) (settle store work) }
{}

/// Behind settling every full thing sees a live gold, but where the server has a flag of it that is
/// of a later birth.
pub fn every_full_thing_sees_a_gold()
    ensures { (store : Store) (work : Work) → IsOfDirs store.names → AreByServer store.names
        → IsLast store.names → AreOrdered store.names
        → is_removed (removed_of store) (server_of store) ≡ false
        → (file : FileId) → is_goldless (settle store work).store file ≡ false }
{}

/// Settled again, in whatever event, nothing changes.
pub fn settled_stores_stay()
    ensures rules { (store : Store) (work next : Work) → IsOfDirs store.names
        → AreByServer store.names → IsLast store.names → AreOrdered store.names
        → rules (settle store work).store next ≡ idle (settle store work).store next }
    ensures settle { (store : Store) (work next : Work) → IsOfDirs store.names
        → AreByServer store.names → IsLast store.names → AreOrdered store.names
        → is_removed (removed_of store) (server_of store) ≡ false
        → settle (settle store work).store next ≡ idle (settle store work).store next }
{}
