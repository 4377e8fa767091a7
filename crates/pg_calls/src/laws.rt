//! What holds of all calls.

ghost use Rattle.pg_base.specs.declared.id.FileId.{FileId};
ghost use Rattle.pg_cells.specs.pg_msg.declared.work.Work.{Work};
ghost use Rattle.pg_cells.specs.pg_call.declared.call.Call.{Call};
ghost use Rattle.pg_cells.specs.pg_call.declared.refusal.Refusal.{Refusal};
ghost use Rattle.pg_cells.specs.pg_store.declared.store.Store.{Store};
ghost use Rattle.pg_calls.specs.Refused.{FilledKeepsNoWish, LateDoesNothing, RefusedOnlyAsks};

/// A call that is refused changes nothing. Where it came to what is not held and full, and for that
/// reason alone, one fetch may be sent, and a wish with a fresh birth be kept.
pub fn refused_calls_only_ask()
    ensures { (store : Store) (call : Call) (work : Work) (why : Refusal)
        → RefusedOnlyAsks store call work why }
{}

/// At the end of the clock a call changes nothing.
pub fn late_calls_do_nothing()
    ensures { (store : Store) (call : Call) (work : Work) → LateDoesNothing store call work }
{}

/// What a call came to and is filling is asked for as its Fill asks: no wish is kept for it.
pub fn what_is_filling_is_not_wished()
    ensures { (store : Store) (call : Call) (work : Work) (file : FileId)
        → FilledKeepsNoWish store call work file }
{}
