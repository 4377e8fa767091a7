//! Who a server is. Each law is a clause of a function that does nothing.

ghost use Rattle.law_frame.specs.pg_run.pg_server.Local.{effect};
ghost use Rattle.law_frame.specs.pg_run.pg_server.declared.input.Input.{Input};
ghost use Rattle.law_frame.specs.pg_run.pg_store.declared.store.Store.{Store};
ghost use Rattle.law_stays.specs.Stays.{IsSameServer};

/// Whatever a server holds and whatever comes to it, it is the same server of as many behind it.
pub fn servers_stay()
    ensures { (store : Store) (input : Input) → IsSameServer store (effect store input).store }
{}
