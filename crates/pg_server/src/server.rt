//! A server.

ghost use Rattle.std.specs.Prelude.{◌≡◌, ◌↔◌, OnOk, OnErr, IfOk, IsErrOf, slice_get, false, true};
ghost use Rattle.pg_calls.specs.pg_store.Store.{new_store};
ghost use Rattle.pg_server.specs.Local.{effect};
ghost use Rattle.pg_server.specs.Owing.{owed};

use crate::error::StepError;
use crate::input::{Input, Out};
use crate::owing::first_owed;
use crate::receiving::effect;
use pg_base::NodeId;
use pg_calls::store::Store;
use pg_event::Owing;
use std::alloc::{AllocError, Global};

/// A server: what it holds, and whether an input ran out of memory.
#[derive(Debug, Drop)]
pub struct Server {
    store: Store,
    failed: bool,
}

impl Server {
    /// A server of a run with so many servers, to which nothing has come.
    pub fn new(alloc: Global, server: NodeId, servers: u32) -> Result<Server, AllocError>
        ensures store { IfOk result (λ s. s.store ≡ new_store servers server) }
        ensures going { IfOk result (λ s. s.failed ≡ false) }
    {
        Ok(Server {
            store: Store::new(alloc, server, servers)?,
            failed: false,
        })
    }

    /// A server that holds this, as one does whose state was saved.
    pub fn from_store(store: Store) -> Server
        ensures store { result.store ≡ store }
        ensures going { result.failed ≡ false }
    {
        Server {
            store,
            failed: false,
        }
    }

    /// Whether an input ran out of memory.
    pub fn has_failed(&self) -> bool
        ensures { result ≡ self.now.failed }
    {
        self.failed
    }

    /// Takes an input, and says what comes of it. Where memory ran out the server has failed, may
    /// be changed in part, and takes nothing more.
    pub fn step(&mut self, input: Input) -> Result<Out, StepError>
        ensures store { OnOk result (self.new.store ≡ (effect self.old.store input).store) }
        ensures out { IfOk result (λ out. out ≡ (effect self.old.store input).out) }
        ensures going { OnOk result (self.new.failed ≡ false) }
        ensures failed { OnErr result (self.new.failed ≡ true) }
        ensures failed_before { IsErrOf result StepError.Failed ↔ (self.old.failed ≡ true) }
    {
        if self.failed {
            return Err(StepError::Failed);
        }
        self.failed = true;
        let out = effect(&mut self.store, input)?;
        self.failed = false;
        Ok(out)
    }

    /// The first that the server owes: an intention, in the order in which they began, or else a
    /// key that a peer has not acknowledged, by file, peer and key, or else a place that it holds
    /// back, by id. It takes no memory.
    pub fn owed(&self) -> Option<Owing>
        ensures { result ≡ slice_get (owed self.now.store) 0 }
    {
        first_owed(&self.store)
    }

    /// What the server holds.
    pub fn store(&self) -> &Store
        ensures { result.now ≡ self.now.store }
    {
        &self.store
    }
}
