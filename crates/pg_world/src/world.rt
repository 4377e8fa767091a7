//! A whole run: the servers, the messages between them, and all events so far.

ghost use Rattle.std.specs.Prelude.{◌≡◌, ◌++◌, ◌∷◌, [], ◌≤◌, ◌<◌, ◌↔◌, OnOk, OnErr, IfOk, IsErrOf, IsNone, Some, ◌⊎◌, false, true};
ghost use Rattle.std.specs.Option.{option_copied};
ghost use Rattle.pg_run.specs.Journal.{bag};
ghost use Rattle.pg_run.specs.Quiet.{has_some, IsQuiet, quiet_of};
ghost use Rattle.pg_run.specs.Run.{is_live};
ghost use Rattle.pg_world.specs.Played.{next_entry, held, final};
ghost use Rattle.pg_world.specs.Repeats.{repeats};

use crate::event_list::EventList;
use crate::machine::Machine;
use pg_base::NodeId;
use pg_event::{Entry, Event, Quiet};
use pg_run::quiet_is_told;
use pg_server::StepError;
use pg_store::Store;
use std::alloc::{AllocError, Global};
use std::marker::Model;

/// A run of servers 1 to n: all events so far. What the servers hold, and what is under way, is the
/// run of these events.
#[derive(Drop)]
pub struct World {
    servers: u32,
    events: EventList,
    machine: Machine,
    failed: bool,
}

impl Model for World {
    ghost use Rattle.pg_world.specs.Played.{Played};

    ghost Value = { Played };

    ghost use Rattle.pg_world.specs.PlayedInside.{seen, IsPlayed};

    ghost view = { seen };

    ghost invariant = { IsPlayed };
}

impl World {
    /// A run in which nothing has happened.
    pub fn new(alloc: Global, servers: u32) -> Result<Self, AllocError>
        requires { (1 ≤ servers) × (servers ≤ 64) }
        ensures { IfOk result (λ w. w ≡ record { servers = servers; events = []; failed = false }) }
    {
        Ok(World {
            servers,
            events: EventList::new(alloc),
            machine: Machine::new(alloc, servers)?,
            failed: false,
        })
    }

    /// How many servers the run has.
    pub fn servers(&self) -> u32
        ensures { result ≡ self.now.servers }
    {
        self.servers
    }

    /// Whether an event ran out of memory.
    pub fn has_failed(&self) -> bool
        ensures { result ≡ self.now.failed }
    {
        self.failed
    }

    /// One event more. A run that ran out of memory has failed, and says so from then on.
    pub fn step(&mut self, event: Event) -> Result<Entry, StepError>
        ensures state { OnOk result (self.new ≡ record {
          servers = self.old.servers;
          events = self.old.events ++ event ∷ [];
          failed = false;
        }) }
        ensures entry { IfOk result (λ e. e ≡ next_entry self.old event) }
        ensures failed { OnErr result (self.new.failed ≡ true) }
        ensures failed_before { IsErrOf result StepError.Failed ↔ (self.old.failed ≡ true) }
        ensures servers { self.new.servers ≡ self.old.servers }
    {
        if self.failed {
            return Err(StepError::Failed);
        }
        self.failed = true;
        self.events.push(&event)?;
        let entry = self.machine.step(event)?;
        self.failed = false;
        Ok(entry)
    }

    /// What a server holds after these events. None where the run has no such server.
    pub fn store(&self, server: NodeId) -> Option<&Store>
        requires { self.now.failed ≡ false }
        ensures held { 1 ≤ server → server ≤ self.now.servers
            → option_copied result ≡ Some (held self.now server) }
        ensures nobody { (server ≡ 0) ⊎ (self.now.servers < server) → IsNone result }
    {
        self.machine.store(server)
    }

    /// Whether the run has a server of this number that is not removed.
    pub fn is_live(&self, server: NodeId) -> bool
        requires { self.now.failed ≡ false }
        ensures { result ≡ is_live self.now.servers (final self.now) server }
    {
        self.machine.is_live(server)
    }

    /// How many versions an event would bring that were covered before: one where it delivers a
    /// message that would be accepted, and that is a cell, a delta or a last piece of a version
    /// that the receiver's replica covers; else none. It takes no memory.
    pub fn repeats(&self, event: &Event) -> u64
        requires { self.now.failed ≡ false }
        ensures { result ≡ repeats self.now.servers (final self.now) event.now }
    {
        self.machine.repeats(event)
    }

    /// Whether a message is under way.
    pub fn has_message(&self) -> bool
        requires { self.now.failed ≡ false }
        ensures { result ≡ has_some (bag (final self.now).journal) }
    {
        self.machine.has_message()
    }

    /// Whether the run is quiet: no message is under way, each live server has entered the last
    /// removal, and none owes anything. Else what it waits for first: the oldest message; then the
    /// least live server whose view is another, and its view; then, by live server, the first
    /// intention, in the order in which they began; behind a server's intentions its first
    /// unacknowledged key, by file, peer and key; and behind its keys the first place that it holds
    /// back, by id. It takes no memory.
    pub fn is_quiet(&self) -> Quiet
        requires { self.now.failed ≡ false }
        ensures answer { result ≡ quiet_of self.now.servers (final self.now) }
        ensures quiet { (result ≡ Quiet.Quiet) ↔ IsQuiet self.now.servers (final self.now) }
    {
        quiet_is_told();
        self.machine.quiet()
    }
}
