//! A spawner in memory, with a list of the calls that are to fail.

ghost use Rattle.std.specs.Prelude.{◌≡◌, ◌≤◌, ◌++◌, ◌∷◌, [], map, string_bytes, length, Contains, IfOk, IfSome, IfNone, IsErr, OnOk, OnErr};
ghost use Rattle.pg_io.specs.Causes.{HasCause};
ghost use Rattle.pg_net.specs.Counts.{IsCounted};
ghost use Rattle.pg_net.specs.Spawner.{fresh, status_of, with_started, with_wait};

use crate::count::Count;
use crate::spawner::Spawner;
use crate::started::{Started, Waited};
use pg_io::Failed;
use std::alloc::Global;
use std::marker::Model;

/// Programs that are only noted. A child's number is how many were started before it. A call that
/// fails does nothing.
#[derive(Debug, Drop)]
pub struct MemorySpawner {
    alloc: Global,
    statuses: Vec<i32>,
    started: Vec<Started>,
    waits: Vec<Waited>,
    count: Count,
}

impl Model for MemorySpawner {
    ghost use Rattle.pg_net.specs.Spawner.{Remembered};

    ghost Value = { Remembered };

    ghost view = { λ s. record {
      told = record { started = s.started.items; waits = s.waits.items };
      statuses = s.statuses.items;
      counts = s.count;
    } };
}

impl MemorySpawner {
    /// The children end with these statuses, the first child with the first of them, and with 0
    /// where there is none for one. The calls whose numbers are in `fails` fail; the first call has
    /// number 0. A call that finds no memory fails too.
    pub fn new(alloc: Global, statuses: Vec<i32>, fails: Vec<u64>) -> Self
        ensures { result ≡ fresh statuses.items fails.items }
    {
        MemorySpawner {
            alloc,
            statuses,
            started: Vec::new(alloc),
            waits: Vec::new(alloc),
            count: Count::new(fails),
        }
    }

    /// What was started, the first of it first.
    pub fn started(&self) -> &[Started]
        ensures { result.now ≡ self.now.told.started }
    {
        self.started.as_slice()
    }

    /// The waits that gave a status, the first of them first.
    pub fn waits(&self) -> &[Waited]
        ensures { result.now ≡ self.now.told.waits }
    {
        self.waits.as_slice()
    }

    /// How many calls failed.
    pub fn faults(&self) -> u64
        ensures { result ≡ self.now.counts.faults }
    {
        self.count.faults()
    }

    /// Notes a program; nothing where there is no memory, or no number for the child.
    fn note(&mut self, words: &[String]) -> Option<u32>
        ensures some { IfSome result (λ child. child ≡ length self.old.told.started
            × self.new.told ≡ with_started self.old.told (map string_bytes words.now) child) }
        ensures none { IfNone result (self.new.told ≡ self.old.told) }
        ensures same { self.new.counts ≡ self.old.counts × self.new.statuses ≡ self.old.statuses }
    {
        let child = u32::try_from(self.started.len()).ok()?;
        let started = Started::new(self.alloc, words, child).ok()?;
        self.started.push(started).ok()?;
        Some(child)
    }
}

impl Spawner for MemorySpawner {
    ghost tells = { Unit {0} };

    ghost told = { λ s. s.told };

    ghost faults = { λ s. s.counts.faults };

    fn start(&mut self, words: &[String]) -> Result<u32, Failed>
        ensures started { IfOk result (λ child. Unit {0}
            → self.new.told ≡ with_started self.old.told (map string_bytes words.now) child) }
        ensures same { OnErr result (Unit {0} → self.new.told ≡ self.old.told) }
        ensures cause { HasCause self.old.counts.faults self.new.counts.faults result }
        ensures number { IfOk result (λ child. child ≡ length self.old.told.started) }
        ensures statuses { self.new.statuses ≡ self.old.statuses }
        ensures fails { Contains self.old.counts.fails self.old.counts.calls → IsErr result }
        ensures counted { IsCounted self.old.counts self.new.counts result }
    {
        self.count.begin()?;
        match self.note(words) {
            Some(child) => Ok(child),
            None => Err(self.count.fail()),
        }
    }

    fn wait(&mut self, child: u32) -> Result<i32, Failed>
        ensures waited { IfOk result (λ status. Unit {0}
            → self.new.told ≡ with_wait self.old.told child status) }
        ensures same { OnErr result (Unit {0} → self.new.told ≡ self.old.told) }
        ensures cause { HasCause self.old.counts.faults self.new.counts.faults result }
        ensures status { IfOk result (λ status. status ≡ status_of self.old.statuses child) }
        ensures unknown { length self.old.told.started ≤ child → IsErr result }
        ensures statuses { self.new.statuses ≡ self.old.statuses }
        ensures fails { Contains self.old.counts.fails self.old.counts.calls → IsErr result }
        ensures counted { IsCounted self.old.counts self.new.counts result }
    {
        self.count.begin()?;
        let index = child as usize;
        let status = self.statuses.get(index).copied().unwrap_or(0);
        if index < self.started.len() && self.waits.push(Waited { child, status }).is_ok() {
            return Ok(status);
        }
        Err(self.count.fail())
    }
}
