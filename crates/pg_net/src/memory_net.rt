//! A net in memory, with a list of the calls that are to fail.

ghost use Rattle.std.specs.Prelude.{◌≡◌, ◌≤◌, ◌↔◌, ◌+◌, ◌-◌, ◌^◌, [], min, length, Contains, IfOk, IsErr, OnOk, OnErr};
ghost use Rattle.pg_io.specs.Causes.{HasCause};
ghost use Rattle.pg_net.specs.Counts.{IsCounted};
ghost use Rattle.pg_net.specs.Net.{IsWithin, IsTake, IsTaken, with_bound, with_sent};
ghost use Rattle.pg_net.specs.MemoryNet.{fresh};
ghost use Rattle.pg_net.specs.declared.net.Taken.TheVariants.{Idle};

use crate::count::Count;
use crate::datagram::{Datagram, add};
use crate::net::{Net, Taken};
use crate::queue::Queue;
use pg_io::Failed;
use std::alloc::Global;
use std::marker::Model;

/// Packets to take, and those that were sent, in memory. A call that fails does nothing.
#[derive(Debug, Drop)]
pub struct MemoryNet {
    alloc: Global,
    bound: Option<u16>,
    queue: Queue,
    sent: Vec<Datagram>,
    takes: u64,
    count: Count,
}

impl Model for MemoryNet {
    ghost use Rattle.pg_net.specs.MemoryNet.{Remembered};

    ghost Value = { Remembered };

    ghost view = { λ n. record {
      told = record {
        bound = n.bound;
        left = n.queue.left;
        given = n.queue.given;
        sent = n.sent.items;
      };
      takes = n.takes;
      counts = n.count;
    } };
}

impl MemoryNet {
    /// The takes give these packets, and Idle behind the last of them. The calls whose numbers are
    /// in `fails` fail; the first call has number 0. A send that finds no memory fails too.
    pub fn new(alloc: Global, packets: Vec<Datagram>, fails: Vec<u64>) -> Self
        ensures { result ≡ fresh packets.items fails.items }
    {
        MemoryNet {
            alloc,
            bound: None,
            queue: Queue::new(packets),
            sent: Vec::new(alloc),
            takes: 0,
            count: Count::new(fails),
        }
    }

    /// The port that was bound last.
    pub fn bound(&self) -> Option<u16>
        ensures { result ≡ self.now.told.bound }
    {
        self.bound
    }

    /// The packets that were sent, the first of them first.
    pub fn sent(&self) -> &[Datagram]
        ensures { result.now ≡ self.now.told.sent }
    {
        self.sent.as_slice()
    }

    /// How many takes answered Ok.
    pub fn takes(&self) -> u64
        ensures { result ≡ self.now.takes }
    {
        self.takes
    }

    /// How many calls failed.
    pub fn faults(&self) -> u64
        ensures { result ≡ self.now.counts.faults }
    {
        self.count.faults()
    }
}

impl Net for MemoryNet {
    ghost tells = { Unit {0} };

    ghost told = { λ n. n.told };

    ghost takes = { λ n. n.takes };

    ghost faults = { λ n. n.counts.faults };

    fn bind(&mut self, port: u16) -> Result<(), Failed>
        ensures bound { OnOk result (Unit {0} → self.new.told ≡ with_bound self.old.told port) }
        ensures same { OnErr result (Unit {0} → self.new.told ≡ self.old.told) }
        ensures takes { self.new.takes ≡ self.old.takes }
        ensures cause { HasCause self.old.counts.faults self.new.counts.faults result }
        ensures fails { IsErr result ↔ Contains self.old.counts.fails self.old.counts.calls }
        ensures counted { IsCounted self.old.counts self.new.counts result }
    {
        self.count.begin()?;
        self.bound = Some(port);
        Ok(())
    }

    fn take(&mut self, buf: &mut [u8]) -> Result<Taken, Failed>
        requires { 40_001 ≤ length buf.old }
        ensures bound { IfOk result (λ answer. IsWithin 40_001 answer) }
        ensures taken { IfOk result (λ answer.
            Unit {0} → IsTake 40_001 answer buf.new self.old.told self.new.told) }
        ensures same { OnErr result (Unit {0} → self.new.told ≡ self.old.told) }
        ensures takes { OnOk result (IsTaken 1 self.old.takes self.new.takes) }
        ensures failed { OnErr result (self.new.takes ≡ self.old.takes) }
        ensures cause { HasCause self.old.counts.faults self.new.counts.faults result }
        ensures idle { IfOk result (λ answer. answer ≡ Idle ↔ self.old.told.left ≡ []) }
        ensures fails { Contains self.old.counts.fails self.old.counts.calls → IsErr result }
        ensures only { OnErr result (¬ (Contains self.old.counts.fails self.old.counts.calls)
            → self.old.told.left ≡ []) }
        ensures counted { IsCounted self.old.counts self.new.counts result }
    {
        self.count.begin()?;
        match self.queue.take(buf) {
            Some(answer) => {
                self.takes = self.takes.saturating_add(1);
                Ok(answer)
            }
            None => Err(self.count.fail()),
        }
    }

    fn send(&mut self, port: u16, bytes: &[u8]) -> Result<(), Failed>
        ensures sent { OnOk result (Unit {0}
            → self.new.told ≡ with_sent self.old.told port bytes.now) }
        ensures same { OnErr result (Unit {0} → self.new.told ≡ self.old.told) }
        ensures takes { self.new.takes ≡ self.old.takes }
        ensures cause { HasCause self.old.counts.faults self.new.counts.faults result }
        ensures fails { Contains self.old.counts.fails self.old.counts.calls → IsErr result }
        ensures counted { IsCounted self.old.counts self.new.counts result }
    {
        self.count.begin()?;
        match add(self.alloc, &mut self.sent, port, bytes) {
            Ok(()) => Ok(()),
            Err(_) => Err(self.count.fail()),
        }
    }
}
