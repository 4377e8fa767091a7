//! The calls on an object in memory.

ghost use Rattle.std.specs.Prelude.{◌≡◌, ◌≤◌, ◌+◌, ◌-◌, ◌^◌, ◌↔◌, min, Contains, IsErr};
ghost use Rattle.pg_io.specs.Causes.{HasCause};
ghost use Rattle.pg_net.specs.Counts.{IsCounted, none_made};

use pg_io::Failed;
use std::marker::Model;

/// Those that are to fail, how many were made, and how many failed.
#[derive(Debug, Drop)]
pub struct Count {
    fails: Vec<u64>,
    made: u64,
    faults: u64,
}

impl Model for Count {
    ghost use Rattle.pg_net.specs.Counts.{Counts};

    ghost Value = { Counts };

    ghost view = { λ c. record { fails = c.fails.items; calls = c.made; faults = c.faults } };
}

impl Count {
    pub fn new(fails: Vec<u64>) -> Self
        ensures { result ≡ none_made fails.items }
    {
        Count {
            fails,
            made: 0,
            faults: 0,
        }
    }

    pub fn faults(&self) -> u64
        ensures { result ≡ self.now.faults }
    {
        self.faults
    }

    /// Counts a call, which fails where its number is listed.
    pub fn begin(&mut self) -> Result<(), Failed>
        ensures fails { IsErr result ↔ Contains self.old.fails self.old.calls }
        ensures counted { IsCounted self.old self.new result }
        ensures cause { HasCause self.old.faults self.new.faults result }
    {
        let call = self.made;
        self.made = call.saturating_add(1);
        if self.fails.contains(&call) {
            return Err(Failed::counted(&mut self.faults));
        }
        Ok(())
    }

    /// A failure of the call that was counted last.
    pub fn fail(&mut self) -> Failed
        ensures count { self.new.faults ≡ min (self.old.faults + 1) (2 ^ 64 - 1) }
        ensures later { self.old.faults ≤ self.new.faults }
        ensures calls { self.new.calls ≡ self.old.calls }
        ensures fails { self.new.fails ≡ self.old.fails }
    {
        Failed::counted(&mut self.faults)
    }
}
