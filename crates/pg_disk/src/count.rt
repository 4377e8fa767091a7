//! The calls on a disk in memory.

ghost use Rattle.std.specs.Prelude.{◌≡◌, ◌+◌, ◌-◌, ◌^◌, ◌↔◌, min, Contains, IsErr, OnOk};
ghost use Rattle.pg_io.specs.Causes.{HasCause};

use pg_io::Failed;

/// Those that are to fail, how many were made, and how many failed.
#[derive(Debug, Drop)]
pub struct Count {
    pub fails: Vec<u64>,
    pub made: u64,
    pub faults: u64,
}

impl Count {
    pub fn new(fails: Vec<u64>) -> Self
        ensures { result ≡ record { fails = fails; made = 0; faults = 0 } }
    {
        Count {
            fails,
            made: 0,
            faults: 0,
        }
    }

    /// Counts a call, which fails where its number is listed.
    pub fn begin(&mut self) -> Result<(), Failed>
        ensures fails { IsErr result ↔ Contains self.old.fails.items self.old.made }
        ensures made { self.new.made ≡ min (self.old.made + 1) (2 ^ 64 - 1) }
        ensures same { self.new.fails ≡ self.old.fails }
        ensures ok { OnOk result (self.new.faults ≡ self.old.faults) }
        ensures cause { HasCause self.old.faults self.new.faults result }
    {
        let call = self.made;
        self.made = call.saturating_add(1);
        if self.fails.contains(&call) {
            return Err(Failed::counted(&mut self.faults));
        }
        Ok(())
    }
}
