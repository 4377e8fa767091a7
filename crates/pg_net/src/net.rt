//! What packets come by and go by.

ghost use Rattle.std.specs.Prelude.{◌≡◌, ◌≤◌, ◌+◌, ◌-◌, ◌^◌, ℕ, min, length, IfOk, OnOk, OnErr};
ghost use Rattle.pg_io.specs.Causes.{HasCause};
ghost use Rattle.pg_net.specs.Net.{Told, IsWithin, IsTake, IsTaken, with_bound, with_sent};

use pg_io::Failed;

/// What a take gave: a packet of so many bytes, from this port, or nothing.
#[derive(Clone, Copy, Debug, PartialEq, Eq)]
pub enum Taken {
    Packet { port: u16, length: usize },
    Idle,
}

/// What packets come by and go by, on one machine: each server has a port.
pub trait Net {
    /// That it tells what came and went. No clause says which packets come or go by a net that does
    /// not tell.
    ghost tells: { Type 0 };

    /// What came and went so far.
    ghost told: { Self → Told };

    /// How many takes answered Ok. The count stops at the greatest `u64`.
    ghost takes: { Self → ℕ };

    /// How often a call has failed. The count never falls, and stops at the greatest `u64`.
    ghost faults: { Self → ℕ };

    /// From now on packets come to this port, and go out from it. Port 0 stands for a free one.
    fn bind(&mut self, port: u16) -> Result<(), Failed>
        ensures bound { OnOk result (tells → told self.new ≡ with_bound (told self.old) port) }
        ensures same { OnErr result (tells → told self.new ≡ told self.old) }
        ensures takes { takes self.new ≡ takes self.old }
        ensures cause { HasCause (faults self.old) (faults self.new) result };

    /// Takes the next packet, whose bytes go to the start of the buffer. A packet of more than
    /// 40,001 bytes is given as its first 40,001 bytes: so it is seen that it is longer than
    /// 40,000.
    fn take(&mut self, buf: &mut [u8]) -> Result<Taken, Failed>
        requires { 40_001 ≤ length buf.old }
        ensures bound { IfOk result (λ answer. IsWithin 40_001 answer) }
        ensures taken { IfOk result (λ answer.
            tells → IsTake 40_001 answer buf.new (told self.old) (told self.new)) }
        ensures same { OnErr result (tells → told self.new ≡ told self.old) }
        ensures takes { OnOk result (IsTaken 1 (takes self.old) (takes self.new)) }
        ensures failed { OnErr result (takes self.new ≡ takes self.old) }
        ensures cause { HasCause (faults self.old) (faults self.new) result };

    /// Sends these bytes to a port, as one packet. A call that fails sends nothing.
    fn send(&mut self, port: u16, bytes: &[u8]) -> Result<(), Failed>
        ensures sent { OnOk result (tells
            → told self.new ≡ with_sent (told self.old) port bytes.now) }
        ensures same { OnErr result (tells → told self.new ≡ told self.old) }
        ensures takes { takes self.new ≡ takes self.old }
        ensures cause { HasCause (faults self.old) (faults self.new) result };
}
