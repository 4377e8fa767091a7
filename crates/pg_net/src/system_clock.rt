//! The system's clock and its random bytes. What they give is known to no clause.

ghost use Rattle.pg_net.specs.Clock.{untold};

use crate::clock::Clock;
use std::random::RandomSource;
use std::time::{SystemTime, UNIX_EPOCH};

/// The milliseconds since 1970 by the system's clock, and words of its random bytes. Where the
/// system gives none, and at moments before 1970, it is 0.
#[derive(Drop)]
pub struct SystemClock<R> {
    system: R,
}

impl<R> SystemClock<R> {
    pub fn new(system: R) -> Self {
        SystemClock { system }
    }
}

impl<R: std::time::Clock> SystemClock<R> {
    fn milliseconds(&self) -> Option<u64> {
        let now = SystemTime::now(&self.system).ok()?;
        let since = now.duration_since(UNIX_EPOCH).ok()?;
        u64::try_from(since.as_millis()).ok()
    }
}

impl<R: std::time::Clock + RandomSource> Clock for SystemClock<R> {
    ghost tells = { ⊥ };

    ghost told = { λ _. untold };

    fn now(&mut self) -> u64 {
        self.milliseconds().unwrap_or(0)
    }

    fn word(&mut self) -> u64 {
        let mut bytes = [0u8; 8];
        match self.system.fill_bytes(&mut bytes) {
            Ok(()) => u64::from_le_bytes(bytes),
            Err(_) => 0,
        }
    }
}
