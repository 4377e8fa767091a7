//! What starts programs.

ghost use Rattle.std.specs.Prelude.{◌≡◌, ℕ, map, string_bytes, IfOk, OnErr};
ghost use Rattle.pg_io.specs.Causes.{HasCause};
ghost use Rattle.pg_net.specs.Spawner.{Told, with_started, with_wait};

use pg_io::Failed;

/// What starts programs, and waits for them to end.
pub trait Spawner {
    /// That it tells what it started.
    ghost tells: { Type 0 };

    /// What was started so far, and the waits that gave a status.
    ghost told: { Self → Told };

    /// How often a call has failed. The count never falls, and stops at the greatest `u64`.
    ghost faults: { Self → ℕ };

    /// Starts the program that the first word names, with the other words, and answers the child's
    /// number. A call that fails starts nothing.
    fn start(&mut self, words: &[String]) -> Result<u32, Failed>
        ensures started { IfOk result (λ child. tells
            → told self.new ≡ with_started (told self.old) (map string_bytes words.now) child) }
        ensures same { OnErr result (tells → told self.new ≡ told self.old) }
        ensures cause { HasCause (faults self.old) (faults self.new) result };

    /// Waits until the child has ended, and answers the status that it ended with.
    fn wait(&mut self, child: u32) -> Result<i32, Failed>
        ensures waited { IfOk result (λ status. tells
            → told self.new ≡ with_wait (told self.old) child status) }
        ensures same { OnErr result (tells → told self.new ≡ told self.old) }
        ensures cause { HasCause (faults self.old) (faults self.new) result };
}
