//! What keeps files.

ghost use Rattle.std.specs.Prelude.{◌≡◌, ◌≤◌, ◌<◌, ◌+◌, ◌^◌, List, ℕ, length, IfOk, OnOk, OnErr};
ghost use Rattle.std.specs.Io.{ReadsAtMost};
ghost use Rattle.pg_io.specs.Causes.{HasCause};
ghost use Rattle.pg_disk.specs.Disk.{Write, Cut, Sync};
ghost use Rattle.pg_disk.specs.Told.{Told, IsRead, IsTried, ReadsImages, given};

use pg_io::Failed;

/// What keeps three files for each name. The calls speak of the files of the name that was chosen
/// last: at first of those of the empty name.
pub trait Disk {
    /// That it tells what was done. No clause says what a disk holds that does not tell.
    ghost tells: { Type 0 };

    /// What was done so far.
    ghost told: { Self → Told };

    /// How often a call has failed. The count never falls, and stops at the greatest `u64`.
    ghost faults: { Self → ℕ };

    /// From now on the calls speak of the files of this name. No file changes.
    fn choose(&mut self, name: &str) -> Result<(), Failed>
        ensures chosen { OnOk result (tells
            → told self.new ≡ record { chosen = name.now; history = (told self.old).history }) }
        ensures same { OnErr result (tells → told self.new ≡ told self.old) }
        ensures cause { HasCause (faults self.old) (faults self.new) result };

    /// How many bytes the file has.
    fn length(&mut self, file: u8) -> Result<u64, Failed>
        requires { file ≤ 2 }
        ensures length { IfOk result (λ n. tells → n ≡ length (given (told self.old) file)) }
        ensures same { tells → told self.new ≡ told self.old }
        ensures cause { HasCause (faults self.old) (faults self.new) result };

    /// Reads into the buffer from its start, and answers how many bytes came. Into a buffer with
    /// room no byte comes only at or behind the file's end.
    fn read(&mut self, file: u8, at: u64, buf: &mut [u8]) -> Result<usize, Failed>
        requires { file ≤ 2 }
        ensures bound { ReadsAtMost result buf.new }
        ensures bytes { IfOk result (λ n.
            tells → IsRead (given (told self.old) file) at n buf.new) }
        ensures same { tells → told self.new ≡ told self.old }
        ensures cause { HasCause (faults self.old) (faults self.new) result };

    /// Writes over what is there, and behind the end.
    fn write_at(&mut self, file: u8, at: u64, bytes: &[u8]) -> Result<(), Failed>
        requires { file ≤ 2 }
        ensures written { tells
            → IsTried result file (Write at bytes.now) (told self.old) (told self.new) }
        ensures within { OnOk result (at + length bytes.now < 2 ^ 64) }
        ensures cause { HasCause (faults self.old) (faults self.new) result };

    /// Cuts the file to a length. A file that has no more bytes stays as it is.
    fn cut(&mut self, file: u8, longest: u64) -> Result<(), Failed>
        requires { file ≤ 2 }
        ensures cut { tells → IsTried result file (Cut longest) (told self.old) (told self.new) }
        ensures cause { HasCause (faults self.old) (faults self.new) result };

    /// Once it answers Ok, a crash leaves what a read gives.
    fn sync(&mut self, file: u8) -> Result<(), Failed>
        requires { file ≤ 2 }
        ensures synced { tells → IsTried result file Sync (told self.old) (told self.new) }
        ensures cause { HasCause (faults self.old) (faults self.new) result };

    /// What a read gives is one of the things that a crash may leave.
    ghost reads_images: { tells → (disk : Self) → ReadsImages (told disk).history };
}
