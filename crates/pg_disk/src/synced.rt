//! Changes that are on the disk once they answer.

ghost use Rattle.std.specs.Prelude.{◌≡◌, ◌≤◌, ◌<◌, ◌+◌, ◌^◌, length, OnOk};
ghost use Rattle.pg_io.specs.Causes.{HasCause};
ghost use Rattle.pg_disk.specs.Disk.{Write, Cut};
ghost use Rattle.pg_disk.specs.Synced.{IsSynced};

use crate::disk::Disk;
use pg_io::Failed;

/// Writes and syncs.
pub fn write_synced<D: Disk>(disk: &mut D, file: u8, at: u64, bytes: &[u8]) -> Result<(), Failed>
    requires { file ≤ 2 }
    ensures synced { D.tells
        → IsSynced result file (Write at bytes.now) (D.told disk.old) (D.told disk.new) }
    ensures within { OnOk result (at + length bytes.now < 2 ^ 64) }
    ensures cause { HasCause (D.faults disk.old) (D.faults disk.new) result }
{
    disk.write_at(file, at, bytes)?;
    disk.sync(file)
}

/// Cuts and syncs.
pub fn cut_synced<D: Disk>(disk: &mut D, file: u8, longest: u64) -> Result<(), Failed>
    requires { file ≤ 2 }
    ensures synced { D.tells
        → IsSynced result file (Cut longest) (D.told disk.old) (D.told disk.new) }
    ensures cause { HasCause (D.faults disk.old) (D.faults disk.new) result }
{
    disk.cut(file, longest)?;
    disk.sync(file)
}
