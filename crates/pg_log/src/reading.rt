//! A whole file, read.

ghost use Rattle.std.specs.Prelude.{◌≡◌, ◌≤◌, ◌⊎◌, IfOk, IfErr};
ghost use Rattle.pg_io.specs.Causes.{Rose};
ghost use Rattle.pg_disk.specs.Told.{given};

use crate::error::LogError;
use pg_disk::Disk;
use std::alloc::Global;

/// The most bytes that one read asks for.
const PIECE: usize = 16 * 1024;

/// More bytes than a `Vec` can have.
const LIMIT: usize = 1 << 63;

/// All bytes of the log's file.
pub fn read_file<D: Disk>(alloc: Global, disk: &mut D) -> Result<Vec<u8>, LogError>
    ensures bytes { IfOk result (λ bytes. D.tells → bytes.items ≡ given (D.told disk.old) 0) }
    ensures same { D.tells → D.told disk.new ≡ D.told disk.old }
    ensures later { D.faults disk.old ≤ D.faults disk.new }
    ensures err { IfErr result (λ e. (e ≡ LogError.OutOfMemory)
        ⊎ ((e ≡ LogError.DiskFault) × Rose (D.faults disk.old) (D.faults disk.new))) }
{
    let mut bytes = Vec::new(alloc);
    let mut piece = [0u8; PIECE];
    while bytes.len() < LIMIT {
        let count = disk.read(0, bytes.len() as u64, &mut piece)?;
        if count == 0 {
            return Ok(bytes);
        }
        bytes.extend_from_slice(&piece[..count])?;
    }
    Err(LogError::OutOfMemory)
}
