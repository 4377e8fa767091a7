//! Bytes of a file, read.

ghost use Rattle.std.specs.Prelude.{◌≡◌, ◌≤◌, ◌<◌, ◌^◌, ◌⊎◌, take, drop, IfOk, IfErr};
ghost use Rattle.pg_io.specs.Causes.{Rose};
ghost use Rattle.pg_disk.specs.Told.{given};

use crate::error::SnapError;
use pg_disk::Disk;
use std::alloc::Global;

/// The most bytes that one read asks for.
const PIECE: usize = 16 * 1024;

/// The bytes of the file from a place on: so many, or all where there are fewer.
pub fn read_bytes<D: Disk>(
    alloc: Global,
    disk: &mut D,
    file: u8,
    at: u64,
    most: usize,
) -> Result<Vec<u8>, SnapError>
    requires is_file { file ≤ 2 }
    requires is_near { at ≤ 21 }
    requires is_short { most < 2 ^ 32 }
    ensures bytes { IfOk result (λ bytes.
        D.tells → bytes.items ≡ take most (drop at (given (D.told disk.old) file))) }
    ensures same { D.tells → D.told disk.new ≡ D.told disk.old }
    ensures later { D.faults disk.old ≤ D.faults disk.new }
    ensures err { IfErr result (λ e. (e ≡ SnapError.OutOfMemory)
        ⊎ ((e ≡ SnapError.DiskFault) × Rose (D.faults disk.old) (D.faults disk.new))) }
{
    let mut bytes = Vec::new(alloc);
    let mut piece = [0u8; PIECE];
    while bytes.len() < most {
        let count = disk.read(file, at + bytes.len() as u64, &mut piece)?;
        if count == 0 {
            return Ok(bytes);
        }
        let wanted = count.min(most - bytes.len());
        bytes.extend_from_slice(&piece[..wanted])?;
    }
    Ok(bytes)
}
