//! What a call does to a file's bytes.

ghost use Rattle.std.specs.Prelude.{◌≡◌, ◌≤◌, IfOk, length, List};
ghost use Rattle.pg_disk.specs.Disk.{changed, written};
ghost use Rattle.pg_disk.specs.Told.{IsRead};
ghost use Rattle.pg_disk.specs.Memory.{change_of};

use std::alloc::{AllocError, Global};

/// A change of a file.
#[derive(Debug, Drop)]
pub enum Edit {
    Write { at: u64, bytes: Vec<u8> },
    Cut { longest: u64 },
    Sync,
}

/// The file behind the change.
pub fn edited(alloc: Global, mut file: Vec<u8>, edit: &Edit) -> Result<Vec<u8>, AllocError>
    ensures { IfOk result (λ new. new.items ≡ changed (change_of edit.now) file.items) }
{
    match edit {
        Edit::Write { at, bytes } => overwritten(alloc, &file, *at as usize, bytes),
        Edit::Cut { longest } => {
            file.truncate(*longest as usize);
            Ok(file)
        }
        Edit::Sync => Ok(file),
    }
}

/// The file with these bytes from an offset on.
fn overwritten(alloc: Global, file: &[u8], at: usize, bytes: &[u8]) -> Result<Vec<u8>, AllocError>
    ensures { IfOk result (λ new. new.items ≡ written at bytes.now file.now) }
{
    if bytes.is_empty() {
        return file.to_vec(alloc);
    }
    let mut new = file[..at.min(file.len())].to_vec(alloc)?;
    new.resize(at, 0)?;
    new.extend_from_slice(bytes)?;
    if new.len() < file.len() {
        new.extend_from_slice(&file[new.len()..])?;
    }
    Ok(new)
}

/// Copies bytes of the file from an offset on to the start of the buffer, and says how many.
pub fn copied(file: &[u8], at: usize, buf: &mut [u8]) -> usize
    ensures bound { result ≤ length buf.new }
    ensures read { IsRead file.now at result buf.new }
{
    let from = at.min(file.len());
    let count = buf.len().min(file.len() - from);
    buf[..count].copy_from_slice(&file[from..from + count]);
    count
}
