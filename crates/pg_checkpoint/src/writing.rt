//! A slot that is written.

ghost use Rattle.std.specs.Prelude.{◌≡◌, ◌≤◌, ◌<◌, ◌^◌, [], ◌∷◌, length, IfOk};
ghost use Rattle.pg_io.specs.Causes.{HasCause};
ghost use Rattle.pg_disk.specs.Told.{given};
ghost use Rattle.pg_disk.specs.Synced.{IsSynced, KeepsOthers};
ghost use Rattle.pg_checkpoint.specs.Slots.{Slot, Fits, behind_gate};
ghost use Rattle.pg_checkpoint.specs.Heads.{gate_of, closing, IsReplaced};

use pg_disk::{Disk, write_synced};
use pg_io::Failed;
use std::alloc::{AllocError, Global};

/// What stands behind the gate of a slot with this state.
pub fn written_slot(
    alloc: Global,
    number: u64,
    folded: u64,
    state: &[u8],
) -> Result<Vec<u8>, AllocError>
    requires { length state.now < 2 ^ 32 }
    ensures { IfOk result (λ bytes. bytes.items
        ≡ behind_gate (record { number = number; folded = folded; state = state.now })) }
{
    let mut bytes = number.to_be_bytes().to_vec(alloc)?;
    bytes.extend_from_slice(&folded.to_be_bytes())?;
    bytes.extend_from_slice(&(state.len() as u32).to_be_bytes())?;
    bytes.extend_from_slice(state)?;
    Ok(bytes)
}

/// Closes a gate that is open or is not there, and syncs. A closed gate keeps its value, since a
/// write over it could leave it open.
fn close<D: Disk>(disk: &mut D, file: u8, gate: Option<u8>) -> Result<(), Failed>
    requires { file ≤ 2 }
    ensures synced { D.tells
        → IsSynced result file (closing gate) (D.told disk.old) (D.told disk.new) }
    ensures cause { HasCause (D.faults disk.old) (D.faults disk.new) result }
{
    match gate {
        None => write_synced(disk, file, 0, &[0]),
        Some(1) => write_synced(disk, file, 0, &[0]),
        Some(_) => disk.sync(file),
    }
}

/// Writes a slot: closes the gate, writes what stands behind it, and opens the gate. Each is synced
/// before the next.
pub fn replace<D: Disk>(
    disk: &mut D,
    file: u8,
    gate: Option<u8>,
    bytes: &[u8],
) -> Result<(), Failed>
    requires { file ≤ 2 }
    ensures keeps { D.tells → KeepsOthers file (D.told disk.old) (D.told disk.new) }
    ensures replaced { D.tells → gate ≡ gate_of (given (D.told disk.old) file) → (slot : Slot)
        → Fits slot → bytes.now ≡ behind_gate slot
        → IsReplaced result file slot (D.told disk.old) (D.told disk.new) }
    ensures cause { HasCause (D.faults disk.old) (D.faults disk.new) result }
{
    close(disk, file, gate)?;
    write_synced(disk, file, 1, bytes)?;
    write_synced(disk, file, 0, &[1])
}
