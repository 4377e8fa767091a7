//! Saving and loading.

ghost use Rattle.std.specs.Prelude.{◌≡◌, ◌≤◌, ◌<◌, ◌+◌, ◌-◌, ◌^◌, ◌⊎◌, List, ℕ, length, None, Some, IsErr, IfOk, IfErr, IfSome, OnOk, IsErrOf, MatchOption};
ghost use Rattle.std.specs.declared.option.Option.{Option};
ghost use Rattle.pg_io.specs.Causes.{Rose};
ghost use Rattle.pg_disk.specs.Told.{given};
ghost use Rattle.pg_checkpoint.specs.Slots.{Slot, Fits, behind_gate};
ghost use Rattle.pg_checkpoint.specs.Loads.{next, LoadsOldOrNew};
ghost use Rattle.pg_checkpoint.specs.Heads.{IsNext, slot_of};
ghost use Rattle.pg_checkpoint.specs.Saves.{Loads, AreSettled, SlotsLeave, IsFull, KeepsRest};

use crate::error::SnapError;
use crate::head::{Entry, HEAD, Turn, newer, next_turn, read_head};
use crate::reading::read_bytes;
use crate::writing::{replace, written_slot};
use pg_base::Bytes;
use pg_disk::Disk;
use std::alloc::Global;

/// A state that was saved, how many entries of the log are folded in it, and the number of its
/// slot, which is 0 only where nobody saved it.
#[derive(Debug, Drop)]
pub struct Saved {
    pub number: u64,
    pub folded: u64,
    pub bytes: Bytes,
}

/// Saves a state in the slot that is not loaded.
pub fn save<D: Disk>(
    alloc: Global,
    disk: &mut D,
    folded: u64,
    bytes: &[u8],
) -> Result<(), SnapError>
    requires { length bytes.now < 2 ^ 32 }
    // From an Ok on the slots load to it, and so they do behind each crash: where one left just
    // what a read gives, it does so again.
    ensures saved { D.tells → OnOk result ((was : Option Slot) × Loads (D.told disk.old) was
        × Loads (D.told disk.new) (Some (next was folded bytes.now))) }
    ensures settled { D.tells → AreSettled (D.told disk.old)
        → OnOk result (AreSettled (D.told disk.new)) }

    // At each moment since the call began a crash leaves slots that load as before or to the new
    // state.
    ensures any_moment { D.tells → AreSettled (D.told disk.old)
        → (was : Option Slot) → Loads (D.told disk.old) was
        → SlotsLeave (D.told disk.old) (D.told disk.new)
        (LoadsOldOrNew was (next was folded bytes.now)) }

    ensures full { IsErrOf result SnapError.Full → D.tells
        → IsFull (D.told disk.old) × (D.told disk.new ≡ D.told disk.old) }
    // Where no number is left it answers so, or the disk or the memory failed.
    ensures whole { D.tells → IsFull (D.told disk.old)
        → IsErr result × (D.told disk.new ≡ D.told disk.old) }

    ensures others { D.tells → KeepsRest (D.told disk.old) (D.told disk.new) }
    ensures fault { IsErrOf result SnapError.DiskFault
        → Rose (D.faults disk.old) (D.faults disk.new) }
    ensures later { D.faults disk.old ≤ D.faults disk.new }
    ensures memory { IsErrOf result SnapError.OutOfMemory → D.tells
        → D.told disk.new ≡ D.told disk.old }
{
    let (turn, slot) = prepare(alloc, disk, folded, bytes)?;
    replace(disk, turn.file, turn.gate, &slot)?;
    Ok(())
}

/// Where the next slot goes, and what is to stand behind its gate.
fn prepare<D: Disk>(
    alloc: Global,
    disk: &mut D,
    folded: u64,
    bytes: &[u8],
) -> Result<(Turn, Vec<u8>), SnapError>
    requires { length bytes.now < 2 ^ 32 }
    ensures turn { IfOk result (λ next. D.tells → IsNext (D.told disk.old) next.0) }
    ensures within { IfOk result (λ next. next.0.file ≤ 2) }
    ensures slot { IfOk result (λ next. next.1.items ≡ behind_gate (record {
      number = next.0.number;
      folded = folded;
      state = bytes.now;
    })) }
    ensures fits { IfOk result (λ next. Fits (record {
      number = next.0.number;
      folded = folded;
      state = bytes.now;
    })) }
    ensures full { IsErrOf result SnapError.Full → D.tells → IsFull (D.told disk.old) }
    ensures same { D.tells → D.told disk.new ≡ D.told disk.old }
    ensures fault { IsErrOf result SnapError.DiskFault
        → Rose (D.faults disk.old) (D.faults disk.new) }
    ensures later { D.faults disk.old ≤ D.faults disk.new }
{
    let first = read_head(alloc, disk, 1)?;
    let second = read_head(alloc, disk, 2)?;
    let turn = next_turn(&first, &second)?;
    let slot = written_slot(alloc, turn.number, folded, bytes)?;
    Ok((turn, slot))
}

/// The state that was saved last, or none exactly where both slots are empty.
pub fn load<D: Disk>(alloc: Global, disk: &mut D) -> Result<Option<Saved>, SnapError>
    ensures loaded { IfOk result (λ found. D.tells
        → MatchOption found (Loads (D.told disk.old) None) (λ saved.
        Loads (D.told disk.old) (Some (record {
          number = saved.number;
          folded = saved.folded;
          state = saved.bytes;
        })))) }
    ensures same { D.tells → D.told disk.new ≡ D.told disk.old }
    ensures fault { IsErrOf result SnapError.DiskFault
        → Rose (D.faults disk.old) (D.faults disk.new) }
    ensures later { D.faults disk.old ≤ D.faults disk.new }
    ensures room { IsErrOf result SnapError.Full → ⊥ }
{
    let found = find(alloc, disk)?;
    match found {
        None => Ok(None),
        Some((file, entry)) => {
            let state = read_bytes(alloc, disk, file, HEAD as u64, entry.length as usize)?;
            Ok(Some(Saved {
                number: entry.number,
                folded: entry.folded,
                bytes: Bytes::from_vec(state),
            }))
        }
    }
}

/// The slot that is loaded, and its file.
fn find<D: Disk>(alloc: Global, disk: &mut D) -> Result<Option<(u8, Entry)>, SnapError>
    ensures found { IfOk result (λ found. D.tells
        → MatchOption found (Loads (D.told disk.old) None) (λ found.
        Loads (D.told disk.old) (Some (slot_of found.1 (given (D.told disk.old) found.0))))) }
    ensures within { IfOk result (λ found. IfSome found (λ found. found.0 ≤ 2)) }
    ensures same { D.tells → D.told disk.new ≡ D.told disk.old }
    ensures later { D.faults disk.old ≤ D.faults disk.new }
    ensures err { IfErr result (λ e. (e ≡ SnapError.OutOfMemory)
        ⊎ ((e ≡ SnapError.DiskFault) × Rose (D.faults disk.old) (D.faults disk.new))) }
{
    let first = read_head(alloc, disk, 1)?;
    let second = read_head(alloc, disk, 2)?;
    Ok(newer(&first, &second))
}
