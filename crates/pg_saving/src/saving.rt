//! A server's state, saved.

ghost use Rattle.std.specs.Prelude.{◌≡◌, ◌≤◌, ◌<◌, ◌^◌, ◌↔◌, length, IsTrue, OnOk, IsErrOf};
ghost use Rattle.std.specs.declared.option.Option.{Option};
ghost use Rattle.pg_io.specs.Causes.{Rose};
ghost use Rattle.pg_checkpoint.specs.Slots.{Slot};
ghost use Rattle.pg_checkpoint.specs.Saves.{AreSettled, KeepsRest, Loads, SlotsLeave};
ghost use Rattle.pg_saving.specs.Saves.{IsSavable, LeavesSaved, Saves};

use law_states::states_are_read;
use pg_base::{Bytes, NodeId};
use pg_checkpoint::{SnapError, save, slots_load_once};
use pg_disk::Disk;
use pg_state::{fits, write};
use pg_store::Store;
use std::alloc::Global;

/// Whether it is of this server, of so many, and has a spelling.
fn is_savable(server: NodeId, servers: u32, store: &Store) -> bool
    ensures { IsTrue result ↔ IsSavable server servers store.now }
{
    store.server() == server && store.servers == servers && fits(store)
}

/// Whether the bytes are few enough for a slot.
fn is_short(bytes: &Bytes) -> bool
    ensures { IsTrue result ↔ (length bytes.now < 2 ^ 32) }
{
    bytes.len() < 1 << 32
}

/// Saves what this server, of so many, holds in the slot that is not loaded, with the number of its
/// log's entries that are folded in it. Nothing is done where it has no spelling, or one that is
/// too long for a slot, where no number is left for one, and where it is another server's.
pub fn save_state<D: Disk>(
    alloc: Global,
    disk: &mut D,
    server: NodeId,
    servers: u32,
    folded: u64,
    store: &Store,
) -> Result<(), SnapError>
    ensures saved { D.tells → (was : Option Slot) → Loads (D.told disk.old) was
        → OnOk result ((now : Option Slot) × Saves server servers folded store.now was now
        × Loads (D.told disk.new) now) }
    ensures settled { D.tells → AreSettled (D.told disk.old)
        → OnOk result (AreSettled (D.told disk.new)) }

    // At each moment since the call began a crash leaves slots that load as before, or to what the
    // server held.
    ensures any_moment { D.tells → AreSettled (D.told disk.old)
        → (was : Option Slot) → Loads (D.told disk.old) was
        → SlotsLeave (D.told disk.old) (D.told disk.new)
        (LeavesSaved server servers folded store.now was) }

    ensures others { D.tells → KeepsRest (D.told disk.old) (D.told disk.new) }
    ensures fault { IsErrOf result SnapError.DiskFault
        → Rose (D.faults disk.old) (D.faults disk.new) }
    ensures later { D.faults disk.old ≤ D.faults disk.new }
    ensures room { IsErrOf result SnapError.Full → ⊥ }
{
    slots_load_once();
    if !is_savable(server, servers, store) {
        return Ok(());
    }
    states_are_read(store);
    let mut bytes = Bytes::new(alloc);
    write(store, &mut bytes)?;
    if !is_short(&bytes) {
        return Ok(());
    }
    match save(alloc, disk, folded, bytes.as_slice()) {
        Ok(()) => Ok(()),
        Err(error) => match error {
            SnapError::Full => Ok(()),
            SnapError::OutOfMemory => Err(SnapError::OutOfMemory),
            SnapError::DiskFault => Err(SnapError::DiskFault),
        },
    }
}
