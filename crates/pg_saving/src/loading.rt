//! A server's state, loaded.

ghost use Rattle.std.specs.Prelude.{◌≡◌, ◌≤◌, Some, IfOk, IfSome, IsErrOf};
ghost use Rattle.std.specs.declared.option.Option.{Option};
ghost use Rattle.pg_io.specs.Causes.{Rose};
ghost use Rattle.pg_checkpoint.specs.Slots.{Slot};
ghost use Rattle.pg_checkpoint.specs.Saves.{Loads};
ghost use Rattle.pg_state.specs.Fits.{FitsState};
ghost use Rattle.pg_state_read.specs.Whole.{Gives, state_of};
ghost use Rattle.pg_saving.specs.Usable.{IsUsable, is_of, usable};

use law_states::states_are_spelled;
use pg_base::NodeId;
use pg_checkpoint::{Saved, SnapError, load};
use pg_disk::Disk;
use pg_state_read::{StateError, read};
use pg_store::Store;
use std::alloc::{AllocError, Global};

/// What a server held, and how many entries of its log are folded in it.
#[derive(Debug, Drop)]
pub struct Checkpoint {
    pub folded: u64,
    pub store: Store,
}

/// Whether the state is of this server, of so many, and folds an entry at least of a log of so
/// many, and no more than it has.
fn is_of(server: NodeId, servers: u32, entries: u64, folded: u64, store: &Store) -> bool
    ensures { result ≡ is_of server servers entries folded store.now }
{
    store.server() == server && store.servers == servers && 1 <= folded && folded <= entries
}

/// The store of which the bytes are the state.
fn read_store(alloc: Global, bytes: &[u8]) -> Result<Store, StateError>
    ensures read { Gives (λ s. s) result (state_of bytes.now) }
    ensures fits { IfOk result (λ s. FitsState s) }
{
    states_are_spelled();
    match read(alloc, bytes) {
        Ok(store) => Ok(store),
        Err(error) => Err(error),
    }
}

/// The checkpoint in a slot, if it is usable over a log of so many entries.
fn usable(
    alloc: Global,
    saved: Saved,
    server: NodeId,
    servers: u32,
    entries: u64,
) -> Result<Option<Checkpoint>, AllocError>
    ensures is { IfOk result (λ found. found ≡ usable server servers entries (Some (record {
      number = saved.number;
      folded = saved.folded;
      state = saved.bytes;
    }))) }
    ensures usable { IfOk result (λ found.
        IfSome found (λ c. IsUsable server servers entries c)) }
{
    let Saved {
        number,
        folded,
        bytes,
    } = saved;
    if number == 0 {
        return Ok(None);
    }
    match read_store(alloc, bytes.as_slice()) {
        Ok(store) => {
            if is_of(server, servers, entries, folded, &store) {
                Ok(Some(Checkpoint { folded, store }))
            } else {
                Ok(None)
            }
        }
        Err(error) => match error {
            StateError::OutOfMemory => Err(AllocError),
            StateError::Short(_) => Ok(None),
            StateError::BadTag(_) => Ok(None),
            StateError::TooLong(_) => Ok(None),
            StateError::Tail(_) => Ok(None),
        },
    }
}

/// The state that the slots load to, where this server, of so many, can go on with it over a log of
/// so many entries; else none.
pub fn load_state<D: Disk>(
    alloc: Global,
    disk: &mut D,
    server: NodeId,
    servers: u32,
    entries: u64,
) -> Result<Option<Checkpoint>, SnapError>
    ensures loaded { IfOk result (λ found. D.tells
        → (slot : Option Slot) × Loads (D.told disk.old) slot
        × (found ≡ usable server servers entries slot)) }
    ensures usable { IfOk result (λ found.
        IfSome found (λ c. IsUsable server servers entries c)) }
    ensures same { D.tells → D.told disk.new ≡ D.told disk.old }
    ensures fault { IsErrOf result SnapError.DiskFault
        → Rose (D.faults disk.old) (D.faults disk.new) }
    ensures later { D.faults disk.old ≤ D.faults disk.new }
    ensures room { IsErrOf result SnapError.Full → ⊥ }
{
    match load(alloc, disk)? {
        None => Ok(None),
        Some(saved) => Ok(usable(alloc, saved, server, servers, entries)?),
    }
}
