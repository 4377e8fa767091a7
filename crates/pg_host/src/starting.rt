//! How a server starts over its log.

ghost use Rattle.std.specs.Prelude.{◌≡◌, ◌≤◌, false, IfErr, IfOk, IfSome, IsSome};
ghost use Rattle.std.specs.declared.option.Option.{Option};
ghost use Rattle.pg_node_input.specs.law_lengths.law_spelled.Stores.{FitsStore};
ghost use Rattle.pg_checkpoint.specs.Saves.{Loads};
ghost use Rattle.pg_checkpoint.specs.Slots.{Slot};
ghost use Rattle.pg_disk.specs.Synced.{KeepsOthers};
ghost use Rattle.pg_disk.specs.Told.{given};
ghost use Rattle.pg_node_entry.specs.Entries.{entry_bytes};
ghost use Rattle.pg_saving.specs.Usable.{IsUsable, usable};
ghost use Rattle.pg_host.specs.Causes.{IsDiskFault, IsRefusal};
ghost use Rattle.pg_host.specs.Entries.{IsShort};
ghost use Rattle.pg_host.specs.Logs.{LeavesLog, begin_entry};
ghost use Rattle.pg_host.specs.Starts.{IsUnstarted, LeavesAtStart, Started};

use crate::folding::folded;
use crate::keeping::append;
use pg_base::{Bytes, NodeId};
use pg_checkpoint::SnapError;
use pg_disk::Disk;
use pg_event::Status;
use pg_log::{Log, LogError};
use pg_node_entry::{NodeEntry, entries_are_short};
use pg_node_input::server::Server;
use pg_saving::{Checkpoint, load_state};
use std::alloc::Global;

/// The entry that a start appends to a log, which has no entry or some.
fn begin_entry(server: NodeId, servers: u32, is_empty: bool) -> NodeEntry
    ensures is { entry_bytes result ≡ begin_entry server servers is_empty }
    ensures short { IsShort result }
{
    entries_are_short();
    if is_empty {
        NodeEntry::First { server, servers }
    } else {
        NodeEntry::Restart
    }
}

/// The checkpoint that is loaded, where it is usable over a log of so many entries.
fn loaded<D: Disk>(
    alloc: Global,
    disk: &mut D,
    server: NodeId,
    servers: u32,
    entries: u64,
) -> Result<Option<Checkpoint>, Status>
    ensures loaded { IfOk result (λ found. D.tells
        → (slot : Option Slot) × Loads (D.told disk.old) slot
        × (found ≡ usable server servers entries slot)) }
    ensures usable { IfOk result (λ found.
        IfSome found (λ c. IsUsable server servers entries c)) }
    ensures same { D.tells → D.told disk.new ≡ D.told disk.old }
    ensures later { D.faults disk.old ≤ D.faults disk.new }
    ensures err { IfErr result (λ e. IsDiskFault (D.faults disk.old) (D.faults disk.new) e) }
{
    match load_state(alloc, disk, server, servers, entries) {
        Ok(found) => Ok(found),
        Err(error) => match error {
            SnapError::OutOfMemory => Err(Status::OutOfMemory),
            SnapError::DiskFault => Err(Status::DiskFault),
            SnapError::Full => unreachable!(),
        },
    }
}

/// Opens the log, loads a checkpoint, folds the inputs behind it, and appends the entry of a start.
/// The third that it answers is how many entries the log then has.
pub fn start<D: Disk>(
    alloc: Global,
    disk: &mut D,
    buffer: &mut Bytes,
    server: NodeId,
    servers: u32,
) -> Result<(Log, Server, u64), Status>
    requires first { 1 ≤ server }
    requires last { server ≤ servers }
    requires most { servers ≤ 64 }
    ensures started { IfOk result (λ s. Started D.tells server servers
        (D.told disk.old) (D.told disk.new) s.0 s.1.store s.2) }
    ensures ready { IfOk result (λ s. IsSome s.0) }
    ensures going { IfOk result (λ s. s.1.failed ≡ false) }
    ensures fits { IfOk result (λ s. FitsStore s.1.store) }

    // Where a crash left just what a read gives, at each moment since it leaves a file that opens
    // to the same entries, or to these and the start's.
    ensures any_moment { D.tells
        → LeavesAtStart server servers (D.told disk.old) (D.told disk.new) }
    ensures others { D.tells → KeepsOthers 0 (D.told disk.old) (D.told disk.new) }
    ensures later { D.faults disk.old ≤ D.faults disk.new }
    // A log that it does not go on with it leaves as it was.
    ensures refused { IfErr result (λ e. IsRefusal e → D.tells
        → LeavesLog (D.told disk.old) (D.told disk.new)) }
    ensures err { IfErr result (λ e. IsUnstarted D.tells server servers
        (given (D.told disk.old) 0) (D.faults disk.old) (D.faults disk.new) e) }
{
    let (mut log, records) = match Log::open(alloc, disk) {
        Ok(opened) => opened,
        Err(error) => match error {
            LogError::OutOfMemory => return Err(Status::OutOfMemory),
            LogError::DiskFault => return Err(Status::DiskFault),
            LogError::BadLog(place) => return Err(Status::BadLog(place)),
            LogError::Closed => unreachable!(),
        },
    };
    let count = records.len() as u64;
    let checkpoint = match loaded(alloc, disk, server, servers, count) {
        Ok(checkpoint) => checkpoint,
        Err(status) => return Err(status),
    };
    let node = match folded(alloc, server, servers, checkpoint, records.as_slice()) {
        Ok(node) => node,
        Err(status) => return Err(status),
    };
    let entry = begin_entry(server, servers, records.is_empty());
    match append(alloc, disk, &mut log, buffer, entry) {
        Ok(_) => Ok((log, node, count + 1)),
        Err(status) => Err(status),
    }
}
