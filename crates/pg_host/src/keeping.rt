//! An input, kept.

ghost use Rattle.std.specs.Prelude.{◌≡◌, ◌≤◌, ◌∷◌, ◌++◌, [], ℕ, List, IsSome, IfOk, OnOk, IfErr};
ghost use Rattle.pg_node_input.specs.law_lengths.Packets.{IsAskedFew};
ghost use Rattle.pg_node_input.specs.law_lengths.law_spelled.Messages.{FitsInput};
ghost use Rattle.pg_disk.specs.Moments.{LeavesSince};
ghost use Rattle.pg_disk.specs.Synced.{KeepsOthers};
ghost use Rattle.pg_log.specs.Log.{OpensWithOrWithout, Stands};
ghost use Rattle.pg_node_entry.specs.Entries.{entry_bytes};
ghost use Rattle.pg_host.specs.Causes.{IsDiskFault};
ghost use Rattle.pg_host.specs.Entries.{IsShort, entry_for, noted_of};

use crate::sending::clear;
use pg_base::Bytes;
use pg_disk::Disk;
use pg_event::Status;
use pg_log::{Log, LogError};
use pg_node_entry::{NodeEntry, write_entry};
use pg_node_input::server::Input;
use pg_node_input::{input as input_of, noted};
use std::alloc::Global;

/// Appends an entry to the log, and gives it back. Its bytes stand in the buffer.
pub fn append<D: Disk>(
    alloc: Global,
    disk: &mut D,
    log: &mut Log,
    buffer: &mut Bytes,
    entry: NodeEntry,
) -> Result<NodeEntry, Status>
    requires open { IsSome log.old }
    requires short { IsShort entry }
    ensures same { IfOk result (λ e. e ≡ entry) }
    ensures kept { D.tells → (entries : List (List ℕ))
        → Stands log.old (D.told disk.old) entries
        → OnOk result (Stands log.new (D.told disk.new) (entries ++ entry_bytes entry ∷ [])) }
    ensures any_moment { D.tells → (entries : List (List ℕ))
        → Stands log.old (D.told disk.old) entries
        → LeavesSince 0 (D.told disk.old) (D.told disk.new)
        (OpensWithOrWithout entries (entry_bytes entry)) }
    ensures others { D.tells → KeepsOthers 0 (D.told disk.old) (D.told disk.new) }
    ensures ready { OnOk result (IsSome log.new) }
    ensures later { D.faults disk.old ≤ D.faults disk.new }
    ensures err { IfErr result (λ e. IsDiskFault (D.faults disk.old) (D.faults disk.new) e) }
{
    clear(alloc, buffer);
    let entry = match write_entry(alloc, entry, buffer) {
        Ok(entry) => entry,
        Err(_) => return Err(Status::OutOfMemory),
    };
    match log.append(disk, buffer.as_slice()) {
        Ok(()) => Ok(entry),
        Err(error) => match error {
            LogError::OutOfMemory => Err(Status::OutOfMemory),
            LogError::DiskFault => Err(Status::DiskFault),
            LogError::BadLog(_) => unreachable!(),
            LogError::Closed => unreachable!(),
        },
    }
}

/// Appends the entry of an input, and gives the input back.
pub fn keep<D: Disk>(
    alloc: Global,
    disk: &mut D,
    log: &mut Log,
    buffer: &mut Bytes,
    input: Input,
) -> Result<Input, Status>
    requires open { IsSome log.old }
    requires short { IsShort (noted_of input) }
    ensures same { IfOk result (λ i. i ≡ input) }
    ensures kept { D.tells → (entries : List (List ℕ))
        → Stands log.old (D.told disk.old) entries
        → OnOk result (Stands log.new (D.told disk.new) (entries ++ entry_for input ∷ [])) }
    ensures any_moment { D.tells → (entries : List (List ℕ))
        → Stands log.old (D.told disk.old) entries
        → LeavesSince 0 (D.told disk.old) (D.told disk.new)
        (OpensWithOrWithout entries (entry_for input)) }
    ensures others { D.tells → KeepsOthers 0 (D.told disk.old) (D.told disk.new) }
    ensures ready { OnOk result (IsSome log.new) }
    ensures later { D.faults disk.old ≤ D.faults disk.new }
    ensures err { IfErr result (λ e. IsDiskFault (D.faults disk.old) (D.faults disk.new) e) }
{
    let entry = match append(alloc, disk, log, buffer, noted(input)) {
        Ok(entry) => entry,
        Err(status) => return Err(status),
    };
    match input_of(entry) {
        Ok(input) => Ok(input),
        Err(_) => unreachable!(),
    }
}
