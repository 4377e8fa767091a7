//! A take, and what is saved behind it.

ghost use Rattle.std.specs.Prelude.{◌≡◌, ◌==◌, ◌≤◌, ◌<◌, ◌+◌, ◌-◌, ◌%◌, ◌^◌, min, false, IfErr, IfOk, IsSome, OnErr, OnOk, length};
ghost use Rattle.std.specs.declared.option.Option.{Option};
ghost use Rattle.pg_node_input.specs.law_lengths.law_spelled.Stores.{FitsStore};
ghost use Rattle.pg_checkpoint.specs.Saves.{AreSettled, KeepsRest, Loads, SlotsLeave};
ghost use Rattle.pg_checkpoint.specs.Slots.{Slot};
ghost use Rattle.pg_saving.specs.Saves.{LeavesSaved, Saves};
ghost use Rattle.pg_host.specs.Causes.{IsDiskFault, IsFault};
ghost use Rattle.pg_host.specs.Host.{inputs_in, scene, stops};
ghost use Rattle.pg_host.specs.Savings.{EndsSafely, GoesOn, is_due};
ghost use Rattle.pg_host.specs.Slots.{SavesIf};

use crate::turning::turn;
use pg_base::{Bytes, NodeId};
use pg_checkpoint::SnapError;
use pg_disk::Disk;
use pg_event::Status;
use pg_log::Log;
use pg_net::{Clock, Net};
use pg_node_input::server::Server;
use pg_saving::save_state;
use pg_store::Store;
use std::alloc::Global;

/// How many entries are appended from one saving to the next.
const BETWEEN: u16 = 1024;

/// How many entries the log has, and how many were appended since it was last time to save.
#[derive(Clone, Copy, Debug)]
pub struct Count {
    pub entries: u64,
    pub since: u16,
}

/// How many entries were appended for what came.
fn inputs_in(came: Option<bool>) -> u16
    ensures number { result ≡ inputs_in came }
    ensures few { result ≤ 1 }
{
    match came {
        None => 0,
        Some(_) => 1,
    }
}

/// Whether it is time to save behind what came.
fn is_time(came: Option<bool>, since: u16) -> bool
    ensures { result ≡ is_due came since }
{
    match came {
        None => false,
        Some(_) => since == 0,
    }
}

/// Counts the entry of an input, if one came, and says whether it is time to save.
fn is_due(count: &mut Count, came: Option<bool>) -> bool
    requires { count.old.since < 1024 }
    ensures entries { count.new.entries ≡ min (count.old.entries + inputs_in came) (2 ^ 64 - 1) }
    ensures since { count.new.since ≡ (count.old.since + inputs_in came) % 1024 }
    ensures due { result ≡ is_due came count.new.since }
{
    let more = inputs_in(came);
    count.entries = count.entries.saturating_add(more as u64);
    count.since = (count.since + more) % BETWEEN;
    is_time(came, count.since)
}

/// Saves what this server, of so many, holds behind so many entries.
fn save<D: Disk>(
    alloc: Global,
    disk: &mut D,
    server: NodeId,
    servers: u32,
    entries: u64,
    store: &Store,
) -> Result<(), Status>
    ensures saved { D.tells → (was : Option Slot) → Loads (D.told disk.old) was
        → OnOk result ((now : Option Slot) × Saves server servers entries store.now was now
        × Loads (D.told disk.new) now) }
    ensures settled { D.tells → AreSettled (D.told disk.old)
        → OnOk result (AreSettled (D.told disk.new)) }
    ensures any_moment { D.tells → AreSettled (D.told disk.old)
        → (was : Option Slot) → Loads (D.told disk.old) was
        → SlotsLeave (D.told disk.old) (D.told disk.new)
        (LeavesSaved server servers entries store.now was) }
    ensures others { D.tells → KeepsRest (D.told disk.old) (D.told disk.new) }
    ensures later { D.faults disk.old ≤ D.faults disk.new }
    ensures err { IfErr result (λ e. IsDiskFault (D.faults disk.old) (D.faults disk.new) e) }
{
    match save_state(alloc, disk, server, servers, entries, store) {
        Ok(()) => Ok(()),
        Err(error) => match error {
            SnapError::OutOfMemory => Err(Status::OutOfMemory),
            SnapError::DiskFault => Err(Status::DiskFault),
            SnapError::Full => unreachable!(),
        },
    }
}

/// Counts the entry of an input, if one came, and saves what the server holds where it is time.
fn save_behind<D: Disk>(
    alloc: Global,
    disk: &mut D,
    server: NodeId,
    servers: u32,
    count: &mut Count,
    came: Option<bool>,
    store: &Store,
) -> Result<(), Status>
    requires { count.old.since < 1024 }
    ensures entries { count.new.entries ≡ min (count.old.entries + inputs_in came) (2 ^ 64 - 1) }
    ensures since { count.new.since ≡ (count.old.since + inputs_in came) % 1024 }
    ensures saved { D.tells → (was : Option Slot) → Loads (D.told disk.old) was
        → OnOk result ((now : Option Slot) × Loads (D.told disk.new) now
        × SavesIf (is_due came count.new.since) server servers count.new.entries store.now was
        now) }
    ensures settled { D.tells → AreSettled (D.told disk.old)
        → OnOk result (AreSettled (D.told disk.new)) }
    ensures any_moment { D.tells → AreSettled (D.told disk.old)
        → (was : Option Slot) → Loads (D.told disk.old) was
        → SlotsLeave (D.told disk.old) (D.told disk.new)
        (LeavesSaved server servers count.new.entries store.now was) }
    ensures others { D.tells → KeepsRest (D.told disk.old) (D.told disk.new) }
    ensures later { D.faults disk.old ≤ D.faults disk.new }
    ensures err { IfErr result (λ e. IsDiskFault (D.faults disk.old) (D.faults disk.new) e) }
{
    if !is_due(count, came) {
        return Ok(());
    }
    match save(alloc, disk, server, servers, count.entries, store) {
        Ok(()) => Ok(()),
        Err(status) => Err(status),
    }
}

/// Whether an input came, and was `stop`.
fn stops(came: Option<bool>) -> bool
    ensures { result ≡ stops came }
{
    match came {
        None => false,
        Some(stop) => stop,
    }
}

/// Takes a packet, if there is one, and what it asks, and saves what the server then holds where it
/// is time. It answers whether that was `stop`.
pub fn turn_on<N: Net, D: Disk, C: Clock>(
    alloc: Global,
    net: &mut N,
    disk: &mut D,
    clock: &mut C,
    log: &mut Log,
    node: &mut Server,
    buffer: &mut Bytes,
    server: NodeId,
    servers: u32,
    count: &mut Count,
    port: u16,
    room: &mut [u8],
) -> Result<bool, Status>
    requires port { port ≤ 65471 }
    requires open { IsSome log.old }
    requires going { node.old.failed ≡ false }
    requires fits { FitsStore node.old.store }
    requires room { 40001 ≤ length room.old }
    requires since { count.old.since < 1024 }
    ensures goes { IfOk result (λ stop. GoesOn N.tells C.tells D.tells server servers port
        count.old.since count.old.entries count.new.since count.new.entries 1 stop
        (scene (N.told net.old) (N.takes net.old) (C.told clock.old) (D.told disk.old)
        log.old node.old.store)
        (scene (N.told net.new) (N.takes net.new) (C.told clock.new) (D.told disk.new)
        log.new node.new.store)) }
    ensures since { count.new.since < 1024 }
    ensures ready { OnOk result (IsSome log.new) }
    ensures going { OnOk result (node.new.failed ≡ false) }
    ensures fits { OnOk result (FitsStore node.new.store) }
    ensures ends { OnErr result (EndsSafely N.tells C.tells D.tells server servers port
        count.old.entries 1
        (scene (N.told net.old) (N.takes net.old) (C.told clock.old) (D.told disk.old)
        log.old node.old.store)
        (scene (N.told net.new) (N.takes net.new) (C.told clock.new) (D.told disk.new)
        log.new node.new.store)) }
    ensures net_later { N.faults net.old ≤ N.faults net.new }
    ensures disk_later { D.faults disk.old ≤ D.faults disk.new }
    ensures err { IfErr result (λ e. IsFault (N.faults net.old) (N.faults net.new)
        (D.faults disk.old) (D.faults disk.new) e) }
{
    let came = match turn(alloc, net, disk, clock, log, node, buffer, port, room) {
        Ok(came) => came,
        Err(status) => return Err(status),
    };
    log.place_fits();
    match save_behind(alloc, disk, server, servers, count, came, node.store()) {
        Ok(()) => Ok(stops(came)),
        Err(status) => Err(status),
    }
}
