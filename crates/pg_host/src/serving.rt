//! A server that runs.

ghost use Rattle.std.specs.Prelude.{◌≡◌, ◌≤◌, ◌⊎◌, length, false, IfOk, IsSome};
ghost use Rattle.pg_node_input.specs.law_lengths.law_spelled.Stores.{FitsStore};
ghost use Rattle.pg_io.specs.Causes.{Rose};
ghost use Rattle.pg_disk.specs.Told.{given};
ghost use Rattle.pg_host.specs.Causes.{IsEnd, IsFault, IsWhole};
ghost use Rattle.pg_host.specs.Host.{IsAnswered, Served, scene};
ghost use Rattle.pg_host.specs.Savings.{RunsOn};

use crate::saving::{Count, turn_on};
use crate::starting::start;
use pg_base::{Bytes, NodeId};
use pg_disk::Disk;
use pg_event::Status;
use pg_log::Log;
use pg_net::{Clock, Net};
use pg_node_entry::entries_read_back;
use pg_node_input::server::Server;
use std::alloc::{AllocError, Global};

/// Room for a packet, and for one byte more, by which a longer one is seen.
fn room(alloc: Global) -> Result<Vec<u8>, AllocError>
    ensures { IfOk result (λ room. length room.items ≡ 40001) }
{
    let mut room = Vec::new(alloc);
    room.resize(40_001, 0u8)?;
    Ok(room)
}

/// Makes so many takes, or fewer where `stop` comes or something fails. The log has so many
/// entries, of which the last was appended as the server began.
fn take_turns<N: Net, D: Disk, C: Clock>(
    alloc: Global,
    net: &mut N,
    disk: &mut D,
    clock: &mut C,
    log: &mut Log,
    node: &mut Server,
    buffer: &mut Bytes,
    server: NodeId,
    servers: u32,
    entries: u64,
    port: u16,
    turns: u64,
    room: &mut [u8],
) -> Status
    requires port { port ≤ 65471 }
    requires open { IsSome log.old }
    requires going { node.old.failed ≡ false }
    requires fits { FitsStore node.old.store }
    requires room { 40001 ≤ length room.old }
    ensures runs { RunsOn N.tells C.tells D.tells server servers port 1 entries turns result
        (scene (N.told net.old) (N.takes net.old) (C.told clock.old) (D.told disk.old)
        log.old node.old.store)
        (scene (N.told net.new) (N.takes net.new) (C.told clock.new) (D.told disk.new)
        log.new node.new.store) }
    ensures end { IsWhole result ⊎ IsFault (N.faults net.old) (N.faults net.new)
        (D.faults disk.old) (D.faults disk.new) result }
    ensures net_later { N.faults net.old ≤ N.faults net.new }
    ensures disk_later { D.faults disk.old ≤ D.faults disk.new }
{
    log.place_fits();
    let mut count = Count { entries, since: 1 };
    'turns: for _turn in 0..turns {
        let stop = match turn_on(
            alloc, net, disk, clock, log, node, buffer, server, servers, &mut count, port, room,
        ) {
            Ok(stop) => stop,
            Err(status) => return status,
        };
        if stop {
            return Status::Done;
        }
    }
    Status::TurnsSpent
}

/// Serves on `port + server`, as this server of a run with so many servers, over the log in file 0
/// of the disk's chosen name, and makes at most so many takes. Each input is in the log before
/// anything of it is sent. Behind each 1,024th entry that it appended it saves what it holds in the
/// slots of the name, from which it goes on where it is started again. It is Done once it has
/// replied to `stop`.
pub fn serve<N: Net, D: Disk, C: Clock>(
    alloc: Global,
    net: &mut N,
    disk: &mut D,
    clock: &mut C,
    server: NodeId,
    servers: u32,
    port: u16,
    turns: u64,
) -> Status
    requires port { port ≤ 65471 }
    requires first { 1 ≤ server }
    requires last { server ≤ servers }
    requires most { servers ≤ 64 }
    ensures served { Served N.tells C.tells D.tells server servers port turns result
        (N.told net.old) (N.told net.new) (N.takes net.old) (N.takes net.new)
        (C.told clock.old) (C.told clock.new) (D.told disk.old) (D.told disk.new) }
    // It ends by itself, or does not go on with the log that it found, unless memory runs out or a
    // call on the net or on the disk fails.
    ensures end { IsEnd (N.faults net.old) (N.faults net.new)
        (D.faults disk.old) (D.faults disk.new) result }
    ensures net_fault { result ≡ Status.NetFault → Rose (N.faults net.old) (N.faults net.new) }
    ensures disk_fault { result ≡ Status.DiskFault
        → Rose (D.faults disk.old) (D.faults disk.new) }
    ensures found { D.tells → IsAnswered server servers (N.faults net.old) (N.faults net.new)
        (D.faults disk.old) (D.faults disk.new) (given (D.told disk.old) 0) result }
    ensures net_later { N.faults net.old ≤ N.faults net.new }
    ensures disk_later { D.faults disk.old ≤ D.faults disk.new }
{
    entries_read_back();
    match net.bind(port + server as u16) {
        Ok(()) => {}
        Err(_) => return Status::NetFault,
    }
    let mut space = match room(alloc) {
        Ok(space) => space,
        Err(_) => return Status::OutOfMemory,
    };
    let mut buffer = Bytes::new(alloc);
    let (mut log, mut node, entries) = match start(alloc, disk, &mut buffer, server, servers) {
        Ok(started) => started,
        Err(status) => return status,
    };
    take_turns(
        alloc,
        net,
        disk,
        clock,
        &mut log,
        &mut node,
        &mut buffer,
        server,
        servers,
        entries,
        port,
        turns,
        &mut space,
    )
}
