//! One take.

ghost use Rattle.std.specs.Prelude.{◌≡◌, ◌≤◌, ◌∷◌, [], ℕ, length, false, Some, Ok, IfOk, IfSome, IsSome, OnOk, OnErr, IfErr, IsErr, MatchOption};
ghost use Rattle.pg_node_input.specs.law_lengths.law_spelled.Stores.{FitsStore};
ghost use Rattle.pg_disk.specs.Synced.{KeepsOthers};
ghost use Rattle.pg_packet_read.specs.Whole.{packet_of};
ghost use Rattle.pg_host.specs.Causes.{IsFault};
ghost use Rattle.pg_host.specs.Host.{AreRead, Ends, Turns, scene};
ghost use Rattle.pg_host.specs.Inputs.{asked};
ghost use Rattle.pg_host.specs.Turn.{Halts, HasCome, Works};

use crate::asking::{Asked, ask, is_stop};
use crate::entering::enter;
use pg_base::Bytes;
use pg_disk::Disk;
use pg_event::Status;
use pg_log::Log;
use pg_net::{Clock, Net, Taken};
use pg_node_entry::{entries_are_short, entries_read_back};
use pg_node_input::server::Server;
use pg_packet_fields::PacketError;
use pg_packet_read::{packets_read_back, read_packet};
use pg_packet_write::Datagram;
use std::alloc::{AllocError, Global};

/// The packet that the bytes are, or none where they are no packet.
fn read(alloc: Global, bytes: &[u8]) -> Result<Option<Datagram>, AllocError>
    ensures packet { IfOk result (λ found. MatchOption found (IsErr (packet_of bytes.now))
        (λ d. packet_of bytes.now ≡ Ok d)) }
    ensures unread { (port : ℕ) → OnErr result (AreRead (asked (Some (record {
      port = port;
      bytes = bytes.now;
    }) ∷ []) [] [])) }
    ensures come { IfOk result (λ found. IfSome found (λ d. HasCome d)) }
{
    entries_are_short();
    entries_read_back();
    packets_read_back();
    match read_packet(alloc, bytes) {
        Ok(packet) => Ok(Some(packet)),
        Err(error) => match error {
            PacketError::OutOfMemory => Err(AllocError),
            PacketError::Short(_) => Ok(None),
            PacketError::BadTag(_) => Ok(None),
            PacketError::TooLong(_) => Ok(None),
            PacketError::Tail(_) => Ok(None),
        },
    }
}

/// Takes what a packet from this port asks. It answers whether that is an input, and if, whether it
/// is `stop`.
pub fn take_packet<N: Net, D: Disk, C: Clock>(
    alloc: Global,
    net: &mut N,
    disk: &mut D,
    clock: &mut C,
    log: &mut Log,
    server: &mut Server,
    buffer: &mut Bytes,
    port: u16,
    from: u16,
    packet: Datagram,
) -> Result<Option<bool>, Status>
    requires port { port ≤ 65471 }
    requires open { IsSome log.old }
    requires going { server.old.failed ≡ false }
    requires fits { FitsStore server.old.store }
    requires come { HasCome packet }
    ensures works { IfOk result (λ came. Works N.tells C.tells D.tells port from packet came
        (scene (N.told net.old) (N.takes net.old) (C.told clock.old) (D.told disk.old)
        log.old server.old.store)
        (scene (N.told net.new) (N.takes net.new) (C.told clock.new) (D.told disk.new)
        log.new server.new.store)) }
    ensures ready { OnOk result (IsSome log.new) }
    ensures going { OnOk result (server.new.failed ≡ false) }
    ensures fits { OnOk result (FitsStore server.new.store) }
    ensures halts { OnErr result (Halts N.tells C.tells D.tells port from packet
        (scene (N.told net.old) (N.takes net.old) (C.told clock.old) (D.told disk.old)
        log.old server.old.store)
        (scene (N.told net.new) (N.takes net.new) (C.told clock.new) (D.told disk.new)
        log.new server.new.store)) }
    ensures others { D.tells → KeepsOthers 0 (D.told disk.old) (D.told disk.new) }
    ensures takes { N.takes net.new ≡ N.takes net.old }
    ensures net_later { N.faults net.old ≤ N.faults net.new }
    ensures disk_later { D.faults disk.old ≤ D.faults disk.new }
    ensures err { IfErr result (λ e. IsFault (N.faults net.old) (N.faults net.new)
        (D.faults disk.old) (D.faults disk.new) e) }
{
    let found = ask(clock, from, packet);
    match found {
        None => Ok(None),
        Some(asked) => {
            let Asked { back, input } = asked;
            let stop = is_stop(&input);
            match enter(alloc, net, disk, log, server, buffer, port, input, back) {
                Ok(()) => Ok(Some(stop)),
                Err(status) => Err(status),
            }
        }
    }
}

/// Takes a packet, if there is one, and what it asks. It answers whether that is an input, and if,
/// whether it is `stop`. Bytes that are no packet are passed over.
pub fn turn<N: Net, D: Disk, C: Clock>(
    alloc: Global,
    net: &mut N,
    disk: &mut D,
    clock: &mut C,
    log: &mut Log,
    server: &mut Server,
    buffer: &mut Bytes,
    port: u16,
    room: &mut [u8],
) -> Result<Option<bool>, Status>
    requires port { port ≤ 65471 }
    requires open { IsSome log.old }
    requires going { server.old.failed ≡ false }
    requires fits { FitsStore server.old.store }
    requires room { 40001 ≤ length room.old }
    ensures turns { IfOk result (λ came. Turns N.tells C.tells D.tells port came
        (scene (N.told net.old) (N.takes net.old) (C.told clock.old) (D.told disk.old)
        log.old server.old.store)
        (scene (N.told net.new) (N.takes net.new) (C.told clock.new) (D.told disk.new)
        log.new server.new.store)) }
    ensures ready { OnOk result (IsSome log.new) }
    ensures going { OnOk result (server.new.failed ≡ false) }
    ensures fits { OnOk result (FitsStore server.new.store) }
    ensures ends { OnErr result (Ends N.tells C.tells D.tells port 1
        (scene (N.told net.old) (N.takes net.old) (C.told clock.old) (D.told disk.old)
        log.old server.old.store)
        (scene (N.told net.new) (N.takes net.new) (C.told clock.new) (D.told disk.new)
        log.new server.new.store)) }
    ensures others { D.tells → KeepsOthers 0 (D.told disk.old) (D.told disk.new) }
    ensures net_later { N.faults net.old ≤ N.faults net.new }
    ensures disk_later { D.faults disk.old ≤ D.faults disk.new }
    ensures err { IfErr result (λ e. IsFault (N.faults net.old) (N.faults net.new)
        (D.faults disk.old) (D.faults disk.new) e) }
{
    let answer = match net.take(room) {
        Ok(answer) => answer,
        Err(_) => return Err(Status::NetFault),
    };
    match answer {
        Taken::Idle => Ok(None),
        Taken::Packet { port: from, length } => {
            let found = match read(alloc, &room[..length]) {
                Ok(found) => found,
                Err(_) => return Err(Status::OutOfMemory),
            };
            match found {
                None => Ok(None),
                Some(packet) => {
                    take_packet(
                        alloc, net, disk, clock, log, server, buffer, port, from, packet,
                    )
                }
            }
        }
    }
}
