//! A node over a net and a disk in memory, for the tests of nodes.

ghost use Rattle.std.specs.Prelude.{◌≤◌};

use pg_disk::MemoryDisk;
use pg_event::Status;
use pg_host::serve;
use pg_net::{Datagram, MemoryClock, MemoryNet};
use std::alloc::{AllocError, Global};

/// Where the client's packets come from.
pub const CLIENT: u16 = 7;

/// The words of `mkdir /a`, of `ls / 0`, of `tick` and of `stop` in a packet.
pub const MKDIR: &[u8] = b"\x01\0\x02/a";

pub const LS: &[u8] = b"\x07\0\x01/\0\0\0\0";

pub const TICK: &[u8] = b"\x10";

pub const STOP: &[u8] = b"\x12";

/// A packet of this kind from a server in view 0, under number 1.
pub fn packet(alloc: Global, kind: u8, from: u8, words: &[u8]) -> Result<Vec<u8>, AllocError> {
    let mut bytes = b"PG\x01".to_vec(alloc)?;
    bytes.push(kind)?;
    bytes.extend_from_slice(&[0, 0, 0, from])?;
    bytes.extend_from_slice(b"\0\0\0\0\0\0\0\0\0\0\0\0\0\0\0\x01")?;
    bytes.extend_from_slice(words)?;
    Ok(bytes)
}

pub fn call(alloc: Global, words: &[u8]) -> Result<Datagram, AllocError> {
    Ok(Datagram::new(CLIENT, packet(alloc, 27, 0, words)?))
}

/// How a server of so many ends that serves over the net and the disk, for so many takes at most.
pub fn ended_by(
    alloc: Global,
    net: &mut MemoryNet,
    disk: &mut MemoryDisk,
    server: u32,
    servers: u32,
    turns: u64,
) -> Result<Status, AllocError>
    requires first { 1 ≤ server }
    requires last { server ≤ servers }
    requires most { servers ≤ 64 }
{
    let mut clock = MemoryClock::new([5, 6].to_vec(alloc)?, [3].to_vec(alloc)?);
    Ok(serve(alloc, net, disk, &mut clock, server, servers, 9000, turns))
}

/// Whether the first packet that was sent is server 1's reply with these words to the client.
pub fn is_answered(alloc: Global, sent: &[Datagram], words: &[u8]) -> Result<bool, AllocError> {
    let reply = packet(alloc, 28, 1, words)?;
    Ok(match sent.first() {
        Some(sent) => sent.port() == CLIENT && sent.bytes() == reply.as_slice(),
        None => false,
    })
}
