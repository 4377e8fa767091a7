//! One call of a client.

ghost use Rattle.std.specs.Prelude.{◌≡◌, ◌≤◌, ◌+◌, IfOk};
ghost use Rattle.pg_io.specs.Causes.{Rose};
ghost use Rattle.pg_packet_write.specs.Datagrams.{FitsRequest};
ghost use Rattle.pg_client.specs.Asks.{Asks, call_bytes};

use crate::hearing::listen;
use crate::telling::tell;
use pg_base::{Bytes, NodeId};
use pg_event::Status;
use pg_io::Sink;
use pg_net::Net;
use pg_packet_write::{Datagram, Request, write_packet};
use std::alloc::{AllocError, Global};

/// The bytes of Call number 1.
fn call(alloc: Global, asked: Request) -> Result<Bytes, AllocError>
    requires { FitsRequest asked }
    ensures { IfOk result (λ bytes. bytes ≡ call_bytes asked) }
{
    let packet = Datagram::call(1, asked);
    let mut bytes = Bytes::new(alloc);
    write_packet(&packet, &mut bytes)?;
    Ok(bytes)
}

/// Asks a server for one thing, from a free port: sends one packet to its port, which is that many
/// behind `port`, makes at most ten takes, and writes the text of the first reply to it and a line
/// feed. It ends by that reply, `Done` or with the number of the refusal, or as spent where none
/// came. `fits_request` is the test of what is asked.
pub fn ask<N: Net, K: Sink>(
    alloc: Global,
    net: &mut N,
    server: NodeId,
    port: u16,
    asked: Request,
    sink: &mut K,
) -> Status
    requires least { 1 ≤ server }
    requires most { server ≤ 64 }
    requires port { port ≤ 65471 }
    requires fits { FitsRequest asked }
    ensures asks { Asks N.tells (port + server) asked result
        (N.told net.old) (N.told net.new) (N.takes net.old) (N.takes net.new)
        (K.contents sink.old) (K.contents sink.new) }
    ensures net_fault { result ≡ Status.NetFault → Rose (N.faults net.old) (N.faults net.new) }
    ensures write_fault { result ≡ Status.WriteFault
        → Rose (K.faults sink.old) (K.faults sink.new) }
{
    let bytes = match call(alloc, asked) {
        Ok(bytes) => bytes,
        Err(_) => return Status::OutOfMemory,
    };
    match net.bind(0) {
        Ok(()) => {}
        Err(_) => return Status::NetFault,
    }
    match net.send(port + server as u16, bytes.as_slice()) {
        Ok(()) => {}
        Err(_) => return Status::NetFault,
    }
    let mut room = [0u8; 40_001];
    let found = match listen(alloc, net, &mut room) {
        Ok(found) => found,
        Err(status) => return status,
    };
    match found {
        Some(reply) => tell(alloc, sink, &reply),
        None => Status::TurnsSpent,
    }
}
