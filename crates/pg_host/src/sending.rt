//! What goes out.

ghost use Rattle.std.specs.Prelude.{◌≡◌, ◌≤◌, ◌∷◌, [], ℕ, map, OnOk, OnErr, IfErr, IfSome, Contains};
ghost use Rattle.pg_node_input.specs.law_lengths.Packets.{IsSentWell, IsToldWell};
ghost use Rattle.pg_msg.specs.declared.message.Sent.{Sent};
ghost use Rattle.pg_host.specs.Causes.{IsNetFault};
ghost use Rattle.pg_host.specs.Sends.{SentFirst, message_packet, packet_to, reply_packets, with_all};

use crate::asking::Back;
use pg_base::{Bytes, Items};
use pg_call::Reply;
use pg_event::Status;
use pg_msg::{Packet, Sent};
use pg_net::Net;
use pg_node_input::reply_fits;
use pg_node_input::spelled::message_fits;
use pg_packet_write::{Datagram, write_packet};
use pg_store::Store;
use std::alloc::Global;
use std::mem;

/// Takes all bytes off. The room for them stays.
pub fn clear(alloc: Global, buffer: &mut Bytes)
    ensures { buffer.new ≡ [] }
{
    let mut bytes = mem::replace(buffer, Bytes::new(alloc)).into_vec();
    bytes.clear();
    *buffer = Bytes::from_vec(bytes);
}

/// Sends a packet to a port. Its bytes stand in the buffer.
fn send_packet<N: Net>(
    alloc: Global,
    net: &mut N,
    buffer: &mut Bytes,
    port: u16,
    packet: &Datagram,
) -> Result<(), Status>
    ensures sent { OnOk result (N.tells
        → N.told net.new ≡ with_all (N.told net.old) (packet_to port packet.now ∷ [])) }
    ensures same { OnErr result (N.tells → N.told net.new ≡ N.told net.old) }
    ensures takes { N.takes net.new ≡ N.takes net.old }
    ensures later { N.faults net.old ≤ N.faults net.new }
    ensures err { IfErr result (λ e. IsNetFault (N.faults net.old) (N.faults net.new) e) }
{
    clear(alloc, buffer);
    match write_packet(packet, buffer) {
        Ok(()) => {}
        Err(_) => return Err(Status::OutOfMemory),
    }
    match net.send(port, buffer.as_slice()) {
        Ok(()) => Ok(()),
        Err(_) => Err(Status::NetFault),
    }
}

/// Sends a reply, if there is one, to the client.
pub fn send_reply<N: Net>(
    alloc: Global,
    net: &mut N,
    buffer: &mut Bytes,
    store: &Store,
    back: Back,
    reply: Option<Reply>,
) -> Result<(), Status>
    requires { IfSome reply (λ r. IsToldWell r) }
    ensures sent { OnOk result (N.tells
        → N.told net.new ≡ with_all (N.told net.old) (reply_packets store.now back reply)) }
    ensures same { OnErr result (N.tells → N.told net.new ≡ N.told net.old) }
    ensures takes { N.takes net.new ≡ N.takes net.old }
    ensures later { N.faults net.old ≤ N.faults net.new }
    ensures err { IfErr result (λ e. IsNetFault (N.faults net.old) (N.faults net.new) e) }
{
    match back {
        Back::Nobody => Ok(()),
        Back::Client { port, number } => match reply {
            None => Ok(()),
            Some(reply) => {
                reply_fits(&reply);
                let packet = Datagram::reply(store.server(), store.view(), number, reply);
                send_packet(alloc, net, buffer, port, &packet)
            }
        },
    }
}

/// Sends a message to the port of its addressee.
fn send_message<N: Net>(
    alloc: Global,
    net: &mut N,
    buffer: &mut Bytes,
    port: u16,
    message: Sent,
) -> Result<(), Status>
    requires port { port ≤ 65471 }
    requires to { message.to ≤ 64 }
    requires well { IsSentWell message }
    ensures sent { OnOk result (N.tells
        → N.told net.new ≡ with_all (N.told net.old) (message_packet port message ∷ [])) }
    ensures same { OnErr result (N.tells → N.told net.new ≡ N.told net.old) }
    ensures takes { N.takes net.new ≡ N.takes net.old }
    ensures later { N.faults net.old ≤ N.faults net.new }
    ensures err { IfErr result (λ e. IsNetFault (N.faults net.old) (N.faults net.new) e) }
{
    let Sent { to, packet } = message;
    let Packet {
        from,
        view,
        message,
    } = packet;
    message_fits(&message);
    let packet = Datagram::message(from, view, message);
    send_packet(alloc, net, buffer, port + to as u16, &packet)
}

/// Sends the messages, each to the port of its addressee.
pub fn send_messages<N: Net>(
    alloc: Global,
    net: &mut N,
    buffer: &mut Bytes,
    port: u16,
    messages: Items<Sent>,
) -> Result<(), Status>
    requires port { port ≤ 65471 }
    requires to { (m : Sent) → Contains messages m → m.to ≤ 64 }
    requires well { (m : Sent) → Contains messages m → IsSentWell m }
    ensures sent { OnOk result (N.tells
        → N.told net.new ≡ with_all (N.told net.old) (map (message_packet port) messages)) }
    ensures first { N.tells
        → SentFirst (N.told net.old) (N.told net.new) (map (message_packet port) messages) }
    ensures takes { N.takes net.new ≡ N.takes net.old }
    ensures later { N.faults net.old ≤ N.faults net.new }
    ensures err { IfErr result (λ e. IsNetFault (N.faults net.old) (N.faults net.new) e) }
{
    for message in messages.into_vec() {
        send_message(alloc, net, buffer, port, message)?;
    }
    Ok(())
}
