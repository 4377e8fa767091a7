//! What a client hears: takes, until its reply comes.

ghost use Rattle.std.specs.Prelude.{◌≡◌, ◌≤◌, IfOk, IfErr, length};
ghost use Rattle.pg_io.specs.Causes.{Rose};
ghost use Rattle.pg_net.specs.Net.{IsWithin, given_by};
ghost use Rattle.pg_client.specs.Asks.{Listens};
ghost use Rattle.pg_client.specs.Replies.{reply_in, reply_of, said_by};

use pg_call::Reply;
use pg_event::Status;
use pg_net::{Net, Taken};
use pg_packet_fields::PacketError;
use pg_packet_read::read_packet;
use pg_packet_write::Content;
use std::alloc::{AllocError, Global};

/// The Reply number 1 that a packet is.
fn said_by(content: Content) -> Option<Reply>
    ensures { result ≡ said_by content }
{
    match content {
        Content::Message(_) => None,
        Content::Call { .. } => None,
        Content::Reply { number, reply } => { if number == 1 { Some(reply) } else { None } }
    }
}

/// The Reply number 1 that the bytes are. What is no packet, and any other packet, is passed over.
fn reply_of(alloc: Global, bytes: &[u8]) -> Result<Option<Reply>, AllocError>
    ensures { IfOk result (λ found. found ≡ reply_of bytes.now) }
{
    match read_packet(alloc, bytes) {
        Ok(packet) => Ok(said_by(packet.content)),
        Err(error) => match error {
            PacketError::OutOfMemory => Err(AllocError),
            PacketError::Short(_) => Ok(None),
            PacketError::BadTag(_) => Ok(None),
            PacketError::TooLong(_) => Ok(None),
            PacketError::Tail(_) => Ok(None),
        },
    }
}

/// The Reply number 1 that a take gave.
fn heard(alloc: Global, answer: Taken, room: &[u8]) -> Result<Option<Reply>, AllocError>
    requires within { IsWithin 40_001 answer }
    requires room { 40_001 ≤ length room.now }
    ensures { IfOk result (λ found. found ≡ reply_in (given_by answer room.now)) }
{
    match answer {
        Taken::Idle => Ok(None),
        Taken::Packet { length, .. } => reply_of(alloc, &room[..length]),
    }
}

/// Makes takes until a Reply number 1 comes, ten at most.
pub fn listen<N: Net>(alloc: Global, net: &mut N, room: &mut [u8]) -> Result<Option<Reply>, Status>
    requires { 40_001 ≤ length room.old }
    ensures listens { Listens N.tells result (N.told net.old) (N.told net.new)
        (N.takes net.old) (N.takes net.new) }
    ensures fault { IfErr result (λ e. e ≡ Status.NetFault
        → Rose (N.faults net.old) (N.faults net.new)) }
    ensures later { N.faults net.old ≤ N.faults net.new }
{
    'takes: for _count in 0..10u8 {
        let answer = match net.take(room) {
            Ok(answer) => answer,
            Err(_) => return Err(Status::NetFault),
        };
        let found = match heard(alloc, answer, room) {
            Ok(found) => found,
            Err(_) => return Err(Status::OutOfMemory),
        };
        match found {
            Some(reply) => return Ok(Some(reply)),
            None => {}
        }
    }
    Ok(None)
}
