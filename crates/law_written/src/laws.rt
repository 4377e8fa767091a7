//! What is written of a packet is read as this packet.

ghost use Rattle.std.specs.Prelude.{◌≡◌, ◌≤◌, ◌++◌, ℕ, List, [], length, Ok};
ghost use Rattle.pg_packet_read.specs.Whole.{IsWholeContent, IsWholeDatagram, packet_of};
ghost use Rattle.pg_packet_write.specs.Datagrams.{FitsContent, packet_bytes};

use crate::calls::request_is_whole;
use crate::fields::wide_is;
use crate::messages::message_is_whole;
use crate::replies::reply_is_whole;
use pg_packet_read::packets_read_back;
use pg_packet_write::{Content, Datagram};

fn content_is_whole(content: &Content)
    requires { FitsContent content.now }
    ensures { IsWholeContent content.now }
{
    match content {
        Content::Message(message) => message_is_whole(message),
        Content::Call { number, asked } => {
            wide_is(*number);
            request_is_whole(asked)
        }
        Content::Reply { number, reply } => {
            wide_is(*number);
            reply_is_whole(reply)
        }
    }
}

fn packet_is_whole(packet: &Datagram)
    ensures { IsWholeDatagram packet.now }
{
    let _from = packet.from;
    let _view = packet.view;
    content_is_whole(&packet.content)
}

/// A packet is one that can be read, and is read from its spelling where that has at most 40,000
/// bytes.
pub fn packets_are_read(packet: &Datagram)
    ensures whole { IsWholeDatagram packet.now }
    ensures read { length (packet_bytes packet.now) ≤ 40000
        → packet_of (packet_bytes packet.now) ≡ Ok packet.now }
{
    packets_read_back();
    packet_is_whole(packet)
}

/// No packet's spelling begins another's.
pub fn packets_are_apart(a: &Datagram, b: &Datagram)
    ensures { (rest : List ℕ) → packet_bytes a.now ++ rest ≡ packet_bytes b.now
        → (a.now ≡ b.now) × (rest ≡ []) }
{
    packets_read_back();
    packet_is_whole(a);
    packet_is_whole(b)
}
