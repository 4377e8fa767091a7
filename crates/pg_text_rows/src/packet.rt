//! Packets.

use crate::row::{put, text};
use pg_base::Bytes;
use pg_msg::{Message, Packet, Sent};
use pg_packet_fields::PacketError;
use pg_packet_read::read_packet;
use pg_packet_write::{Content, Datagram, Request, write_packet};
use pg_rows::Answer;
use std::alloc::{AllocError, Global};

/// The most bytes of a packet all of whose beginnings are read.
const SHORT: usize = 1_000;

/// A copy of the message on its way to server 2.
pub fn sent(from: u32, view: u64, message: &Message) -> Result<Sent, AllocError> {
    let packet = Packet {
        from,
        view,
        message: message.copy()?,
    };
    Ok(Sent { to: 2, packet })
}

/// Whom the packet is from, its view, and what it says.
fn show(packet: &Datagram, out: &mut Answer) -> Result<(), AllocError> {
    write!(out, "{} in view {}: ", packet.from, packet.view);
    match &packet.content {
        Content::Message(message) => {
            let sent = sent(packet.from, packet.view, message)?.copy()?;
            write!(out, "{}", sent.summary());
        }
        Content::Call { number, asked } => match asked {
            Request::Call(call) => write!(out, "call {number}: {call}"),
            Request::Tick => write!(out, "call {number}: tick"),
        },
        Content::Reply { number, reply } => write!(out, "reply {number}: {reply}"),
    }
    Ok(())
}

/// The first beginning of the bytes that does not just end too early.
fn whole_beginning(alloc: Global, bytes: &[u8]) -> Option<usize> {
    for count in 0..bytes.len() {
        if read_packet(alloc, &bytes[..count]).err() != Some(PacketError::Short(count)) {
            return Some(count);
        }
    }
    None
}

/// Whether the packet is written as these bytes again.
fn show_again(
    alloc: Global,
    bytes: &[u8],
    packet: &Datagram,
    out: &mut Answer,
) -> Result<(), AllocError> {
    let mut written = Bytes::new(alloc);
    write_packet(packet, &mut written)?;
    if written.as_slice() == bytes {
        write!(out, "the same {} bytes", bytes.len());
    } else {
        out.put(b"other bytes ");
        put(written.as_slice(), out);
    }
    Ok(())
}

/// What a packet that is not long says, and which of its beginnings is read otherwise than as one
/// that ends too early.
fn show_short(
    alloc: Global,
    bytes: &[u8],
    packet: &Datagram,
    out: &mut Answer,
) -> Result<(), AllocError> {
    if bytes.len() > SHORT {
        return Ok(());
    }
    show(packet, out)?;
    out.put(b", ");
    if let Some(count) = whole_beginning(alloc, bytes) {
        write!(out, "with a beginning of {count}, ");
    }
    Ok(())
}

/// `packet TEXT`: what the packet says and whether it is written as these bytes again, or the place
/// of the first fault. Of a packet that is not long each beginning is read too.
pub fn packet(alloc: Global, row: &[u8], out: &mut Answer) -> Result<(), AllocError> {
    let bytes = text(alloc, row)?;
    match read_packet(alloc, bytes.as_slice()) {
        Ok(packet) => {
            show_short(alloc, bytes.as_slice(), &packet, out)?;
            show_again(alloc, bytes.as_slice(), &packet, out)
        }
        Err(fault) => {
            write!(out, "{fault}");
            Ok(())
        }
    }
}
