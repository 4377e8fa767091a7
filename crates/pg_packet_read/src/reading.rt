//! Packets, read.

ghost use Rattle.std.specs.Prelude.{◌≡◌, IfOk};
ghost use Rattle.pg_packet_read.specs.Whole.{byte_at, content_at, cut_fault, cut_off, datagram_at, datagram_with, mark_at, packet_of, packet_within, behind_kind_at, whole};
ghost use Rattle.pg_packet_write.specs.Datagrams.{FitsContent};
ghost use Rattle.pg_packet_fields.specs.Faults.{Gives};

use crate::calls::read_request;
use crate::kinds::{PACKET_KINDS, PacketKind};
use crate::messages::read_message;
use crate::numbered::read_item;
use crate::replies::read_reply;
use pg_codec::Reader;
use pg_packet_fields::PacketError;
use pg_packet_write::{Content, Datagram};
use std::alloc::Global;

/// The most bytes that a packet has.
const MOST: usize = 40_000;

/// Who sends a packet, in which view, and what it is for.
type Parts = (u32, (u64, Content));

/// The packet that the bytes are. Where they are none, the place is that of the first field that is
/// not read, or where the packet should have ended.
pub fn read_packet(alloc: Global, bytes: &[u8]) -> Result<Datagram, PacketError>
    ensures read { Gives (λ d. d) result (packet_of bytes.now) }
    ensures fits { IfOk result (λ d. FitsContent d.content) }
{
    let parts = read_within(alloc, MOST, bytes)?;
    Ok(packet_with(parts))
}

/// The packet with these parts.
fn packet_with(parts: Parts) -> Datagram
    requires { FitsContent parts.1.1 }
    ensures packet { result ≡ datagram_with parts }
    ensures fits { FitsContent result.content }
{
    let (from, (view, content)) = parts;
    Datagram {
        from,
        view,
        content,
    }
}

/// The packet that the bytes are, of which there are at most so many.
#[tactic(auto, unfolding(crate::specs::Whole::packet_within))]
fn read_within(alloc: Global, most: usize, bytes: &[u8]) -> Result<Parts, PacketError>
    ensures { Gives datagram_with result (packet_within most bytes.now) }
{
    if most < bytes.len() {
        read_cut(alloc, most, &bytes[..most])
    } else {
        read_whole(alloc, bytes)
    }
}

/// What is wrong with too many bytes, of which these were read.
fn read_cut(alloc: Global, most: usize, bytes: &[u8]) -> Result<Parts, PacketError>
    ensures { Gives datagram_with result (cut_off most (whole bytes.now)) }
{
    match read_whole(alloc, bytes) {
        Ok(_) => Err(PacketError::TooLong(most)),
        Err(error) => Err(cut_fault(most, error)),
    }
}

/// Of too many bytes the first were read, with this fault.
fn cut_fault(most: usize, error: PacketError) -> PacketError
    ensures { result ≡ cut_fault most error }
{
    match error {
        PacketError::OutOfMemory => PacketError::OutOfMemory,
        PacketError::Short(_) => PacketError::TooLong(most),
        PacketError::BadTag(place) => PacketError::BadTag(place),
        PacketError::TooLong(place) => PacketError::TooLong(place),
        PacketError::Tail(place) => PacketError::Tail(place),
    }
}

/// The packet that the bytes are, however many.
#[tactic(auto, unfolding(crate::specs::Whole::whole))]
fn read_whole(alloc: Global, bytes: &[u8]) -> Result<Parts, PacketError>
    ensures { Gives datagram_with result (whole bytes.now) }
{
    let mut reader = Reader::new(bytes);
    let packet = read_datagram(alloc, &mut reader)?;
    if reader.is_at_end() {
        Ok(packet)
    } else {
        Err(PacketError::Tail(reader.place()))
    }
}

/// A packet, whatever stands behind it.
#[tactic(auto, unfolding(crate::specs::Whole::datagram_at))]
fn read_datagram(alloc: Global, reader: &mut Reader<'_>) -> Result<Parts, PacketError>
    ensures { Gives (λ d. (datagram_with d, reader.new)) result (datagram_at reader.old) }
{
    read_mark(reader)?;
    let kind = read_item(&PACKET_KINDS, reader)?;
    let (from, (view, content)) = read_behind_kind(alloc, kind, reader)?;
    Ok((from, (view, content)))
}

/// The sender, its view, and what a packet of the kind says.
#[tactic(auto, unfolding(crate::specs::Whole::behind_kind_at))]
fn read_behind_kind(
    alloc: Global,
    kind: PacketKind,
    reader: &mut Reader<'_>,
) -> Result<Parts, PacketError>
    ensures { Gives (λ t. (t, reader.new)) result (behind_kind_at kind reader.old) }
{
    let from = reader.u32()?;
    let view = reader.u64()?;
    let content = read_content(alloc, kind, reader)?;
    Ok((from, (view, content)))
}

/// How every packet begins; last the number of the format.
#[tactic(auto, unfolding(crate::specs::Whole::mark_at))]
fn read_mark(reader: &mut Reader<'_>) -> Result<u8, PacketError>
    ensures { Gives (λ n. (n, reader.new)) result (mark_at reader.old) }
{
    read_byte(b'P', reader)?;
    read_byte(b'G', reader)?;
    read_byte(1, reader)
}

/// This byte.
fn read_byte(wanted: u8, reader: &mut Reader<'_>) -> Result<u8, PacketError>
    ensures { Gives (λ n. (n, reader.new)) result (byte_at wanted reader.old) }
{
    let place = reader.place();
    let byte = reader.u8()?;
    if byte == wanted {
        Ok(byte)
    } else {
        Err(PacketError::BadTag(place))
    }
}

/// What a packet of the kind says.
#[tactic(auto, unfolding(crate::specs::Whole::content_at))]
fn read_content(
    alloc: Global,
    kind: PacketKind,
    reader: &mut Reader<'_>,
) -> Result<Content, PacketError>
    ensures { Gives (λ c. (c, reader.new)) result (content_at kind reader.old) }
{
    match kind {
        PacketKind::Message(kind) => {
            let message = read_message(alloc, kind, reader)?;
            Ok(Content::Message(message))
        }
        PacketKind::Call => {
            let number = reader.u64()?;
            let asked = read_request(alloc, reader)?;
            Ok(Content::Call { number, asked })
        }
        PacketKind::Reply => {
            let number = reader.u64()?;
            let reply = read_reply(alloc, reader)?;
            Ok(Content::Reply { number, reply })
        }
    }
}
