//! Entries, read.

ghost use Rattle.std.specs.Prelude.{◌≡◌, ◌≤◌, IfOk};
ghost use Rattle.pg_node_entry.specs.Entries.{FitsEntry};
ghost use Rattle.pg_node_entry.specs.Reading.{Gives, arrival_of, begins_other, entry_at, entry_of, fault_behind, fields_at, kind_at, message_in, noted_call_at, place_of, plain_of};
ghost use Rattle.pg_packet_fields.specs.Faults as faults;

use crate::entry::NodeEntry;
use crate::error::EntryError;
use pg_call::Call;
use pg_codec::Reader;
use pg_msg::Packet;
use pg_packet_fields::PacketError;
use pg_packet_read::{read_packet, read_request};
use pg_packet_write::{Content, Datagram, Request};
use std::alloc::Global;

/// What an entry that carries no packet tells, without its words.
#[derive(Clone, Copy, Debug, PartialEq, Eq)]
pub enum EntryKind {
    Call,
    Tick,
    Restart,
    First,
}

/// The number of entries that carry a packet.
const ARRIVAL: u8 = 3;

/// The entry that the bytes are. Where they are none, the place is that of the first field that no
/// entry has there: the length of the bytes where they end too early, and the first byte behind the
/// entry where they go on.
pub fn read_entry(alloc: Global, bytes: &[u8]) -> Result<NodeEntry, EntryError>
    ensures read { Gives result (entry_of bytes.now) }
    ensures fits { IfOk result (λ e. FitsEntry e) }
{
    read_by_number(alloc, bytes)
}

/// The entry, by its first byte.
#[tactic(auto, unfolding(crate::specs::Reading::entry_of))]
fn read_by_number(alloc: Global, bytes: &[u8]) -> Result<NodeEntry, EntryError>
    ensures { Gives result (entry_of bytes.now) }
{
    match bytes.split_first() {
        None => Err(EntryError::Bad(0)),
        Some((number, rest)) => {
            if *number == ARRIVAL {
                read_arrival(alloc, rest)
            } else {
                let entry = read_plain(alloc, bytes)?;
                Ok(entry)
            }
        }
    }
}

// ---- arrivals

/// Whether the bytes begin as a packet that is no message's.
#[tactic(auto, unfolding(crate::specs::Reading::begins_other))]
fn begins_other(bytes: &[u8]) -> bool
    ensures { result ≡ begins_other bytes.now }
{
    bytes.len() > 3
        && bytes[0] == b'P'
        && bytes[1] == b'G'
        && bytes[2] == 1
        && (bytes[3] == 27 || bytes[3] == 28)
}

/// The arrival of the message whose packet the bytes are, which stand behind one byte.
#[tactic(auto, unfolding(crate::specs::Reading::arrival_of))]
fn read_arrival(alloc: Global, bytes: &[u8]) -> Result<NodeEntry, EntryError>
    ensures { Gives result (arrival_of bytes.now) }
{
    if begins_other(bytes) {
        return Err(EntryError::Bad(4));
    }
    match read_packet(alloc, bytes) {
        Ok(packet) => message_in(packet),
        Err(error) => Err(fault_behind_one(error)),
    }
}

/// The arrival of the packet's message. Of another packet the number of its kind is bad.
fn message_in(packet: Datagram) -> Result<NodeEntry, EntryError>
    ensures { result ≡ message_in packet packet.content }
{
    let Datagram {
        from,
        view,
        content,
    } = packet;
    match content {
        Content::Message(message) => Ok(NodeEntry::Arrival(Packet {
            from,
            view,
            message,
        })),
        Content::Call { .. } => Err(EntryError::Bad(4)),
        Content::Reply { .. } => Err(EntryError::Bad(4)),
    }
}

/// The fault of a packet, of at most 40,000 bytes, that stands behind one byte.
fn fault_behind_one(error: PacketError) -> EntryError
    requires { place_of error ≤ 40000 }
    ensures { result ≡ fault_behind 1 error }
{
    match error {
        PacketError::OutOfMemory => EntryError::OutOfMemory,
        PacketError::Short(place) => EntryError::Bad(1 + place),
        PacketError::BadTag(place) => EntryError::Bad(1 + place),
        PacketError::TooLong(place) => EntryError::Bad(1 + place),
        PacketError::Tail(place) => EntryError::Bad(1 + place),
    }
}

// ---- what carries no packet

/// The entry that the bytes are, where it is no arrival.
#[tactic(auto, unfolding(crate::specs::Reading::plain_of))]
fn read_plain(alloc: Global, bytes: &[u8]) -> Result<NodeEntry, PacketError>
    ensures { faults.Gives (λ e. e) result (plain_of bytes.now) }
{
    let mut reader = Reader::new(bytes);
    let entry = read_noted(alloc, &mut reader)?;
    if reader.is_at_end() {
        Ok(entry)
    } else {
        Err(PacketError::Tail(reader.place()))
    }
}

/// The number of the kind, and its fields.
#[tactic(auto, unfolding(crate::specs::Reading::entry_at))]
fn read_noted(alloc: Global, reader: &mut Reader<'_>) -> Result<NodeEntry, PacketError>
    ensures { faults.Gives (λ e. (e, reader.new)) result (entry_at reader.old) }
{
    let kind = read_kind(reader)?;
    read_fields(alloc, kind, reader)
}

/// The kind by its number.
#[tactic(auto, unfolding(crate::specs::Reading::kind_at))]
fn read_kind(reader: &mut Reader<'_>) -> Result<EntryKind, PacketError>
    ensures { faults.Gives (λ k. (k, reader.new)) result (kind_at reader.old) }
{
    let place = reader.place();
    match reader.u8()? {
        1 => Ok(EntryKind::Call),
        2 => Ok(EntryKind::Tick),
        4 => Ok(EntryKind::Restart),
        5 => Ok(EntryKind::First),
        _ => Err(PacketError::BadTag(place)),
    }
}

/// The fields of an entry of the kind.
#[tactic(auto, unfolding(crate::specs::Reading::fields_at))]
fn read_fields(
    alloc: Global,
    kind: EntryKind,
    reader: &mut Reader<'_>,
) -> Result<NodeEntry, PacketError>
    ensures { faults.Gives (λ e. (e, reader.new)) result (fields_at kind reader.old) }
{
    match kind {
        EntryKind::Call => {
            let moment = reader.u64()?;
            let call = read_noted_call(alloc, reader)?;
            Ok(NodeEntry::Call { moment, call })
        }
        EntryKind::Tick => {
            let moment = reader.u64()?;
            let word = reader.u64()?;
            Ok(NodeEntry::Tick { moment, word })
        }
        EntryKind::Restart => Ok(NodeEntry::Restart),
        EntryKind::First => {
            let server = reader.u32()?;
            let servers = reader.u32()?;
            Ok(NodeEntry::First { server, servers })
        }
    }
}

/// A call that is no tick.
#[tactic(auto, unfolding(crate::specs::Reading::noted_call_at))]
fn read_noted_call(alloc: Global, reader: &mut Reader<'_>) -> Result<Call, PacketError>
    ensures { faults.Gives (λ c. (c, reader.new)) result (noted_call_at reader.old) }
{
    let place = reader.place();
    match read_request(alloc, reader)? {
        Request::Call(call) => Ok(call),
        Request::Tick => Err(PacketError::BadTag(place)),
    }
}
