//! Entries, written.

ghost use Rattle.std.specs.Prelude.{◌≡◌, ◌≤◌, ◌++◌, IfOk, OnOk, drop, length};
ghost use Rattle.pg_node_entry.specs.Entries.{FitsArrival, FitsEntry, IsWholeArrival, IsWholeEntry, entry_bytes};
ghost use Rattle.pg_node_entry.specs.declared.entry.NodeEntry.TheVariants as entry;
ghost use Rattle.pg_packet_write.specs.Calls.{FitsCall};
ghost use Rattle.pg_packet_write.specs.Datagrams.{packet_bytes};

use crate::entry::NodeEntry;
use law_written::packets_are_read;
use pg_base::Bytes;
use pg_call::Call;
use pg_codec::{write_u8, write_u32, write_u64};
use pg_msg::Packet;
use pg_packet_write::{Content, Datagram, Request, write_packet};
use std::alloc::{AllocError, Global};

/// How many bytes of a client's packet stand in front of its number.
const FRONT: usize = 16;

/// Room for so many bytes is taken at once: most calls are spelled in fewer.
const ROOM: usize = 256;

/// Writes the entry at the end, and gives it back. What was written is read as this entry.
#[tactic(auto, unfolding(crate::specs::Entries::entry_bytes))]
pub fn write_entry(
    alloc: Global,
    entry: NodeEntry,
    out: &mut Bytes,
) -> Result<NodeEntry, AllocError>
    requires { FitsEntry entry }
    ensures bytes { OnOk result (out.new ≡ out.old ++ entry_bytes entry) }
    ensures same { IfOk result (λ e. e ≡ entry) }
    ensures whole { OnOk result (IsWholeEntry entry) }
{
    match entry {
        NodeEntry::Call { moment, call } => write_noted_call(alloc, moment, call, out),
        NodeEntry::Tick { moment, word } => {
            write_u8(2, out)?;
            write_u64(moment, out)?;
            write_u64(word, out)?;
            Ok(NodeEntry::Tick { moment, word })
        }
        NodeEntry::Arrival(packet) => write_arrival(packet, out),
        NodeEntry::Restart => {
            write_u8(4, out)?;
            Ok(NodeEntry::Restart)
        }
        NodeEntry::First { server, servers } => {
            write_u8(5, out)?;
            write_u32(server, out)?;
            write_u32(servers, out)?;
            Ok(NodeEntry::First { server, servers })
        }
    }
}

/// What stands behind so many bytes.
fn behind_front(bytes: &[u8]) -> &[u8]
    requires { 16 ≤ length bytes.now }
    ensures { result.now ≡ drop 16 bytes.now }
{
    &bytes[FRONT..]
}

/// The packet's bytes.
fn spelled(alloc: Global, packet: &Datagram) -> Result<Bytes, AllocError>
    ensures { IfOk result (λ bytes. bytes ≡ packet_bytes packet.now) }
{
    let mut bytes = Bytes::from_vec(Vec::with_capacity(alloc, ROOM)?);
    write_packet(packet, &mut bytes)?;
    Ok(bytes)
}

/// A call is spelled as in a client's packet that has the moment as its number.
fn write_noted_call(
    alloc: Global,
    moment: u64,
    call: Call,
    out: &mut Bytes,
) -> Result<NodeEntry, AllocError>
    requires { FitsCall call }
    ensures bytes { OnOk result (out.new ≡ out.old ++ entry_bytes (entry.Call moment call)) }
    ensures same { IfOk result (λ e. e ≡ entry.Call moment call) }
    ensures whole { OnOk result (IsWholeEntry (entry.Call moment call)) }
{
    let packet = Datagram::call(moment, Request::Call(call));
    packets_are_read(&packet);
    let bytes = spelled(alloc, &packet)?;
    write_u8(1, out)?;
    out.extend(behind_front(bytes.as_slice()))?;
    let Datagram { content, .. } = packet;
    match content {
        Content::Call { asked, .. } => match asked {
            Request::Call(call) => Ok(NodeEntry::Call { moment, call }),
            Request::Tick => unreachable!(),
        },
        Content::Message(_) => unreachable!(),
        Content::Reply { .. } => unreachable!(),
    }
}

fn write_arrival(packet: Packet, out: &mut Bytes) -> Result<NodeEntry, AllocError>
    requires { FitsArrival packet }
    ensures bytes { OnOk result (out.new ≡ out.old ++ entry_bytes (entry.Arrival packet)) }
    ensures same { IfOk result (λ e. e ≡ entry.Arrival packet) }
    ensures whole { OnOk result (IsWholeArrival packet) }
{
    let Packet {
        from,
        view,
        message,
    } = packet;
    let packet = Datagram::message(from, view, message);
    packets_are_read(&packet);
    write_u8(3, out)?;
    write_packet(&packet, out)?;
    let Datagram { content, .. } = packet;
    match content {
        Content::Message(message) => Ok(NodeEntry::Arrival(Packet {
            from,
            view,
            message,
        })),
        Content::Call { .. } => unreachable!(),
        Content::Reply { .. } => unreachable!(),
    }
}
