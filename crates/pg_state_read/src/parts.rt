//! The parts of a state, read.

ghost use Rattle.std.specs.Prelude.{◌≡◌, ◌≤◌, [], IfOk, drop, length};
ghost use Rattle.pg_packet_fields.specs.Faults.{Gives};
ghost use Rattle.pg_packet_fields.specs.Lists.{many};
ghost use Rattle.pg_state.specs.Spelling.{mark};
ghost use Rattle.pg_state_fields.specs.Orders.{unchanged};
ghost use Rattle.pg_state_read.specs.Whole.{any_server, byte_at, counters_at, marked_at, parts_at, removed_at, servers_at, tag_at, these_at, waiting_at};

use crate::later::{read_notes, read_wishes};
use pg_announced::Announcements;
use pg_base::{Items, NodeId};
use pg_codec::Reader;
use pg_intent::Intents;
use pg_packet_fields::{PacketError, read_server};
use pg_state_fields::{Held, read_all_held, read_intents};
use pg_store::Wishes;
use std::alloc::Global;

/// Whose state it is, of how many servers, and which of these were removed, in that order.
#[derive(Debug, Drop)]
pub struct Servers {
    pub server: NodeId,
    pub servers: u32,
    pub removed: Items<NodeId>,
}

/// The greatest time of a stamp, the latest id and birth, and the next tag.
#[derive(Clone, Copy, Debug)]
pub struct Counters {
    pub last: u64,
    pub files: u64,
    pub births: u64,
    pub tags: u64,
}

/// What a server waits for.
#[derive(Debug, Drop)]
pub struct Waiting {
    pub intents: Intents,
    pub wishes: Wishes,
    pub announced: Announcements,
}

/// The parts of a state.
#[derive(Debug, Drop)]
pub struct Parts {
    pub servers: Servers,
    pub counters: Counters,
    pub held: Items<Held>,
    pub waiting: Waiting,
}

/// How every state begins.
const MARK: &[u8] = b"pangaea-state-01";

/// This byte.
#[tactic(auto, unfolding(crate::specs::Whole::byte_at))]
fn read_byte(byte: u8, reader: &mut Reader<'_>) -> Result<u8, PacketError>
    ensures { Gives (λ n. (n, reader.new)) result (byte_at byte reader.old) }
{
    let place = reader.place();
    let found = reader.u8()?;
    if found == byte {
        Ok(found)
    } else {
        Err(PacketError::BadTag(place))
    }
}

/// These bytes.
fn read_these(bytes: &[u8], reader: &mut Reader<'_>) -> Result<(), PacketError>
    ensures { Gives (λ u. (u, reader.new)) result (these_at bytes.now reader.old) }
{
    for byte in bytes {
        read_byte(*byte, reader)?;
    }
    Ok(())
}

/// So many servers.
fn read_each_server(
    alloc: Global,
    count: u8,
    reader: &mut Reader<'_>,
) -> Result<Items<NodeId>, PacketError>
    ensures { Gives (λ ns. (ns, reader.new)) result
        (many any_server unchanged count tt [] reader.old) }
{
    let mut servers = Items::new(alloc);
    for _ in 0..count {
        let server = read_server(reader)?;
        servers.push(server)?;
    }
    Ok(servers)
}

/// A count of servers, and the servers.
#[tactic(auto, unfolding(crate::specs::Whole::removed_at))]
fn read_removed(alloc: Global, reader: &mut Reader<'_>) -> Result<Items<NodeId>, PacketError>
    ensures { Gives (λ ns. (ns, reader.new)) result (removed_at reader.old) }
{
    let count = reader.u8()?;
    read_each_server(alloc, count, reader)
}

#[tactic(auto, unfolding(crate::specs::Whole::servers_at))]
fn read_servers(alloc: Global, reader: &mut Reader<'_>) -> Result<Servers, PacketError>
    ensures { Gives (λ s. (s, reader.new)) result (servers_at reader.old) }
{
    let server = read_server(reader)?;
    let servers = read_server(reader)?;
    let removed = read_removed(alloc, reader)?;
    Ok(Servers {
        server,
        servers,
        removed,
    })
}

/// The latest tag, behind which there is one more.
#[tactic(auto, unfolding(crate::specs::Whole::tag_at))]
fn read_tag(reader: &mut Reader<'_>) -> Result<u64, PacketError>
    ensures read { Gives (λ n. (n, reader.new)) result (tag_at reader.old) }
    ensures most { IfOk result (λ n. n ≤ 18446744073709551614) }
{
    let place = reader.place();
    let tag = reader.u64()?;
    if tag < u64::MAX {
        Ok(tag)
    } else {
        Err(PacketError::BadTag(place))
    }
}

#[tactic(auto, unfolding(crate::specs::Whole::counters_at))]
fn read_counters(reader: &mut Reader<'_>) -> Result<Counters, PacketError>
    ensures { Gives (λ c. (c, reader.new)) result (counters_at reader.old) }
{
    let last = reader.u64()?;
    let files = reader.u64()?;
    let births = reader.u64()?;
    let tag = read_tag(reader)?;
    Ok(Counters {
        last,
        files,
        births,
        tags: tag + 1,
    })
}

#[tactic(auto, unfolding(crate::specs::Whole::waiting_at))]
fn read_waiting(alloc: Global, reader: &mut Reader<'_>) -> Result<Waiting, PacketError>
    ensures { Gives (λ w. (w, reader.new)) result (waiting_at reader.old) }
{
    let intents = read_intents(alloc, reader)?;
    let wishes = read_wishes(alloc, reader)?;
    let announced = read_notes(alloc, reader)?;
    Ok(Waiting {
        intents,
        wishes,
        announced,
    })
}

/// What stands behind the mark.
#[tactic(auto, unfolding(crate::specs::Whole::parts_at))]
fn read_parts(alloc: Global, reader: &mut Reader<'_>) -> Result<Parts, PacketError>
    ensures { Gives (λ p. (p, reader.new)) result (parts_at reader.old) }
{
    let servers = read_servers(alloc, reader)?;
    let counters = read_counters(reader)?;
    let held = read_all_held(alloc, reader)?;
    let waiting = read_waiting(alloc, reader)?;
    Ok(Parts {
        servers,
        counters,
        held,
        waiting,
    })
}

/// How every state begins, and its parts, whatever stands behind them.
#[tactic(auto, unfolding(crate::specs::Whole::marked_at))]
pub(crate) fn read_marked(alloc: Global, reader: &mut Reader<'_>) -> Result<Parts, PacketError>
    ensures { Gives (λ p. (p, reader.new)) result (marked_at reader.old) }
{
    read_these(MARK, reader)?;
    read_parts(alloc, reader)
}
