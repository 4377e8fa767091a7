//! Places with flags, and entries, read.

ghost use Rattle.std.specs.Prelude.{◌≡◌, ◌<◌, [], None, IfOk};
ghost use Rattle.pg_codec.specs.Reading.{checked, number_at};
ghost use Rattle.pg_packet_fields.specs.Faults.{Gives, of_packet};
ghost use Rattle.pg_packet_fields.specs.Lists.{count_of, many};
ghost use Rattle.pg_packet_fields.specs.Places.{to_server};
ghost use Rattle.pg_state_fields.specs.Flags.{above_at, entries_at, entry_at, entry_with, flag_number_at, gold_at, golds_at, own_at, to_child};

use crate::orders::read_next_file;
use pg_base::{FileId, Items, NodeId};
use pg_codec::Reader;
use pg_entries::Entry;
use pg_names::Attributes;
use pg_packet_fields::{PacketError, read_place};
use pg_register::{Flag, GoldFlags};
use std::alloc::Global;

/// A server behind the last one.
#[tactic(auto, unfolding(crate::specs::Flags::above_at))]
pub(crate) fn read_above(last: NodeId, reader: &mut Reader<'_>) -> Result<NodeId, PacketError>
    ensures read { Gives (λ n. (n, reader.new)) result (above_at last reader.old) }
    ensures above { IfOk result (λ n. last < n) }
{
    let place = reader.place();
    let server = reader.u32()?;
    if last < server && server <= 64 {
        Ok(server)
    } else {
        Err(PacketError::BadTag(place))
    }
}

/// The number of a flag: below 2^63.
#[tactic(auto, unfolding(crate::specs::Flags::flag_number_at))]
fn read_flag_number(reader: &mut Reader<'_>) -> Result<u64, PacketError>
    ensures { Gives (λ n. (n, reader.new)) result (flag_number_at reader.old) }
{
    let place = reader.place();
    let number = reader.u64()?;
    if number < 1 << 63 {
        Ok(number)
    } else {
        Err(PacketError::BadTag(place))
    }
}

/// A flag of a server behind the last one; behind 0 it is of any server.
#[tactic(auto, unfolding(crate::specs::Flags::gold_at))]
fn read_gold(last: NodeId, reader: &mut Reader<'_>) -> Result<Flag, PacketError>
    ensures read { Gives (λ f. (f, reader.new)) result (gold_at last reader.old) }
    ensures above { IfOk result (λ f. last < f.server) }
{
    let server = read_above(last, reader)?;
    let birth = reader.u64()?;
    let number = read_flag_number(reader)?;
    let raised = reader.flag()?;
    Ok(Flag {
        server,
        birth,
        number,
        raised,
    })
}

/// A count in one byte, up to 64.
fn read_few(reader: &mut Reader<'_>) -> Result<u8, PacketError>
    ensures { Gives (λ n. (n, reader.new)) result
        (checked (count_of 64) (of_packet (number_at 1)) reader.old) }
{
    let place = reader.place();
    let count = reader.u8()?;
    if count <= 64 {
        Ok(count)
    } else {
        Err(PacketError::TooLong(place))
    }
}

/// So many flags.
fn read_each_gold(
    alloc: Global,
    count: u8,
    reader: &mut Reader<'_>,
) -> Result<GoldFlags, PacketError>
    ensures { Gives (λ f. (f, reader.new)) result (many gold_at to_server count 0 [] reader.old) }
{
    let mut flags = GoldFlags::new(alloc);
    let mut last = 0;
    for _ in 0..count {
        let flag = read_gold(last, reader)?;
        flags.join(flag)?;
        last = flag.server;
    }
    Ok(flags)
}

/// A count of flags, and the flags by server.
#[tactic(auto, unfolding(crate::specs::Flags::golds_at))]
fn read_golds(alloc: Global, reader: &mut Reader<'_>) -> Result<GoldFlags, PacketError>
    ensures { Gives (λ f. (f, reader.new)) result (golds_at reader.old) }
{
    let count = read_few(reader)?;
    read_each_gold(alloc, count, reader)
}

/// A place with flags.
#[tactic(auto, unfolding(crate::specs::Flags::own_at))]
pub fn read_own(alloc: Global, reader: &mut Reader<'_>) -> Result<Attributes, PacketError>
    ensures { Gives (λ own. (own, reader.new)) result (own_at reader.old) }
{
    let place = read_place(alloc, reader)?;
    let flags = read_golds(alloc, reader)?;
    Ok(Attributes { place, flags })
}

pub(crate) fn entry_with(child: FileId, own: Attributes) -> Entry
    ensures { result ≡ entry_with child own }
{
    Entry {
        child,
        place: own.place,
        flags: own.flags,
    }
}

/// What is told of a child behind the last one.
#[tactic(auto, unfolding(crate::specs::Flags::entry_at))]
fn read_entry(
    alloc: Global,
    last: Option<FileId>,
    reader: &mut Reader<'_>,
) -> Result<Entry, PacketError>
    ensures { Gives (λ e. (e, reader.new)) result (entry_at last reader.old) }
{
    let child = read_next_file(last, reader)?;
    let own = read_own(alloc, reader)?;
    Ok(entry_with(child, own))
}

/// So many entries.
fn read_each_entry(
    alloc: Global,
    count: u32,
    reader: &mut Reader<'_>,
) -> Result<Items<Entry>, PacketError>
    ensures { Gives (λ es. (es, reader.new)) result
        (many entry_at to_child count None [] reader.old) }
{
    let mut entries = Items::new(alloc);
    let mut last = None;
    for _ in 0..count {
        let entry = read_entry(alloc, last, reader)?;
        last = Some(entry.child);
        entries.push(entry)?;
    }
    Ok(entries)
}

/// A count of entries, and the entries by child.
#[tactic(auto, unfolding(crate::specs::Flags::entries_at))]
pub fn read_entries(alloc: Global, reader: &mut Reader<'_>) -> Result<Items<Entry>, PacketError>
    ensures { Gives (λ es. (es, reader.new)) result (entries_at reader.old) }
{
    let count = reader.u32()?;
    read_each_entry(alloc, count, reader)
}
