//! Names, places, flags and entries, read.

ghost use Rattle.std.specs.Prelude.{◌≡◌, ◌<◌, [], IfOk};
ghost use Rattle.pg_codec.specs.Reading.{checked, number_at};
ghost use Rattle.pg_packet_fields.specs.Faults.{Gives, of_packet};
ghost use Rattle.pg_packet_fields.specs.Lists.{count_of, many};
ghost use Rattle.pg_packet_fields.specs.Names.{is_place_name, name_at};
ghost use Rattle.pg_packet_fields.specs.Places.{above_of, entry_at, gold_at, golds_at, place_at, to_server};

use crate::error::PacketError;
use crate::fields::read_dir;
use pg_base::{NodeId, SharedBytes};
use pg_codec::Reader;
use pg_entries::Entry;
use pg_register::{Flag, GoldFlags, Place, is_place_name};
use std::alloc::Global;

fn is_name(text: &[u8]) -> bool
    ensures { result ≡ is_place_name text.now }
{
    is_place_name(text)
}

/// A name that a place may have.
#[tactic(auto, unfolding(crate::specs::Names::name_at))]
pub fn read_name<'a>(reader: &mut Reader<'a>) -> Result<&'a [u8], PacketError>
    ensures { Gives (λ n. (n.now, reader.new)) result (name_at reader.old) }
{
    let place = reader.place();
    let count = reader.u8()?;
    let name = reader.take(usize::from(count))?;
    if is_name(name) {
        Ok(name)
    } else {
        Err(PacketError::BadTag(place))
    }
}

#[tactic(auto, unfolding(crate::specs::Places::place_at))]
pub fn read_place(alloc: Global, reader: &mut Reader<'_>) -> Result<Place, PacketError>
    ensures { Gives (λ p. (p, reader.new)) result (place_at reader.old) }
{
    let stamp = reader.stamp()?;
    let parent = read_dir(reader)?;
    let live = reader.flag()?;
    let name = read_name(reader)?;
    Ok(Place {
        stamp,
        parent,
        name: SharedBytes::from_slice(alloc, name)?,
        live,
    })
}

/// A server behind the last one.
fn read_above(last: NodeId, reader: &mut Reader<'_>) -> Result<NodeId, PacketError>
    ensures read { Gives (λ n. (n, reader.new)) result
        (checked (above_of last) (of_packet (number_at 4)) reader.old) }
    ensures above { IfOk result (λ n. last < n) }
{
    let place = reader.place();
    let server = reader.u32()?;
    if last < server && server <= 64 {
        Ok(server)
    } else {
        Err(PacketError::BadTag(place))
    }
}

/// A flag of a server behind the last one; behind 0 it is of any server.
#[tactic(auto, unfolding(crate::specs::Places::gold_at))]
pub fn read_gold(last: NodeId, reader: &mut Reader<'_>) -> Result<Flag, PacketError>
    ensures read { Gives (λ f. (f, reader.new)) result (gold_at last reader.old) }
    ensures above { IfOk result (λ f. last < f.server) }
{
    let server = read_above(last, reader)?;
    let birth = reader.u64()?;
    let number = reader.u64()?;
    let raised = reader.flag()?;
    Ok(Flag {
        server,
        birth,
        number,
        raised,
    })
}

/// A count in one byte, up to 64.
fn read_few(reader: &mut Reader<'_>) -> Result<u8, PacketError>
    ensures { Gives (λ n. (n, reader.new)) result
        (checked (count_of 64) (of_packet (number_at 1)) reader.old) }
{
    let place = reader.place();
    let count = reader.u8()?;
    if count <= 64 {
        Ok(count)
    } else {
        Err(PacketError::TooLong(place))
    }
}

/// So many flags.
fn read_each_gold(
    alloc: Global,
    count: u8,
    reader: &mut Reader<'_>,
) -> Result<GoldFlags, PacketError>
    ensures { Gives (λ f. (f, reader.new)) result (many gold_at to_server count 0 [] reader.old) }
{
    let mut flags = GoldFlags::new(alloc);
    let mut last = 0;
    for _ in 0..count {
        let flag = read_gold(last, reader)?;
        flags.join(flag)?;
        last = flag.server;
    }
    Ok(flags)
}

/// A count of flags, and the flags by server.
#[tactic(auto, unfolding(crate::specs::Places::golds_at))]
pub fn read_golds(alloc: Global, reader: &mut Reader<'_>) -> Result<GoldFlags, PacketError>
    ensures { Gives (λ f. (f, reader.new)) result (golds_at reader.old) }
{
    let count = read_few(reader)?;
    read_each_gold(alloc, count, reader)
}

/// What is told of a child.
#[tactic(auto, unfolding(crate::specs::Places::entry_at))]
pub fn read_entry(alloc: Global, reader: &mut Reader<'_>) -> Result<Entry, PacketError>
    ensures { Gives (λ e. (e, reader.new)) result (entry_at reader.old) }
{
    let child = reader.file()?;
    let place = read_place(alloc, reader)?;
    let flags = read_golds(alloc, reader)?;
    Ok(Entry {
        child,
        place,
        flags,
    })
}
