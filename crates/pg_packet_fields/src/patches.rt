//! Ranges and bytes, read.

ghost use Rattle.std.specs.Prelude.{◌≡◌, ◌≤◌, ◌+◌, [], IfOk, length};
ghost use Rattle.pg_codec.specs.Reading.{bytes_at, checked, number_at};
ghost use Rattle.pg_patch.specs.Parts.{AreInOrder, end_of};
ghost use Rattle.pg_packet_fields.specs.Faults.{Gives, of_packet};
ghost use Rattle.pg_packet_fields.specs.Lists.{count_of, list_at, many};
ghost use Rattle.pg_packet_fields.specs.Patches.{block_at, long_of, offset_of, part_at, ranges_at, to_room, whole_room};

use crate::error::PacketError;
use pg_base::{Items, SharedBytes};
use pg_codec::Reader;
use pg_patch::{Part, Ranges};
use std::alloc::Global;

/// So many bytes.
pub(crate) fn read_bytes(
    alloc: Global,
    count: u32,
    reader: &mut Reader<'_>,
) -> Result<SharedBytes, PacketError>
    ensures read { Gives (λ b. (b, reader.new)) result (of_packet (bytes_at count) reader.old) }
    ensures long { IfOk result (λ b. length b ≡ count) }
{
    let bytes = reader.take(count as usize)?;
    Ok(SharedBytes::from_slice(alloc, bytes)?)
}

/// A length up to 32,768.
fn read_block_length(reader: &mut Reader<'_>) -> Result<u32, PacketError>
    ensures read { Gives (λ n. (n, reader.new)) result
        (checked (count_of 32768) (of_packet (number_at 4)) reader.old) }
    ensures most { IfOk result (λ n. n ≤ 32768) }
{
    let place = reader.place();
    let count = reader.u32()?;
    if count <= 32_768 {
        Ok(count)
    } else {
        Err(PacketError::TooLong(place))
    }
}

/// At most 32,768 bytes.
#[tactic(auto, unfolding(crate::specs::Patches::block_at))]
pub fn read_block(alloc: Global, reader: &mut Reader<'_>) -> Result<SharedBytes, PacketError>
    ensures read { Gives (λ b. (b, reader.new)) result (block_at reader.old) }
    ensures most { IfOk result (λ b. length b ≤ 32768) }
{
    let count = read_block_length(reader)?;
    read_bytes(alloc, count, reader)
}

/// Where a part begins.
fn read_offset(from: u64, reader: &mut Reader<'_>) -> Result<u32, PacketError>
    ensures read { Gives (λ n. (n, reader.new)) result
        (checked (offset_of from) (of_packet (number_at 4)) reader.old) }
    ensures from { IfOk result (λ n. from ≤ n) }
{
    let place = reader.place();
    let offset = reader.u32()?;
    if from <= u64::from(offset) {
        Ok(offset)
    } else {
        Err(PacketError::BadTag(place))
    }
}

/// How many bytes a part has.
fn read_long(
    least: u32,
    left: u32,
    offset: u32,
    reader: &mut Reader<'_>,
) -> Result<u32, PacketError>
    ensures read { Gives (λ n. (n, reader.new)) result
        (checked (long_of least left offset) (of_packet (number_at 4)) reader.old) }
    ensures left { IfOk result (λ n. n ≤ left) }
    ensures some { IfOk result (λ n. 1 ≤ n) }
    ensures end { IfOk result (λ n. offset + n ≤ least) }
{
    let place = reader.place();
    let count = reader.u32()?;
    if left < count {
        return Err(PacketError::TooLong(place));
    }
    if 1 <= count && u64::from(offset) + u64::from(count) <= u64::from(least) {
        Ok(count)
    } else {
        Err(PacketError::BadTag(place))
    }
}

/// A part that begins at `from` or behind it, has at most `left` bytes, and ends at `least` or
/// before it.
#[tactic(auto, unfolding(crate::specs::Patches::part_at))]
fn read_part(
    alloc: Global,
    least: u32,
    from: u64,
    left: u32,
    reader: &mut Reader<'_>,
) -> Result<Part, PacketError>
    ensures read { Gives (λ p. (p, reader.new)) result
        (part_at least (record { from = from; left = left }) reader.old) }
    ensures from { IfOk result (λ p. from ≤ p.offset) }
    ensures left { IfOk result (λ p. length p.bytes ≤ left) }
    ensures some { IfOk result (λ p. 1 ≤ length p.bytes) }
    ensures end { IfOk result (λ p. end_of p ≤ least) }
{
    let offset = read_offset(from, reader)?;
    let count = read_long(least, left, offset, reader)?;
    let bytes = read_bytes(alloc, count, reader)?;
    Ok(Part { offset, bytes })
}

/// The most bytes that all parts have together.
const MOST: u32 = 30_000;

/// So many parts.
fn read_each_part(
    alloc: Global,
    least: u32,
    count: u32,
    reader: &mut Reader<'_>,
) -> Result<Items<Part>, PacketError>
    ensures read { Gives (λ p. (p, reader.new)) result
        (many (part_at least) to_room count whole_room [] reader.old) }
    ensures order { IfOk result (λ p. AreInOrder 0 p least) }
{
    let mut parts = Items::new(alloc);
    let mut from = 0_u64;
    let mut left = MOST;
    for _ in 0..count {
        let part = read_part(alloc, least, from, left, reader)?;
        let long = part.bytes.len();
        from = u64::from(part.offset) + long as u64 + 1;
        left -= long as u32;
        parts.push(part)?;
    }
    Ok(parts)
}

/// A count of parts.
fn read_part_count(reader: &mut Reader<'_>) -> Result<u32, PacketError>
    ensures { Gives (λ n. (n, reader.new)) result
        (checked (count_of 200) (of_packet (number_at 4)) reader.old) }
{
    let place = reader.place();
    let count = reader.u32()?;
    if count <= 200 {
        Ok(count)
    } else {
        Err(PacketError::TooLong(place))
    }
}

fn read_parts(
    alloc: Global,
    least: u32,
    reader: &mut Reader<'_>,
) -> Result<Items<Part>, PacketError>
    ensures read { Gives (λ p. (p, reader.new)) result
        (list_at 4 200 (part_at least) to_room whole_room reader.old) }
    ensures order { IfOk result (λ p. AreInOrder 0 p least) }
{
    let count = read_part_count(reader)?;
    read_each_part(alloc, least, count, reader)
}

/// What is changed of a body.
#[tactic(auto, unfolding(crate::specs::Patches::ranges_at))]
pub fn read_ranges(alloc: Global, reader: &mut Reader<'_>) -> Result<Ranges, PacketError>
    ensures { Gives (λ r. (r, reader.new)) result (ranges_at reader.old) }
{
    let keep = reader.u32()?;
    let least = reader.u32()?;
    let parts = read_parts(alloc, least, reader)?;
    Ok(Ranges::from_parts(keep, least, parts))
}
