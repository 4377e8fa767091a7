//! Heads with their bodies and kept deltas, read.

ghost use Rattle.std.specs.Prelude.{◌≡◌, ◌<◌, true, [], None, IfOk, length};
ghost use Rattle.pg_codec.specs.Reading.{bytes_at};
ghost use Rattle.pg_content.specs.Content.{InStampOrder};
ghost use Rattle.pg_packet_fields.specs.Faults.{Gives, of_packet};
ghost use Rattle.pg_packet_fields.specs.Lists.{is_later, many};
ghost use Rattle.pg_state_fields.specs.Contents.{any_delta, delta_at, deltas_at, front_at, heads_at, length_at, ordinal_at, to_stamp, version_at};
ghost use Rattle.pg_state_fields.specs.Orders.{unchanged};

use crate::orders::read_next_stamp;
use pg_base::{Head, Items, SharedBytes, Stamp, Version};
use pg_codec::Reader;
use pg_delta::KeptDelta;
use pg_packet_fields::{PacketError, read_ranges, read_stamps, read_vector};
use pg_patch::LIMIT;
use std::alloc::Global;

/// A number that is not 0.
#[tactic(auto, unfolding(crate::specs::Contents::ordinal_at))]
pub fn read_ordinal(reader: &mut Reader<'_>) -> Result<u64, PacketError>
    ensures read { Gives (λ n. (n, reader.new)) result (ordinal_at reader.old) }
    ensures least { IfOk result (λ n. 0 < n) }
{
    let place = reader.place();
    let number = reader.u64()?;
    if 1 <= number {
        Ok(number)
    } else {
        Err(PacketError::BadTag(place))
    }
}

/// The length of a body.
#[tactic(auto, unfolding(crate::specs::Contents::length_at))]
fn read_length(reader: &mut Reader<'_>) -> Result<u32, PacketError>
    ensures { Gives (λ n. (n, reader.new)) result (length_at reader.old) }
{
    let place = reader.place();
    let length = reader.u32()?;
    if length <= LIMIT {
        Ok(length)
    } else {
        Err(PacketError::TooLong(place))
    }
}

/// A head whose body follows, with a stamp behind the last one.
#[tactic(auto, unfolding(crate::specs::Contents::front_at))]
fn read_front(
    alloc: Global,
    last: Option<Stamp>,
    reader: &mut Reader<'_>,
) -> Result<Head, PacketError>
    ensures read { Gives (λ h. (h, reader.new)) result (front_at last reader.old) }
    ensures some { IfOk result (λ h. 0 < h.number) }
    ensures later { IfOk result (λ h. is_later last h.stamp ≡ true) }
{
    let stamp = read_next_stamp(last, reader)?;
    let birth = reader.u64()?;
    let number = read_ordinal(reader)?;
    let vector = read_vector(alloc, reader)?;
    let length = read_length(reader)?;
    Ok(Head {
        stamp,
        birth,
        number,
        vector,
        length,
    })
}

/// So many bytes.
fn read_bytes(
    alloc: Global,
    count: u32,
    reader: &mut Reader<'_>,
) -> Result<SharedBytes, PacketError>
    ensures read { Gives (λ b. (b, reader.new)) result (of_packet (bytes_at count) reader.old) }
    ensures long { IfOk result (λ b. length b ≡ count) }
{
    let bytes = reader.take(count as usize)?;
    Ok(SharedBytes::from_slice(alloc, bytes)?)
}

/// A version whose stamp is behind the last one: its head and its body.
#[tactic(auto, unfolding(crate::specs::Contents::version_at))]
fn read_version(
    alloc: Global,
    last: Option<Stamp>,
    reader: &mut Reader<'_>,
) -> Result<Version, PacketError>
    ensures read { Gives (λ v. (v, reader.new)) result (version_at last reader.old) }
    ensures later { IfOk result (λ v. is_later last v.head.stamp ≡ true) }
{
    let head = read_front(alloc, last, reader)?;
    let body = read_bytes(alloc, head.length, reader)?;
    Ok(Version::new(alloc, head, body)?)
}

fn stamp_of(version: &Version) -> Stamp
    ensures { result ≡ version.now.head.stamp }
{
    version.head().stamp
}

/// So many versions.
fn read_each_version(
    alloc: Global,
    count: u16,
    reader: &mut Reader<'_>,
) -> Result<Items<Version>, PacketError>
    ensures read { Gives (λ vs. (vs, reader.new)) result
        (many version_at to_stamp count None [] reader.old) }
    ensures order { IfOk result (λ vs. InStampOrder vs) }
{
    let mut heads = Items::new(alloc);
    let mut last = None;
    for _ in 0..count {
        let version = read_version(alloc, last, reader)?;
        last = Some(stamp_of(&version));
        heads.push(version)?;
    }
    Ok(heads)
}

/// A count of heads, and the heads by stamp, each with its body.
#[tactic(auto, unfolding(crate::specs::Contents::heads_at))]
pub fn read_heads(alloc: Global, reader: &mut Reader<'_>) -> Result<Items<Version>, PacketError>
    ensures read { Gives (λ vs. (vs, reader.new)) result (heads_at reader.old) }
    ensures order { IfOk result (λ vs. InStampOrder vs) }
{
    let count = reader.u16()?;
    read_each_version(alloc, count, reader)
}

/// A delta.
#[tactic(auto, unfolding(crate::specs::Contents::delta_at))]
fn read_delta(alloc: Global, reader: &mut Reader<'_>) -> Result<KeptDelta, PacketError>
    ensures { Gives (λ d. (d, reader.new)) result (delta_at reader.old) }
{
    let from = read_stamps(alloc, reader)?;
    let to = reader.stamp()?;
    let ranges = read_ranges(alloc, reader)?;
    Ok(KeptDelta { from, to, ranges })
}

/// So many deltas.
fn read_each_delta(
    alloc: Global,
    count: u8,
    reader: &mut Reader<'_>,
) -> Result<Items<KeptDelta>, PacketError>
    ensures { Gives (λ ds. (ds, reader.new)) result
        (many any_delta unchanged count tt [] reader.old) }
{
    let mut deltas = Items::new(alloc);
    for _ in 0..count {
        let delta = read_delta(alloc, reader)?;
        deltas.push(delta)?;
    }
    Ok(deltas)
}

/// A count of deltas, and the deltas, the oldest first.
#[tactic(auto, unfolding(crate::specs::Contents::deltas_at))]
pub fn read_deltas(alloc: Global, reader: &mut Reader<'_>) -> Result<Items<KeptDelta>, PacketError>
    ensures { Gives (λ ds. (ds, reader.new)) result (deltas_at reader.old) }
{
    let count = reader.u8()?;
    read_each_delta(alloc, count, reader)
}
