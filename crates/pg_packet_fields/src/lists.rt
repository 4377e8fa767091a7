//! Lists, read.

ghost use Rattle.std.specs.Prelude.{◌≡◌, [], None};
ghost use Rattle.pg_codec.specs.Reading.{checked, number_at};
ghost use Rattle.pg_packet_fields.specs.Faults.{Gives, of_packet};
ghost use Rattle.pg_packet_fields.specs.Lists.{count_of, is_later, later_at, many, stamps_at, to_last};

use crate::error::PacketError;
use pg_base::{Items, Stamp};
use pg_codec::Reader;
use std::alloc::Global;

/// A count in two bytes, up to 256.
pub(crate) fn read_count(reader: &mut Reader<'_>) -> Result<u16, PacketError>
    ensures { Gives (λ n. (n, reader.new)) result
        (checked (count_of 256) (of_packet (number_at 2)) reader.old) }
{
    let place = reader.place();
    let count = reader.u16()?;
    if count <= 256 {
        Ok(count)
    } else {
        Err(PacketError::TooLong(place))
    }
}

fn is_later(last: Option<Stamp>, stamp: Stamp) -> bool
    ensures { result ≡ is_later last stamp }
{
    match last {
        Some(last) => last.is_before(stamp),
        None => true,
    }
}

/// A stamp that is later than the last.
#[tactic(auto, unfolding(crate::specs::Lists::later_at))]
fn read_later(last: Option<Stamp>, reader: &mut Reader<'_>) -> Result<Stamp, PacketError>
    ensures { Gives (λ s. (s, reader.new)) result (later_at last reader.old) }
{
    let place = reader.place();
    let stamp = reader.stamp()?;
    if is_later(last, stamp) {
        Ok(stamp)
    } else {
        Err(PacketError::BadTag(place))
    }
}

/// So many stamps.
fn read_each_stamp(
    alloc: Global,
    count: u16,
    reader: &mut Reader<'_>,
) -> Result<Items<Stamp>, PacketError>
    ensures { Gives (λ s. (s, reader.new)) result
        (many later_at to_last count None [] reader.old) }
{
    let mut stamps = Items::new(alloc);
    let mut last = None;
    for _ in 0..count {
        let stamp = read_later(last, reader)?;
        stamps.push(stamp)?;
        last = Some(stamp);
    }
    Ok(stamps)
}

/// A count of stamps, and the stamps in their order.
#[tactic(auto, unfolding(crate::specs::Lists::stamps_at))]
pub fn read_stamps(alloc: Global, reader: &mut Reader<'_>) -> Result<Items<Stamp>, PacketError>
    ensures { Gives (λ s. (s, reader.new)) result (stamps_at reader.old) }
{
    let count = read_count(reader)?;
    read_each_stamp(alloc, count, reader)
}
