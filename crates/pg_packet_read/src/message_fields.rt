//! The fields that only messages have, read.

ghost use Rattle.pg_packet_fields.specs.Faults.{Gives};
ghost use Rattle.pg_packet_read.specs.MessageFields.{about_at, delta_at, granted_at, hops_at, piece_at, replica_at, listed_at, wanted_at};

use pg_base::{FileId, Shared, Stamp};
use pg_codec::Reader;
use pg_entries::Entry;
use pg_msg::{Delta, Ends, Granted, Piece, Wanted};
use pg_packet_fields::{
    PacketError, read_block, read_dir, read_ends, read_entry, read_golds, read_head, read_place,
    read_policy, read_ranges, read_stamps,
};
use std::alloc::Global;

/// Which version is asked for.
#[tactic(auto, unfolding(crate::specs::MessageFields::wanted_at))]
pub fn read_wanted(alloc: Global, reader: &mut Reader<'_>) -> Result<Shared<Wanted>, PacketError>
    ensures { Gives (λ w. (w, reader.new)) result (wanted_at reader.old) }
{
    let stamp = reader.stamp()?;
    let offset = reader.u32()?;
    let heads = read_stamps(alloc, reader)?;
    let wanted = Wanted {
        stamp,
        offset,
        heads,
    };
    Ok(Shared::new(alloc, wanted)?)
}

/// A version, as what is to be changed.
#[tactic(auto, unfolding(crate::specs::MessageFields::delta_at))]
pub fn read_delta(alloc: Global, reader: &mut Reader<'_>) -> Result<Shared<Delta>, PacketError>
    ensures { Gives (λ d. (d, reader.new)) result (delta_at reader.old) }
{
    let head = read_head(alloc, reader)?;
    let from = read_stamps(alloc, reader)?;
    let ranges = read_ranges(alloc, reader)?;
    Ok(Shared::new(alloc, Delta { head, from, ranges })?)
}

/// Bytes of a body.
#[tactic(auto, unfolding(crate::specs::MessageFields::piece_at))]
pub fn read_piece(alloc: Global, reader: &mut Reader<'_>) -> Result<Shared<Piece>, PacketError>
    ensures { Gives (λ p. (p, reader.new)) result (piece_at reader.old) }
{
    let head = read_head(alloc, reader)?;
    let offset = reader.u32()?;
    let bytes = read_block(alloc, reader)?;
    let piece = Piece {
        head,
        offset,
        bytes,
    };
    Ok(Shared::new(alloc, piece)?)
}

/// What a new replica begins with.
#[tactic(auto, unfolding(crate::specs::MessageFields::granted_at))]
pub fn read_granted(alloc: Global, reader: &mut Reader<'_>) -> Result<Shared<Granted>, PacketError>
    ensures { Gives (λ g. (g, reader.new)) result (granted_at reader.old) }
{
    let policy = read_policy(reader)?;
    let place = read_place(alloc, reader)?;
    let flags = read_golds(alloc, reader)?;
    let granted = Granted {
        policy,
        place,
        flags,
    };
    Ok(Shared::new(alloc, granted)?)
}

/// A file and the birth of a replica.
#[tactic(auto, unfolding(crate::specs::MessageFields::replica_at))]
pub fn read_replica(reader: &mut Reader<'_>) -> Result<(FileId, u64), PacketError>
    ensures { Gives (λ r. (r, reader.new)) result (replica_at reader.old) }
{
    let file = reader.file()?;
    let birth = reader.u64()?;
    Ok((file, birth))
}

/// A directory and what is told of a child.
#[tactic(auto, unfolding(crate::specs::MessageFields::listed_at))]
pub fn read_listed(
    alloc: Global,
    reader: &mut Reader<'_>,
) -> Result<(FileId, Shared<Entry>), PacketError>
    ensures { Gives (λ t. (t, reader.new)) result (listed_at reader.old) }
{
    let dir = read_dir(reader)?;
    let entry = read_entry(alloc, reader)?;
    Ok((dir, Shared::new(alloc, entry)?))
}

/// An edge and a stamp.
#[tactic(auto, unfolding(crate::specs::MessageFields::about_at))]
pub fn read_about(reader: &mut Reader<'_>) -> Result<(Ends, Stamp), PacketError>
    ensures { Gives (λ a. (a, reader.new)) result (about_at reader.old) }
{
    let ends = read_ends(reader)?;
    let stamp = reader.stamp()?;
    Ok((ends, stamp))
}

/// How many hops are left.
#[tactic(auto, unfolding(crate::specs::MessageFields::hops_at))]
pub fn read_hops(reader: &mut Reader<'_>) -> Result<u8, PacketError>
    ensures { Gives (λ n. (n, reader.new)) result (hops_at reader.old) }
{
    let place = reader.place();
    let hops = reader.u8()?;
    if 1 <= hops && hops <= 3 {
        Ok(hops)
    } else {
        Err(PacketError::BadTag(place))
    }
}
