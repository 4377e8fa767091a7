//! Fields that are tested, and fields that come behind those before them.

ghost use Rattle.std.specs.Prelude.{◌≡◌, true, IfOk};
ghost use Rattle.pg_base.specs.Id.{file_cmp};
ghost use Rattle.pg_packet_fields.specs.Faults.{Gives};
ghost use Rattle.pg_packet_fields.specs.Lists.{is_later};
ghost use Rattle.pg_state_fields.specs.Orders.{is_behind, next_file_at, next_stamp_at, target_at};

use pg_base::{FileId, NodeId, Stamp};
use pg_codec::Reader;
use pg_packet_fields::PacketError;

fn is_file_behind(last: Option<FileId>, file: FileId) -> bool
    ensures { result ≡ is_behind file_cmp last file }
{
    match last {
        Some(last) => last.compare(&file).is_lt(),
        None => true,
    }
}

/// A file or directory whose id is behind the last one.
#[tactic(auto, unfolding(crate::specs::Orders::next_file_at))]
pub fn read_next_file(last: Option<FileId>, reader: &mut Reader<'_>) -> Result<FileId, PacketError>
    ensures read { Gives (λ id. (id, reader.new)) result (next_file_at last reader.old) }
    ensures behind { IfOk result (λ id. is_behind file_cmp last id ≡ true) }
{
    let place = reader.place();
    let file = reader.file()?;
    if is_file_behind(last, file) {
        Ok(file)
    } else {
        Err(PacketError::BadTag(place))
    }
}

fn is_later(last: Option<Stamp>, stamp: Stamp) -> bool
    ensures { result ≡ is_later last stamp }
{
    match last {
        Some(last) => last.is_before(stamp),
        None => true,
    }
}

/// A stamp behind the last one.
#[tactic(auto, unfolding(crate::specs::Orders::next_stamp_at))]
pub(crate) fn read_next_stamp(
    last: Option<Stamp>,
    reader: &mut Reader<'_>,
) -> Result<Stamp, PacketError>
    ensures read { Gives (λ s. (s, reader.new)) result (next_stamp_at last reader.old) }
    ensures later { IfOk result (λ s. is_later last s ≡ true) }
{
    let place = reader.place();
    let stamp = reader.stamp()?;
    if is_later(last, stamp) {
        Ok(stamp)
    } else {
        Err(PacketError::BadTag(place))
    }
}

/// The number of a server, or 0.
#[tactic(auto, unfolding(crate::specs::Orders::target_at))]
pub fn read_target(reader: &mut Reader<'_>) -> Result<NodeId, PacketError>
    ensures { Gives (λ n. (n, reader.new)) result (target_at reader.old) }
{
    let place = reader.place();
    let target = reader.u32()?;
    if target <= 64 {
        Ok(target)
    } else {
        Err(PacketError::BadTag(place))
    }
}
