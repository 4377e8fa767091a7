//! Cells, read.

ghost use Rattle.pg_packet_fields.specs.Cells.{cell_at};
ghost use Rattle.pg_packet_fields.specs.Faults.{Gives};

use crate::error::PacketError;
use crate::heads::read_version;
use crate::places::{read_entry, read_gold, read_place};
use pg_base::Shared;
use pg_codec::Reader;
use pg_entries::Cell;
use std::alloc::Global;

/// A cell. Its kind stands in front.
#[tactic(auto, unfolding(crate::specs::Cells::cell_at))]
pub fn read_cell(alloc: Global, reader: &mut Reader<'_>) -> Result<Cell, PacketError>
    ensures { Gives (λ c. (c, reader.new)) result (cell_at reader.old) }
{
    let place = reader.place();
    match reader.u8()? {
        1 => {
            let place = read_place(alloc, reader)?;
            Ok(Cell::Place(Shared::new(alloc, place)?))
        }
        2 => {
            let flag = read_gold(0, reader)?;
            Ok(Cell::Flag(Shared::new(alloc, flag)?))
        }
        3 => {
            let entry = read_entry(alloc, reader)?;
            let sure = reader.flag()?;
            Ok(Cell::Entry(Shared::new(alloc, entry)?, sure))
        }
        4 => {
            let version = read_version(alloc, reader)?;
            Ok(Cell::Version(version))
        }
        _ => Err(PacketError::BadTag(place)),
    }
}
