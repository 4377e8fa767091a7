//! Kinds, read by their numbers.

ghost use Rattle.std.specs.Prelude.{◌≡◌};
ghost use Rattle.pg_packet_fields.specs.Faults.{Gives};
ghost use Rattle.pg_packet_read.specs.Numbered.{item_at, numbered};

use pg_codec::Reader;
use pg_packet_fields::PacketError;

/// The item with this number, the first having 1.
fn numbered<T: Copy>(items: &[T], number: u8) -> Option<T>
    ensures { result ≡ numbered items.now number }
{
    let index = usize::from(number).checked_sub(1)?;
    items.get(index).copied()
}

/// The item whose number is the next byte.
#[tactic(auto, unfolding(crate::specs::Numbered::item_at))]
pub fn read_item<T: Copy>(items: &[T], reader: &mut Reader<'_>) -> Result<T, PacketError>
    ensures { Gives (λ x. (x, reader.new)) result (item_at items.now reader.old) }
{
    let place = reader.place();
    let number = reader.u8()?;
    match numbered(items, number) {
        Some(item) => Ok(item),
        None => Err(PacketError::BadTag(place)),
    }
}
