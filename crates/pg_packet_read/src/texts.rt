//! Texts of calls, read.

ghost use Rattle.std.specs.Prelude.{◌≡◌, IfOk};
ghost use Rattle.pg_packet_fields.specs.Faults.{Gives};
ghost use Rattle.pg_packet_fields.specs.Reading.{text_at};
ghost use Rattle.pg_packet_read.specs.Targets.{target_at, target_of};

use pg_base::{FileId, SharedBytes};
use pg_call::Target;
use pg_codec::Reader;
use pg_packet_fields::{PacketError, read_text};
use std::alloc::{AllocError, Global};

/// A text, whatever it is.
pub fn read_path(alloc: Global, reader: &mut Reader<'_>) -> Result<SharedBytes, PacketError>
    ensures { Gives (λ t. (t, reader.new)) result (text_at reader.old) }
{
    let text = read_text(reader)?;
    Ok(SharedBytes::from_slice(alloc, text)?)
}

/// The id that the text spells, else the text as a path.
fn target_of(alloc: Global, text: &[u8]) -> Result<Target, AllocError>
    ensures { IfOk result (λ t. t ≡ target_of text.now) }
{
    match FileId::read(text) {
        Ok(id) => Ok(Target::Id(id)),
        Err(_) => {
            let path = SharedBytes::from_slice(alloc, text)?;
            Ok(Target::Path(path))
        }
    }
}

/// What a call is about.
#[tactic(auto, unfolding(crate::specs::Targets::target_at))]
pub fn read_target(alloc: Global, reader: &mut Reader<'_>) -> Result<Target, PacketError>
    ensures { Gives (λ t. (t, reader.new)) result (target_at reader.old) }
{
    let text = read_text(reader)?;
    Ok(target_of(alloc, text)?)
}
