//! Refusals, read.

ghost use Rattle.pg_packet_fields.specs.Faults.{Gives};
ghost use Rattle.pg_packet_read.specs.Refusals.{reason_at, refusal_at};

use crate::numbered::read_item;
use pg_call::{IntentKind, Refusal, RefusalKind, Unsettled};
use pg_codec::Reader;
use pg_packet_fields::PacketError;

/// The kinds of refusals, by number.
const REFUSAL_KINDS: [RefusalKind; 20] = [
    RefusalKind::BadPath,
    RefusalKind::ClockEnd,
    RefusalKind::NotYet,
    RefusalKind::NoName,
    RefusalKind::NotDir,
    RefusalKind::IsDir,
    RefusalKind::Root,
    RefusalKind::Exists,
    RefusalKind::DirFull,
    RefusalKind::NotEmpty,
    RefusalKind::Loop,
    RefusalKind::TooLong,
    RefusalKind::Behind,
    RefusalKind::IsGold,
    RefusalKind::LastGold,
    RefusalKind::HasChild,
    RefusalKind::Unsettled,
    RefusalKind::Held,
    RefusalKind::WrongView,
    RefusalKind::ManyActors,
];

/// What may be unsettled, by number.
const UNSETTLED: [Unsettled; 7] = [
    Unsettled::Intent(IntentKind::Bye),
    Unsettled::Intent(IntentKind::Seek),
    Unsettled::Intent(IntentKind::Fill),
    Unsettled::Intent(IntentKind::Patch),
    Unsettled::Intent(IntentKind::Confirm),
    Unsettled::Intent(IntentKind::Leave),
    Unsettled::Cell,
];

/// The values of a refusal of the kind.
#[tactic(auto, unfolding(crate::specs::Refusals::reason_at))]
fn read_reason(kind: RefusalKind, reader: &mut Reader<'_>) -> Result<Refusal, PacketError>
    ensures { Gives (λ r. (r, reader.new)) result (reason_at kind reader.old) }
{
    match kind {
        RefusalKind::BadPath => {
            let component = reader.u8()?;
            Ok(Refusal::BadPath(component))
        }
        RefusalKind::ClockEnd => Ok(Refusal::ClockEnd),
        RefusalKind::NotYet => {
            let id = reader.file()?;
            Ok(Refusal::NotYet(id))
        }
        RefusalKind::NoName => {
            let component = reader.u8()?;
            Ok(Refusal::NoName(component))
        }
        RefusalKind::NotDir => {
            let component = reader.u8()?;
            Ok(Refusal::NotDir(component))
        }
        RefusalKind::IsDir => Ok(Refusal::IsDir),
        RefusalKind::Root => Ok(Refusal::Root),
        RefusalKind::Exists => {
            let id = reader.file()?;
            Ok(Refusal::Exists(id))
        }
        RefusalKind::DirFull => Ok(Refusal::DirFull),
        RefusalKind::NotEmpty => {
            let id = reader.file()?;
            Ok(Refusal::NotEmpty(id))
        }
        RefusalKind::Loop => Ok(Refusal::Loop),
        RefusalKind::TooLong => Ok(Refusal::TooLong),
        RefusalKind::Behind => {
            let stamp = reader.stamp()?;
            Ok(Refusal::Behind(stamp))
        }
        RefusalKind::IsGold => Ok(Refusal::IsGold),
        RefusalKind::LastGold => Ok(Refusal::LastGold),
        RefusalKind::HasChild => {
            let id = reader.file()?;
            Ok(Refusal::HasChild(id))
        }
        RefusalKind::Unsettled => {
            let what = read_item(&UNSETTLED, reader)?;
            let id = reader.file()?;
            let peer = reader.u32()?;
            Ok(Refusal::Unsettled { what, id, peer })
        }
        RefusalKind::Held => Ok(Refusal::Held),
        RefusalKind::WrongView => {
            let view = reader.u64()?;
            Ok(Refusal::WrongView(view))
        }
        RefusalKind::ManyActors => Ok(Refusal::ManyActors),
    }
}

/// Why something was refused: the number, and the values.
#[tactic(auto, unfolding(crate::specs::Refusals::refusal_at))]
pub fn read_refusal(reader: &mut Reader<'_>) -> Result<Refusal, PacketError>
    ensures { Gives (λ r. (r, reader.new)) result (refusal_at reader.old) }
{
    let kind = read_item(&REFUSAL_KINDS, reader)?;
    read_reason(kind, reader)
}
