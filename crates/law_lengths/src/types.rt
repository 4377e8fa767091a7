//! What the types of a reply and of a call say of them. Nothing is done here: what is read is read
//! so that its range is known.

ghost use Rattle.std.specs.List.{AllByRecursion};
ghost use Rattle.pg_base.specs.Id.{Fits};
ghost use Rattle.pg_path.specs.declared.row.Row.{Row};
ghost use Rattle.pg_words.specs.StampWord.{IsStamp};
ghost use Rattle.law_lengths.specs.Packets.{AsksFew, HasReplyWidths};
ghost use Rattle.law_spelled.specs.Messages.{HasPlaceWidths};

use pg_base::{FileId, Stamp};
use pg_call::{Call, Reply};
use pg_path::Row;
use pg_register::Place;

fn id_fits(id: FileId)
    ensures { Fits id }
{}

fn stamp_fits(stamp: Stamp)
    ensures { IsStamp stamp }
{}

fn place_fits(file: FileId, place: &Place)
    ensures { HasPlaceWidths file place.now }
{
    id_fits(file);
    id_fits(place.parent);
    stamp_fits(place.stamp);
}

fn rows_fit(rows: &[Row])
    ensures { AllByRecursion (λ (row : Row). Fits row.child) rows.now }
{
    for row in rows {
        id_fits(row.child);
    }
}

/// Numbers of ids and stamps in a reply are in their ranges.
pub fn reply_fits(reply: &Reply)
    ensures { HasReplyWidths reply.now }
{
    match reply {
        Reply::Names { rows, .. } => rows_fit(rows.as_slice()),
        Reply::Stat(stat) => place_fits(stat.get().id, &stat.get().place),
        _ => {}
    }
}

/// A call asks for at most 32,768 bytes.
pub fn call_fits(call: &Call)
    ensures { AsksFew call.now }
{
    if let Call::Read { count, .. } = call {
        let _count = count.get();
    }
}
