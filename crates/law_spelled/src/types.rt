//! What the types of a message say of it. Nothing is done here: what is read is read so that its
//! range is known.

ghost use Rattle.std.specs.Prelude.{◌≡◌, length};
ghost use Rattle.pg_base.specs.Id.{Fits};
ghost use Rattle.pg_register.specs.Flag.{IsByServer};
ghost use Rattle.pg_words.specs.StampWord.{IsStamp};
ghost use Rattle.law_spelled.specs.Messages.{HasCellWidths, HasPlaceWidths, HasToldWidths, HasWidths, IsCellByServer, IsFlaggedByServer};

use pg_base::{FileId, Stamp, Version};
use pg_entries::{Cell, Entry};
use pg_msg::Message;
use pg_register::{GoldFlags, Place};

fn id_fits(id: FileId)
    ensures { Fits id }
{}

fn stamp_fits(stamp: Stamp)
    ensures { IsStamp stamp }
{}

fn place_fits(file: FileId, place: &Place)
    ensures { HasPlaceWidths file place.now }
{
    id_fits(file);
    id_fits(place.parent);
    stamp_fits(place.stamp);
}

fn flags_fit(flags: &GoldFlags)
    ensures { IsByServer flags.now }
{
    let _flags = flags.as_slice();
}

fn version_fits(version: &Version)
    ensures { length version.now.body ≡ version.now.head.length }
{
    let _head = version.head();
}

fn entry_fits(dir: FileId, entry: &Entry)
    ensures widths { HasToldWidths dir entry.now }
    ensures flags { IsByServer entry.now.flags }
{
    id_fits(dir);
    place_fits(entry.child, &entry.place);
    flags_fit(&entry.flags);
}

fn cell_fits(file: FileId, cell: &Cell)
    ensures widths { HasCellWidths file cell.now }
    ensures flags { IsCellByServer cell.now }
{
    match cell {
        Cell::Place(place) => place_fits(file, place.get()),
        Cell::Flag(_) => {}
        Cell::Entry(entry, _) => entry_fits(file, entry.get()),
        Cell::Version(version) => version_fits(version),
    }
}

/// Numbers of ids and stamps are in their ranges, a version has its body, and flags are by server.
pub fn message_fits(message: &Message)
    ensures widths { HasWidths message.now }
    ensures flags { IsFlaggedByServer message.now }
{
    match message {
        Message::Cell { ends, cell, .. } => cell_fits(ends.file, cell),
        Message::Grant { ends, granted } => {
            place_fits(ends.file, &granted.get().place);
            flags_fit(&granted.get().flags);
        }
        Message::Confirm { dir, entry } => entry_fits(*dir, entry.get()),
        Message::PlaceIs { dir, entry } => entry_fits(*dir, entry.get()),
        Message::Tell { dir, entry } => entry_fits(*dir, entry.get()),
        Message::TellOk { dir, .. } => id_fits(*dir),
        _ => {}
    }
}
