//! Messages that can be read.

ghost use Rattle.pg_base.specs.Id.{Fits};
ghost use Rattle.pg_codec.specs.Laws.{HasStampWidth, HasWidth};
ghost use Rattle.pg_packet_fields.specs.Values.{AreEnds};
ghost use Rattle.pg_packet_read.specs.MessageFields.{IsDelta, IsGranted, IsHops, IsPiece, IsWanted};
ghost use Rattle.pg_packet_read.specs.Messages.{IsWholeMessage};
ghost use Rattle.pg_packet_write.specs.Fits.{FitStamps, IsServer};
ghost use Rattle.pg_packet_write.specs.Messages.{FitsDelta, FitsGranted, FitsMessage, FitsPiece, FitsWalk};

use crate::fields::{
    bytes_are, cell_is_whole, ends_are_whole, entry_is_whole, file_is, golds_are_whole,
    head_is_whole, key_is_whole, narrow_is, place_is_whole, ranges_are_whole, stamp_is,
    stamps_are_whole, wide_is,
};
use pg_base::{FileId, Stamp};
use pg_msg::{Delta, Ends, Granted, Message, Piece, Wanted};

fn wanted_is_whole(wanted: &Wanted)
    requires { FitStamps wanted.now.heads }
    ensures { IsWanted wanted.now }
{
    stamp_is(wanted.stamp);
    narrow_is(wanted.offset);
    stamps_are_whole(wanted.heads.as_slice())
}

fn delta_is_whole(delta: &Delta)
    requires { FitsDelta delta.now }
    ensures { IsDelta delta.now }
{
    head_is_whole(&delta.head);
    stamps_are_whole(delta.from.as_slice());
    ranges_are_whole(&delta.ranges)
}

fn piece_is_whole(piece: &Piece)
    requires { FitsPiece piece.now }
    ensures { IsPiece piece.now }
{
    head_is_whole(&piece.head);
    narrow_is(piece.offset);
    bytes_are(piece.bytes.as_slice())
}

fn granted_is_whole(granted: &Granted)
    requires { FitsGranted granted.now }
    ensures { IsGranted granted.now }
{
    place_is_whole(&granted.place);
    golds_are_whole(&granted.flags)
}

fn about_is_whole(ends: &Ends, stamp: Stamp)
    ensures { AreEnds ends.now × HasStampWidth stamp }
{
    ends_are_whole(ends);
    stamp_is(stamp)
}

fn replica_is_whole(file: FileId, birth: u64)
    ensures { Fits file × HasWidth 8 birth }
{
    file_is(file);
    wide_is(birth)
}

fn walk_is_whole(origin: u32, birth: u64, hops: u8, word: u64)
    requires { FitsWalk origin hops }
    ensures { IsServer origin × (HasWidth 8 birth × (IsHops hops × HasWidth 8 word)) }
{
    wide_is(birth);
    wide_is(word)
}

pub fn message_is_whole(message: &Message)
    requires { FitsMessage message.now }
    ensures { IsWholeMessage message.now }
{
    match message {
        Message::Cell { ends, tag, cell } => {
            ends_are_whole(ends);
            wide_is(*tag);
            cell_is_whole(cell)
        }
        Message::Ack { ends, key, tag } => {
            ends_are_whole(ends);
            key_is_whole(key);
            wide_is(*tag)
        }
        Message::Harbinger { ends, tag, head } => {
            ends_are_whole(ends);
            wide_is(*tag);
            head_is_whole(head.get())
        }
        Message::Want { ends, wanted } => {
            ends_are_whole(ends);
            wanted_is_whole(wanted.get())
        }
        Message::Delta { ends, delta } => {
            ends_are_whole(ends);
            delta_is_whole(delta.get())
        }
        Message::Piece { ends, piece } => {
            ends_are_whole(ends);
            piece_is_whole(piece.get())
        }
        Message::Later { ends, stamp } => about_is_whole(ends, *stamp),
        Message::Fetch { file, birth } => replica_is_whole(*file, *birth),
        Message::Grant { ends, granted } => {
            ends_are_whole(ends);
            granted_is_whole(granted.get())
        }
        Message::NoGrant { file, birth } => replica_is_whole(*file, *birth),
        Message::Full { ends } => ends_are_whole(ends),
        Message::Seek { file, birth } => replica_is_whole(*file, *birth),
        Message::Greet { ends, .. } => ends_are_whole(ends),
        Message::NoneHere { file, child, .. } => {
            file_is(*file);
            file_is(*child)
        }
        Message::Gone { file, birth } => replica_is_whole(*file, *birth),
        Message::Bye { ends } => ends_are_whole(ends),
        Message::ByeOk { file, birth } => replica_is_whole(*file, *birth),
        Message::Confirm { entry, .. } => entry_is_whole(entry.get()),
        Message::PlaceIs { entry, .. } => entry_is_whole(entry.get()),
        Message::Tell { entry, .. } => entry_is_whole(entry.get()),
        Message::TellOk { child, stamp, .. } => {
            file_is(*child);
            stamp_is(*stamp)
        }
        Message::Leave { ends, stamp } => about_is_whole(ends, *stamp),
        Message::LeaveOk { ends, stamp } => about_is_whole(ends, *stamp),
        Message::Invite { ends } => ends_are_whole(ends),
        Message::Walk {
            ends,
            origin,
            birth,
            hops,
            word,
        } => {
            ends_are_whole(ends);
            walk_is_whole(*origin, *birth, *hops, *word)
        }
    }
}
