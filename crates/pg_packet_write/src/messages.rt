//! Messages, written.

ghost use Rattle.std.specs.Prelude.{◌≡◌, ◌++◌, OnOk};
ghost use Rattle.pg_codec.specs.Spelling.{stamp_bytes};
ghost use Rattle.pg_packet_write.specs.Fields.{ends_bytes};
ghost use Rattle.pg_packet_write.specs.Fits.{FitStamps, FitsEntry};
ghost use Rattle.pg_packet_write.specs.Messages.{FitsDelta, FitsGranted, FitsMessage, FitsPiece, code_of, delta_bytes, greeting_code, granted_bytes, message_bytes, piece_bytes, replica_bytes, told_bytes, walk_bytes, wanted_bytes};

use crate::fields::{
    write_ask, write_block, write_cell, write_ends, write_entry, write_golds, write_head,
    write_key, write_place, write_policy, write_ranges, write_stamps,
};
use pg_base::{Bytes, FileId, NodeId, Stamp};
use pg_codec::{write_file, write_stamp, write_u8, write_u32, write_u64};
use pg_entries::Entry;
use pg_msg::{Delta, Ends, Granted, Greeting, Message, Piece, Wanted};
use std::alloc::AllocError;

fn greeting_code(greeting: Greeting) -> u8
    ensures { result ≡ greeting_code greeting }
{
    match greeting {
        Greeting::Here => 13,
        Greeting::Meet => 26,
    }
}

/// The number of the kind of message.
pub fn code_of(message: &Message) -> u8
    ensures { result ≡ code_of message.now }
{
    match message {
        Message::Cell { .. } => 1,
        Message::Ack { .. } => 2,
        Message::Harbinger { .. } => 3,
        Message::Want { .. } => 4,
        Message::Delta { .. } => 5,
        Message::Piece { .. } => 6,
        Message::Later { .. } => 7,
        Message::Fetch { .. } => 8,
        Message::Grant { .. } => 9,
        Message::NoGrant { .. } => 10,
        Message::Full { .. } => 11,
        Message::Seek { .. } => 12,
        Message::Greet { greeting, .. } => greeting_code(*greeting),
        Message::NoneHere { .. } => 14,
        Message::Gone { .. } => 15,
        Message::Bye { .. } => 16,
        Message::ByeOk { .. } => 17,
        Message::Confirm { .. } => 18,
        Message::PlaceIs { .. } => 19,
        Message::Tell { .. } => 20,
        Message::TellOk { .. } => 21,
        Message::Leave { .. } => 22,
        Message::LeaveOk { .. } => 23,
        Message::Invite { .. } => 24,
        Message::Walk { .. } => 25,
    }
}

#[tactic(auto, unfolding(crate::specs::Messages::wanted_bytes))]
fn write_wanted(wanted: &Wanted, out: &mut Bytes) -> Result<(), AllocError>
    requires { FitStamps wanted.now.heads }
    ensures { OnOk result (out.new ≡ out.old ++ wanted_bytes wanted.now) }
{
    write_stamp(wanted.stamp, out)?;
    write_u32(wanted.offset, out)?;
    write_stamps(wanted.heads.as_slice(), out)
}

#[tactic(auto, unfolding(crate::specs::Messages::delta_bytes))]
fn write_delta(delta: &Delta, out: &mut Bytes) -> Result<(), AllocError>
    requires { FitsDelta delta.now }
    ensures { OnOk result (out.new ≡ out.old ++ delta_bytes delta.now) }
{
    write_head(&delta.head, out)?;
    write_stamps(delta.from.as_slice(), out)?;
    write_ranges(&delta.ranges, out)
}

#[tactic(auto, unfolding(crate::specs::Messages::piece_bytes))]
fn write_piece(piece: &Piece, out: &mut Bytes) -> Result<(), AllocError>
    requires { FitsPiece piece.now }
    ensures { OnOk result (out.new ≡ out.old ++ piece_bytes piece.now) }
{
    write_head(&piece.head, out)?;
    write_u32(piece.offset, out)?;
    write_block(piece.bytes.as_slice(), out)
}

#[tactic(auto, unfolding(crate::specs::Messages::granted_bytes))]
fn write_granted(granted: &Granted, out: &mut Bytes) -> Result<(), AllocError>
    requires { FitsGranted granted.now }
    ensures { OnOk result (out.new ≡ out.old ++ granted_bytes granted.now) }
{
    write_policy(granted.policy, out)?;
    write_place(&granted.place, out)?;
    write_golds(&granted.flags, out)
}

#[tactic(auto, unfolding(crate::specs::Messages::replica_bytes))]
fn write_replica(file: FileId, birth: u64, out: &mut Bytes) -> Result<(), AllocError>
    ensures { OnOk result (out.new ≡ out.old ++ replica_bytes file birth) }
{
    write_file(file, out)?;
    write_u64(birth, out)
}

#[tactic(auto, unfolding(crate::specs::Messages::told_bytes))]
fn write_told(dir: FileId, entry: &Entry, out: &mut Bytes) -> Result<(), AllocError>
    requires { FitsEntry entry.now }
    ensures { OnOk result (out.new ≡ out.old ++ told_bytes dir entry.now) }
{
    write_file(dir, out)?;
    write_entry(entry, out)
}

/// An edge, and a stamp.
fn write_about(ends: &Ends, stamp: Stamp, out: &mut Bytes) -> Result<(), AllocError>
    ensures { OnOk result (out.new ≡ out.old ++ (ends_bytes ends.now ++ stamp_bytes stamp)) }
{
    write_ends(ends, out)?;
    write_stamp(stamp, out)
}

#[tactic(auto, unfolding(crate::specs::Messages::walk_bytes))]
fn write_walk(
    origin: NodeId,
    birth: u64,
    hops: u8,
    word: u64,
    out: &mut Bytes,
) -> Result<(), AllocError>
    ensures { OnOk result (out.new ≡ out.old ++ walk_bytes origin birth hops word) }
{
    write_u32(origin, out)?;
    write_u64(birth, out)?;
    write_u8(hops, out)?;
    write_u64(word, out)
}

/// What stands behind the kind, the sender and the view.
#[tactic(auto, unfolding(crate::specs::Messages::message_bytes))]
pub fn write_message(message: &Message, out: &mut Bytes) -> Result<(), AllocError>
    requires { FitsMessage message.now }
    ensures { OnOk result (out.new ≡ out.old ++ message_bytes message.now) }
{
    match message {
        Message::Cell { ends, tag, cell } => {
            write_ends(ends, out)?;
            write_u64(*tag, out)?;
            write_cell(cell, out)
        }
        Message::Ack { ends, key, tag } => {
            write_ends(ends, out)?;
            write_key(key, out)?;
            write_u64(*tag, out)
        }
        Message::Harbinger { ends, tag, head } => {
            write_ends(ends, out)?;
            write_u64(*tag, out)?;
            write_head(head.get(), out)
        }
        Message::Want { ends, wanted } => {
            write_ends(ends, out)?;
            write_wanted(wanted.get(), out)
        }
        Message::Delta { ends, delta } => {
            write_ends(ends, out)?;
            write_delta(delta.get(), out)
        }
        Message::Piece { ends, piece } => {
            write_ends(ends, out)?;
            write_piece(piece.get(), out)
        }
        Message::Later { ends, stamp } => write_about(ends, *stamp, out),
        Message::Fetch { file, birth } => write_replica(*file, *birth, out),
        Message::Grant { ends, granted } => {
            write_ends(ends, out)?;
            write_granted(granted.get(), out)
        }
        Message::NoGrant { file, birth } => write_replica(*file, *birth, out),
        Message::Full { ends } => write_ends(ends, out),
        Message::Seek { file, birth } => write_replica(*file, *birth, out),
        Message::Greet { ends, .. } => write_ends(ends, out),
        Message::NoneHere { ask, file, child } => {
            write_ask(*ask, out)?;
            write_file(*file, out)?;
            write_file(*child, out)
        }
        Message::Gone { file, birth } => write_replica(*file, *birth, out),
        Message::Bye { ends } => write_ends(ends, out),
        Message::ByeOk { file, birth } => write_replica(*file, *birth, out),
        Message::Confirm { dir, entry } => write_told(*dir, entry.get(), out),
        Message::PlaceIs { dir, entry } => write_told(*dir, entry.get(), out),
        Message::Tell { dir, entry } => write_told(*dir, entry.get(), out),
        Message::TellOk { dir, child, stamp } => {
            write_file(*dir, out)?;
            write_file(*child, out)?;
            write_stamp(*stamp, out)
        }
        Message::Leave { ends, stamp } => write_about(ends, *stamp, out),
        Message::LeaveOk { ends, stamp } => write_about(ends, *stamp, out),
        Message::Invite { ends } => write_ends(ends, out),
        Message::Walk {
            ends,
            origin,
            birth,
            hops,
            word,
        } => {
            write_ends(ends, out)?;
            write_walk(*origin, *birth, *hops, *word, out)
        }
    }
}
