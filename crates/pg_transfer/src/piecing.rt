//! Bytes of a body come.

ghost use Rattle.std.specs.Prelude.{◌≡◌, ◌+◌, ◌≤◌, IfOk, OnOk, length, true};
ghost use Rattle.pg_announced.specs.Announced.{note_at};
ghost use Rattle.pg_transfer.specs.Asking.{noted};
ghost use Rattle.pg_transfer.specs.Piece.{advance, completed, is_last, is_next, lengthened, piece as piece_in, pieced, whole};

use crate::asking::{ask, listed};
use crate::taking::take_for;
use pg_announced::{Announced, Announcements, NoteKey};
use pg_base::{NodeId, SharedBytes, Version};
use pg_pieces::msg::{Ends, Piece, Work};
use pg_pieces::names::is_dir;
use pg_pieces::store::Store;
use pg_pieces::{EdgeUse, accept};
use std::alloc::{AllocError, Global};

/// What bytes that come are to the body of a version that is noted.
#[derive(Clone, Copy, Debug, PartialEq, Eq)]
pub enum Progress {
    /// Nothing that was asked for.
    Nothing,
    /// The next bytes, behind which it goes on from this one.
    More(u32),
    /// The last ones.
    Whole,
}

/// Whether the bytes are the next ones that this sender was asked for.
fn is_next(from: NodeId, note: &Announced, piece: &Piece) -> bool
    ensures is { result ≡ is_next from note.now piece.now }
    ensures within { result ≡ true
        → length note.now.bytes + length piece.now.bytes ≤ note.now.head.length }
{
    let here = note.bytes.len();
    let more = piece.bytes.len();
    note.source == from
        && piece.offset as usize == here
        && here.saturating_add(more) <= note.head.get().length as usize
}

/// Whether the bytes are the last ones.
fn is_last(note: &Announced, piece: &Piece) -> bool
    ensures { result ≡ is_last note.now piece.now }
{
    let here = note.bytes.len();
    let more = piece.bytes.len();
    here.saturating_add(more) == note.head.get().length as usize && 0 < note.head.get().number
}

/// The first byte behind a piece.
fn end_of(note: &Announced, piece: &Piece) -> u32
    requires { length note.now.bytes + length piece.now.bytes ≤ note.now.head.length }
    ensures { result ≡ length note.now.bytes + length piece.now.bytes }
{
    let _long = note.head.get().length;
    (note.bytes.len() + piece.bytes.len()) as u32
}

/// What a piece is to the body of a version that is noted.
fn advance(notes: &Announcements, key: &NoteKey, from: NodeId, piece: &Piece) -> Progress
    ensures { result ≡ advance from (note_at notes.now key.now) piece.now }
{
    let Some(note) = notes.get(key) else {
        return Progress::Nothing;
    };
    if !is_next(from, note, piece) {
        return Progress::Nothing;
    }
    if is_last(note, piece) {
        Progress::Whole
    } else {
        Progress::More(end_of(note, piece))
    }
}

/// The version, whole. The bytes that are here are not copied.
fn whole(alloc: Global, note: Announced, piece: &Piece) -> Result<Version, AllocError>
    requires { is_last note piece.now ≡ true }
    ensures { IfOk result (λ v. v ≡ whole note piece.now) }
{
    let Announced { head, bytes, .. } = note;
    let mut body = bytes;
    body.extend(piece.bytes.as_slice())?;
    let body = SharedBytes::from_vec(alloc, body.into_vec())?;
    Version::new(alloc, head.get().copy()?, body)
}

/// The version is taken in place of its note, and its tag is acknowledged.
fn complete(
    store: &mut Store,
    ends: &Ends,
    piece: &Piece,
    work: &mut Work,
) -> Result<(), AllocError>
    requires { advance work.old.from (noted store.old ends.now.file piece.now.head.stamp) piece.now
        ≡ Progress.Whole }
    ensures store { OnOk result (store.new
        ≡ (completed (noted store.old ends.now.file piece.now.head.stamp) store.old ends.now
        piece.now work.old).store) }
    ensures work { OnOk result (work.new
        ≡ (completed (noted store.old ends.now.file piece.now.head.stamp) store.old ends.now
        piece.now work.old).work) }
{
    let key = NoteKey {
        file: ends.file,
        stamp: piece.head.stamp,
    };
    let Some(note) = store.announced.take(&key) else {
        return Ok(());
    };
    let tag = note.tag;
    let version = whole(store.allocator(), note, piece)?;
    take_for(store, ends, tag, version, work)?;
    Ok(())
}

/// The bytes are added, and the next are asked for.
fn lengthen(
    store: &mut Store,
    ends: &Ends,
    offset: u32,
    piece: &Piece,
    work: &mut Work,
) -> Result<(), AllocError>
    ensures store { OnOk result
        (store.new ≡ (lengthened offset store.old ends.now piece.now work.old).store) }
    ensures work { OnOk result
        (work.new ≡ (lengthened offset store.old ends.now piece.now work.old).work) }
{
    let stamp = piece.head.stamp;
    let key = NoteKey {
        file: ends.file,
        stamp,
    };
    let heads = listed(store, &ends.file)?;
    ask(store, ends, stamp, offset, heads, work)?;
    store.announced.lengthen(&key, piece.bytes.as_slice())?;
    Ok(())
}

/// A piece is accepted.
fn take_piece(
    store: &mut Store,
    ends: &Ends,
    piece: &Piece,
    work: &mut Work,
) -> Result<(), AllocError>
    ensures store { OnOk result
        (store.new ≡ (pieced store.old ends.now piece.now work.old).store) }
    ensures work { OnOk result
        (work.new ≡ (pieced store.old ends.now piece.now work.old).work) }
{
    let key = NoteKey {
        file: ends.file,
        stamp: piece.head.stamp,
    };
    match advance(&store.announced, &key, work.from, piece) {
        Progress::Nothing => Ok(()),
        Progress::More(offset) => lengthen(store, ends, offset, piece, work),
        Progress::Whole => complete(store, ends, piece, work),
    }
}

/// A piece comes along an edge that is there: where it has the next bytes that its sender was asked
/// for, they are added, and the next are asked for; where they are the last ones, the version is
/// taken. After out of memory a part may be done.
pub fn piece(
    store: &mut Store,
    ends: Ends,
    piece: &Piece,
    work: &mut Work,
) -> Result<(), AllocError>
    ensures store { OnOk result (store.new ≡ (piece_in store.old ends piece.now work.old).store) }
    ensures work { OnOk result (work.new ≡ (piece_in store.old ends piece.now work.old).work) }
{
    if is_dir(&ends.file) {
        return Ok(());
    }
    if accept(store, &ends, EdgeUse::Answers, work)? {
        take_piece(store, &ends, piece, work)?;
    }
    Ok(())
}
