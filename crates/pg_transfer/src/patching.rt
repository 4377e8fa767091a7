//! A body comes as a change of what heads show.

ghost use Rattle.std.specs.Prelude.{◌≡◌, ◌<◌, IfOk, OnOk, true};
ghost use Rattle.pg_content.specs.Content.{next_length};
ghost use Rattle.pg_delta.specs.Chain.{are_same_stamps};
ghost use Rattle.pg_delta.specs.Taking.{stamps_of};
ghost use Rattle.pg_announced.specs.Announced.{note_at};
ghost use Rattle.pg_pieces.specs.pg_store.Store.{replica_at};
ghost use Rattle.pg_transfer.specs.Delta.{changed, delta as delta_in, made_at, made_by, made_of, patched, refused, serves};

use crate::asking::ask;
use crate::taking::take_for;
use pg_announced::{Announced, NoteKey};
use pg_base::{FileId, Items, NodeId, Stamp, Version};
use pg_content::Content;
use pg_delta::{KeptDelta, has_heads, makes_length, patched};
use pg_pieces::msg::{Delta, Ends, Work};
use pg_pieces::names::is_dir;
use pg_pieces::store::Store;
use pg_pieces::{EdgeUse, accept};
use std::alloc::{AllocError, Global};

/// Whether the heads have these stamps.
fn has_stamps(content: &Content, stamps: &[Stamp]) -> bool
    ensures { result ≡ are_same_stamps (stamps_of content.now) stamps.now }
{
    has_heads(content, stamps)
}

/// Whether the delta starts from just the heads, and makes a body of the announced length.
fn serves(content: &Content, note: &Announced, delta: &Delta) -> bool
    ensures is { result ≡ serves content.now note.now delta.now }
    ensures long { result ≡ true → next_length content.now delta.now.ranges ≡ note.now.head.length }
    ensures some { result ≡ true → 0 < note.now.head.number }
{
    let head = note.head.get();
    has_stamps(content, delta.from.as_slice())
        && makes_length(content, &delta.ranges, head.length)
        && 0 < head.number
}

/// The version that the delta makes of a content, with the tag to be acknowledged, where it serves.
fn make(
    alloc: Global,
    content: &Content,
    note: &Announced,
    delta: &Delta,
) -> Result<Option<(Version, u64)>, AllocError>
    ensures { IfOk result (λ v. v ≡ made_of content.now note.now delta.now) }
{
    if serves(content, note, delta) {
        let head = note.head.get().copy()?;
        Ok(Some((patched(alloc, content, head, &delta.ranges)?, note.tag)))
    } else {
        Ok(None)
    }
}

/// The version that the delta makes of what is held of a file, where it serves.
fn make_at(
    store: &Store,
    file: &FileId,
    note: &Announced,
    delta: &Delta,
) -> Result<Option<(Version, u64)>, AllocError>
    ensures { IfOk result (λ v. v ≡ made_at (replica_at store.now file.now) note.now delta.now) }
{
    match store.replica(file) {
        Some(replica) => make(store.allocator(), &replica.content, note, delta),
        None => Ok(None),
    }
}

/// The version that the delta makes, where its sender is asked for it.
fn make_by(
    store: &Store,
    from: NodeId,
    key: &NoteKey,
    delta: &Delta,
) -> Result<Option<(Version, u64)>, AllocError>
    ensures { IfOk result (λ v. v ≡ made_by from (replica_at store.now key.now.file)
        (note_at store.now.announced key.now) delta.now) }
{
    match store.announced.get(key) {
        Some(note) => {
            if note.source == from {
                make_at(store, &key.file, note, delta)
            } else {
                Ok(None)
            }
        }
        None => Ok(None),
    }
}

/// The delta is kept, and the version that it makes is taken.
fn patch(
    store: &mut Store,
    ends: &Ends,
    tag: u64,
    version: Version,
    delta: &Delta,
    work: &mut Work,
) -> Result<(), AllocError>
    ensures store { OnOk result
        (store.new ≡ (patched (version, tag) store.old ends.now delta.now work.old).store) }
    ensures work { OnOk result
        (work.new ≡ (patched (version, tag) store.old ends.now delta.now work.old).work) }
{
    let from = delta.from.as_slice();
    let kept = KeptDelta::new(store.allocator(), from, version.head().stamp, &delta.ranges)?;
    store.keep_delta(ends.file, kept)?;
    take_for(store, ends, tag, version, work)?;
    Ok(())
}

/// The body is asked for from the first byte on.
fn refuse(store: &mut Store, ends: &Ends, delta: &Delta, work: &mut Work) -> Result<(), AllocError>
    ensures store { OnOk result
        (store.new ≡ (refused true store.old ends.now delta.now work.old).store) }
    ensures work { OnOk result
        (work.new ≡ (refused true store.old ends.now delta.now work.old).work) }
{
    let stamp = delta.head.stamp;
    let key = NoteKey {
        file: ends.file,
        stamp,
    };
    ask(store, ends, stamp, 0, Items::new(store.allocator()), work)?;
    store.announced.empty(&key);
    Ok(())
}

/// A delta is accepted.
fn change(store: &mut Store, ends: &Ends, delta: &Delta, work: &mut Work) -> Result<(), AllocError>
    ensures store { OnOk result
        (store.new ≡ (changed store.old ends.now delta.now work.old).store) }
    ensures work { OnOk result
        (work.new ≡ (changed store.old ends.now delta.now work.old).work) }
{
    let key = NoteKey {
        file: ends.file,
        stamp: delta.head.stamp,
    };
    let made = make_by(store, work.from, &key, delta)?;
    match made {
        Some((version, tag)) => {
            patch(store, ends, tag, version, delta, work)?;
            Ok(())
        }
        None => {
            if store.announced.is_asked_of(&key, work.from) {
                refuse(store, ends, delta, work)?;
            }
            Ok(())
        }
    }
}

/// A delta comes along an edge that is there, from who is asked for the version: where it starts
/// from just the heads, it is kept, and the version that it makes is taken; else the body is asked
/// for from the first byte on. After out of memory a part may be done.
pub fn delta(
    store: &mut Store,
    ends: Ends,
    delta: &Delta,
    work: &mut Work,
) -> Result<(), AllocError>
    ensures store { OnOk result (store.new ≡ (delta_in store.old ends delta.now work.old).store) }
    ensures work { OnOk result (work.new ≡ (delta_in store.old ends delta.now work.old).work) }
{
    if is_dir(&ends.file) {
        return Ok(());
    }
    if accept(store, &ends, EdgeUse::Answers, work)? {
        change(store, &ends, delta, work)?;
    }
    Ok(())
}
