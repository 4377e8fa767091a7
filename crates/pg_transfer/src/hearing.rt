//! A harbinger comes.

ghost use Rattle.std.specs.Prelude.{◌≡◌, OnOk, option_map};
ghost use Rattle.pg_base.specs.Version.{actor_of};
ghost use Rattle.pg_content.specs.Content.{is_covered};
ghost use Rattle.pg_pieces.specs.pg_store.Store.{content_of};
ghost use Rattle.pg_announced.specs.Announced.{note_at};
ghost use Rattle.pg_transfer.specs.Asking.{noted, offset_of as offset_in};
ghost use Rattle.pg_transfer.specs.Harbinger.{asked_again, first_heard, harbinger, heard, heard_beside};

use crate::asking::{acknowledge, ask, listed, offset_of, put_off, tell_others};
use pg_announced::{Announced, Announcements, NoteKey};
use pg_base::{FileId, Head, Shared};
use pg_pieces::msg::{Ends, Work};
use pg_pieces::names::is_dir;
use pg_pieces::store::Store;
use pg_pieces::{EdgeUse, accept};
use std::alloc::AllocError;

/// Whether the version is covered here.
fn is_covered(store: &Store, file: &FileId, head: &Head) -> bool
    ensures { result
        ≡ is_covered (content_of store.now file.now).heads (actor_of head.now) head.now.number }
{
    match store.replica(file) {
        Some(replica) => replica.content.covers(head.actor(), head.number),
        None => false,
    }
}

/// The first that is heard of a version: it is noted, the sender is asked for its body, and all
/// other peers hear of it.
fn hear_first(
    store: &mut Store,
    ends: &Ends,
    tag: u64,
    head: &Shared<Head>,
    work: &mut Work,
) -> Result<(), AllocError>
    ensures store { OnOk result
        (store.new ≡ (first_heard store.old ends.now tag head.now work.old).store) }
    ensures work { OnOk result
        (work.new ≡ (first_heard store.old ends.now tag head.now work.old).work) }
{
    let stamp = head.get().stamp;
    let key = NoteKey {
        file: ends.file,
        stamp,
    };
    let heads = listed(store, &ends.file)?;
    ask(store, ends, stamp, 0, heads, work)?;
    tell_others(store, ends.file, work.from, head, work)?;
    let note = Announced::new(store.allocator(), head.copy()?, work.from, tag);
    store.announced.put(key, note)?;
    Ok(())
}

/// The version is noted already: its sender is asked for its body from this byte on.
fn hear_again(
    store: &mut Store,
    ends: &Ends,
    tag: u64,
    head: &Head,
    offset: u32,
    work: &mut Work,
) -> Result<(), AllocError>
    ensures store { OnOk result
        (store.new ≡ (asked_again store.old ends.now tag head.now offset work.old).store) }
    ensures work { OnOk result
        (work.new ≡ (asked_again store.old ends.now tag head.now offset work.old).work) }
{
    let key = NoteKey {
        file: ends.file,
        stamp: head.stamp,
    };
    let heads = listed(store, &ends.file)?;
    ask(store, ends, head.stamp, offset, heads, work)?;
    store.announced.aim(&key, work.from, tag);
    Ok(())
}

/// From which byte on the body of a version that is noted is to be asked for.
fn next_offset(notes: &Announcements, key: &NoteKey) -> Option<u32>
    ensures { result ≡ option_map (λ n. offset_in n.bytes) (note_at notes.now key.now) }
{
    match notes.get(key) {
        Some(note) => Some(offset_of(note.bytes.as_slice())),
        None => None,
    }
}

/// A version is heard of that is not covered, and for which nobody else is asked.
fn hear_beside(
    store: &mut Store,
    ends: &Ends,
    tag: u64,
    head: &Shared<Head>,
    work: &mut Work,
) -> Result<(), AllocError>
    ensures store { OnOk result (store.new
        ≡ (heard_beside (noted store.old ends.now.file head.now.stamp) store.old ends.now tag
        head.now work.old).store) }
    ensures work { OnOk result (work.new
        ≡ (heard_beside (noted store.old ends.now.file head.now.stamp) store.old ends.now tag
        head.now work.old).work) }
{
    let key = NoteKey {
        file: ends.file,
        stamp: head.get().stamp,
    };
    match next_offset(&store.announced, &key) {
        Some(offset) => {
            hear_again(store, ends, tag, head.get(), offset, work)?;
            Ok(())
        }
        None => {
            hear_first(store, ends, tag, head, work)?;
            Ok(())
        }
    }
}

/// A harbinger is accepted.
fn hear(
    store: &mut Store,
    ends: &Ends,
    tag: u64,
    head: &Shared<Head>,
    work: &mut Work,
) -> Result<(), AllocError>
    ensures store { OnOk result
        (store.new ≡ (heard store.old ends.now tag head.now work.old).store) }
    ensures work { OnOk result
        (work.new ≡ (heard store.old ends.now tag head.now work.old).work) }
{
    let stamp = head.get().stamp;
    if is_covered(store, &ends.file, head.get()) {
        acknowledge(store, ends, stamp, tag, work)?;
        return Ok(());
    }
    if store
        .announced
        .is_awaited(&ends.file, work.from, head.get())
    {
        put_off(store, ends, stamp, work)?;
        return Ok(());
    }
    hear_beside(store, ends, tag, head, work)?;
    Ok(())
}

/// A harbinger comes along an edge and links its sender. Where the version is covered here that is
/// told; where another server is asked for it, or for one that covers it, the sender is put off;
/// else it is noted, and the sender is asked for its body. After out of memory a part may be done.
pub fn harbinger(
    store: &mut Store,
    ends: Ends,
    tag: u64,
    head: &Shared<Head>,
    work: &mut Work,
) -> Result<(), AllocError>
    ensures store { OnOk result
        (store.new ≡ (harbinger store.old ends tag head.now work.old).store) }
    ensures work { OnOk result
        (work.new ≡ (harbinger store.old ends tag head.now work.old).work) }
{
    if is_dir(&ends.file) {
        return Ok(());
    }
    if accept(store, &ends, EdgeUse::Makes, work)? {
        hear(store, &ends, tag, head, work)?;
    }
    Ok(())
}
