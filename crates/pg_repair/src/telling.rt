//! Directories are told of children that moved.

ghost use Rattle.std.specs.Prelude.{◌≡◌, OnOk};
ghost use Rattle.pg_pieces.specs.pg_intent.Intents.{intent_at};
ghost use Rattle.pg_repair.specs.Telling.{end_told, is_told, tell, tell_ok};

use pg_base::{FileId, NodeId, Stamp};
use pg_entries::Entry;
use pg_pieces::intent::{Intent, IntentKey};
use pg_pieces::msg::{Ask, Message, Work};
use pg_pieces::names::is_same_stamp;
use pg_pieces::store::Store;
use pg_pieces::{post, take_entry};
use std::alloc::AllocError;

/// A directory is told of a newer place and newer flags of a child. A held one takes what is newer
/// in them, and answers with the stamp of the place that was told. Where it is not held the sender
/// is told. After out of memory a part may be done.
pub fn tell(
    store: &mut Store,
    dir: FileId,
    entry: &Entry,
    work: &mut Work,
) -> Result<(), AllocError>
    ensures store { OnOk result (store.new ≡ (tell store.old dir entry.now work.old).store) }
    ensures work { OnOk result (work.new ≡ (tell store.old dir entry.now work.old).work) }
{
    let child = entry.child;
    if !store.names.is_held(&dir) {
        let none = Message::NoneHere {
            ask: Ask::Patch,
            file: dir,
            child,
        };
        return post(store, work.from, none, work);
    }
    take_entry(store, dir, entry.copy()?, work)?;
    let answer = Message::TellOk {
        dir,
        child,
        stamp: entry.place.stamp,
    };
    post(store, work.from, answer, work)?;
    Ok(())
}

/// The place of this stamp was told. The Patch ends where it asks the sender and carries just that
/// place.
pub fn tell_ok(store: &mut Store, dir: FileId, child: FileId, stamp: Stamp, work: &Work)
    ensures { store.new ≡ (tell_ok store.old dir child stamp work.entry.now).store }
{
    end_told(store, dir, child, stamp, work.from);
}

fn end_told(store: &mut Store, dir: FileId, child: FileId, stamp: Stamp, from: NodeId)
    ensures { store.new ≡ end_told store.old dir child stamp from }
{
    let key = IntentKey::Patch { dir, child };
    if is_told(store, &key, stamp, from) {
        store.intents.end(&key);
    }
}

/// Whether a Patch asks the server, and carries the place of this stamp.
fn is_told(store: &Store, key: &IntentKey, stamp: Stamp, from: NodeId) -> bool
    ensures { result ≡ is_told (intent_at store.now.intents key.now) stamp from }
{
    match store.intents.get(key) {
        Some(Intent::Patch { entry, target, .. }) => {
            *target == from && is_same_stamp(entry.place.stamp, stamp)
        }
        _ => false,
    }
}
