//! Places of listed children are confirmed.

ghost use Rattle.std.specs.Prelude.{◌≡◌, IfOk, OnOk};
ghost use Rattle.pg_repair.specs.Confirming.{confirm, end_confirmed, is_confirmed, own_entry, place_is, take_told_place, with_place_told};

use pg_base::{FileId, Shared, Stamp};
use pg_entries::Entry;
use pg_pieces::house::is_root;
use pg_pieces::intent::IntentKey;
use pg_pieces::msg::{Ask, Message, Work};
use pg_pieces::names::is_same_stamp;
use pg_pieces::store::Store;
use pg_pieces::{post, take_entry, take_flags, take_place};
use std::alloc::AllocError;

/// The place and flags of a child are asked for, which the sender lists as told in the entry. A
/// held child takes what is newer in that, and answers with what it has then. Where it is not held
/// the sender is told. After out of memory a part may be done.
pub fn confirm(
    store: &mut Store,
    dir: FileId,
    entry: &Entry,
    work: &mut Work,
) -> Result<(), AllocError>
    ensures store { OnOk result (store.new ≡ (confirm store.old dir entry.now work.old).store) }
    ensures work { OnOk result (work.new ≡ (confirm store.old dir entry.now work.old).work) }
{
    let child = entry.child;
    if !store.names.is_held(&child) {
        let none = Message::NoneHere {
            ask: Ask::Confirm,
            file: dir,
            child,
        };
        return post(store, work.from, none, work);
    }
    take_told_place(store, entry, work)?;
    take_flags(store, child, &entry.flags, work)?;
    tell_place(store, dir, child, work)?;
    Ok(())
}

/// Takes the place, but for the root.
fn take_told_place(store: &mut Store, entry: &Entry, work: &mut Work) -> Result<(), AllocError>
    ensures store { OnOk result (store.new ≡ (take_told_place store.old entry.now work.old).store) }
    ensures work { OnOk result (work.new ≡ (take_told_place store.old entry.now work.old).work) }
{
    if is_root(&entry.child) {
        return Ok(());
    }
    take_place(store, entry.child, entry.place.copy()?, work)?;
    Ok(())
}

/// The own place and flags of a child are told to who asked for them.
fn tell_place(store: &Store, dir: FileId, child: FileId, work: &mut Work) -> Result<(), AllocError>
    ensures { OnOk result (work.new ≡ with_place_told store.now dir child work.old) }
{
    let entry = Shared::new(store.allocator(), own_entry(store, child)?)?;
    post(store, work.from, Message::PlaceIs { dir, entry }, work)?;
    Ok(())
}

/// The own place and flags of a thing, as a cell for it.
pub fn own_entry(store: &Store, file: FileId) -> Result<Entry, AllocError>
    ensures { IfOk result (λ entry. entry ≡ own_entry store.now file) }
{
    let own = store.names.own_or_blank(file)?;
    Ok(Entry {
        child: file,
        place: own.place,
        flags: own.flags,
    })
}

/// The place of a child comes from a holder. A held directory takes what is newer in it. Nothing is
/// to be confirmed any more where it has just this place then, or does not list the child. After
/// out of memory a part may be done.
pub fn place_is(
    store: &mut Store,
    dir: FileId,
    entry: &Entry,
    work: &mut Work,
) -> Result<(), AllocError>
    ensures store { OnOk result (store.new ≡ (place_is store.old dir entry.now work.old).store) }
    ensures work { OnOk result (work.new ≡ (place_is store.old dir entry.now work.old).work) }
{
    if !store.names.is_held(&dir) {
        return Ok(());
    }
    take_entry(store, dir, entry.copy()?, work)?;
    end_confirmed(store, dir, entry);
    Ok(())
}

/// The Confirm of the child ends, where its place is confirmed.
fn end_confirmed(store: &mut Store, dir: FileId, entry: &Entry)
    ensures { store.new ≡ end_confirmed store.old dir entry.now }
{
    let child = entry.child;
    if is_confirmed(store, &dir, child, entry.place.stamp) {
        store.intents.end(&IntentKey::Confirm { dir, child });
    }
}

/// Whether the directory's cell for the child has the place of this stamp, or does not list it.
fn is_confirmed(store: &Store, dir: &FileId, child: FileId, stamp: Stamp) -> bool
    ensures { result ≡ is_confirmed store.now dir.now child stamp }
{
    match store.names.entry(dir, &child) {
        Some(entry) => is_same_stamp(entry.place.stamp, stamp) || !entry.is_listed(*dir),
        None => true,
    }
}
