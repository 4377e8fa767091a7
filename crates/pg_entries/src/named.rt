//! The index of names, and how it changes with an entry.

ghost use Rattle.std.specs.Prelude.{◌≡◌, ◌&&◌, ◌||◌, not, IfOk, OnErr, OnOk, Some};
ghost use Rattle.pg_base.specs.declared.id.FileId.{FileId};
ghost use Rattle.pg_base.specs.Id.{is_same_file};
ghost use Rattle.pg_index.specs.Ids.{has};
ghost use Rattle.pg_entries.specs.Entry.{entry_of, joined, joined_to};
ghost use Rattle.pg_entries.specs.Slots.{AreNamed, is_left, is_slot, slot_at, slot_in};

use crate::entry::Entry;
use crate::slot::slot_of;
use pg_base::FileId;
use pg_index::Lists;
use pg_register::Place;
use std::alloc::{AllocError, Global};
use std::collections::BTreeMap;

/// The slot that a child has, and the one that it has from now on. A child has none where it is not
/// known, or dead.
#[derive(Clone, Copy, Debug)]
pub(crate) struct Slots {
    pub held: Option<FileId>,
    pub next: Option<FileId>,
}

/// The slot of a child that has this place. A dead child shows no name, and has none.
fn slot_in(place: &Place) -> Option<FileId>
    ensures { result ≡ slot_in place.now }
{
    if place.live {
        Some(slot_of(place.parent, place.name.as_slice()))
    } else {
        None
    }
}

/// The slots of a child whose entry is to be this one.
pub(crate) fn slots_of_put(entries: &BTreeMap<FileId, Entry>, entry: &Entry) -> Slots
    ensures held { result.held ≡ slot_at (entry_of entries.now.entries entry.now.child) }
    ensures next { result.next ≡ slot_in entry.now.place }
{
    let next = slot_in(&entry.place);
    match entries.get(&entry.child) {
        Some(held) => Slots {
            held: slot_in(&held.place),
            next,
        },
        None => Slots { held: None, next },
    }
}

/// The slots of a child whose entry is to be joined with this one.
pub(crate) fn slots_of_join(entries: &BTreeMap<FileId, Entry>, entry: &Entry) -> Slots
    ensures held { result.held ≡ slot_at (entry_of entries.now.entries entry.now.child) }
    ensures next { result.next ≡ slot_in
        (joined_to (entry_of entries.now.entries entry.now.child) entry.now).place }
{
    match entries.get(&entry.child) {
        Some(held) => slots_behind(held, entry),
        None => Slots {
            held: None,
            next: slot_in(&entry.place),
        },
    }
}

fn slots_behind(held: &Entry, entry: &Entry) -> Slots
    ensures held { result.held ≡ slot_at (Some held.now) }
    ensures next { result.next ≡ slot_in (joined held.now entry.now).place }
{
    let slot = slot_in(&held.place);
    if held.place.stamp.is_before(entry.place.stamp) {
        Slots {
            held: slot,
            next: slot_in(&entry.place),
        }
    } else {
        Slots {
            held: slot,
            next: slot,
        }
    }
}

/// The child is listed at this slot from now on, if there is one. After a refusal the index is as
/// before.
pub(crate) fn enter(
    named: &mut Lists,
    slot: Option<FileId>,
    child: FileId,
) -> Result<(), AllocError>
    ensures ok { OnOk result ((k q : FileId) → has named.new k q
        ≡ ((is_slot slot k && is_same_file child q) || has named.old k q)) }
    ensures err { OnErr result ((k q : FileId) → has named.new k q ≡ has named.old k q) }
{
    match slot {
        Some(slot) => named.insert(slot, child),
        None => Ok(()),
    }
}

/// The child is listed at the slot that it had no longer, where its slot is another now, or where
/// it has none.
pub(crate) fn leave(named: &mut Lists, slots: &Slots, child: &FileId)
    ensures { (k q : FileId) → has named.new k q
        ≡ (not (is_left slots.now.held slots.now.next k && is_same_file child.now q)
        && has named.old k q) }
{
    if let Some(held) = &slots.held {
        if !is_slot(&slots.next, held) {
            named.remove(held, child);
        }
    }
}

/// Whether there is a slot, and it is this one.
fn is_slot(slot: &Option<FileId>, other: &FileId) -> bool
    ensures { result ≡ is_slot slot.now other.now }
{
    match slot {
        Some(slot) => slot.compare(other).is_eq(),
        None => false,
    }
}

/// The index of these entries.
pub(crate) fn index_of(
    alloc: Global,
    entries: &BTreeMap<FileId, Entry>,
) -> Result<Lists, AllocError>
    ensures { IfOk result (AreNamed entries.now.entries) }
{
    let mut named = Lists::new(alloc);
    for (child, entry) in entries.iter() {
        enter(&mut named, slot_in(&entry.place), *child)?;
    }
    Ok(named)
}
