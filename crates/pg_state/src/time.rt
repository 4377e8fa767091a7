//! Whether the greatest time is that of no earlier stamp than a server holds.

ghost use Rattle.std.specs.Prelude.{◌≤◌, ◌↔◌, IsTrue};
ghost use Rattle.std.specs.List.{AllByRecursion};
ghost use Rattle.pg_base.specs.declared.id.FileId.{FileId};
ghost use Rattle.pg_base.specs.Version.{VersionValue};
ghost use Rattle.pg_entries.specs.declared.entry.Entry.{Entry};
ghost use Rattle.pg_state.specs.Fits.{IsHeldInTime, IsInTime, IsIntentInTime, IsThingInTime};

use pg_base::{FileId, Version};
use pg_entries::Entry;
use pg_intent::{Intent, Intents};
use pg_names::Inode;
use pg_replica::{Replica, Replicas};
use pg_store::Store;
use std::collections::BTreeMap;

fn are_entries_in_time(last: u64, entries: &BTreeMap<FileId, Entry>) -> bool
    ensures { IsTrue result
        ↔ AllByRecursion (λ (e : FileId × Entry). e.1.place.stamp.time ≤ last) entries.now.entries }
{
    for (_, entry) in entries {
        if last < entry.place.stamp.time {
            return false;
        }
    }
    true
}

fn is_version_in_time(last: u64, version: &Version) -> bool
    ensures { IsTrue result ↔ (version.now.head.stamp.time ≤ last) }
{
    version.head().stamp.time <= last
}

fn are_heads_in_time(last: u64, heads: &[Version]) -> bool
    ensures { IsTrue result
        ↔ AllByRecursion (λ (v : VersionValue). v.head.stamp.time ≤ last) heads.now }
{
    for version in heads {
        if !is_version_in_time(last, version) {
            return false;
        }
    }
    true
}

fn is_held_in_time(last: u64, held: &Inode, replica: &Replica) -> bool
    ensures { IsTrue result ↔ IsHeldInTime last held.now replica.now }
{
    held.own().place.stamp.time <= last
        && are_entries_in_time(last, held.entries().as_map())
        && are_heads_in_time(last, replica.content.heads())
}

fn is_thing_in_time(last: u64, replicas: &Replicas, id: FileId, held: &Inode) -> bool
    ensures { IsTrue result ↔ IsThingInTime last replicas.now (id, held.now) }
{
    match replicas.get(&id) {
        None => false,
        Some(replica) => is_held_in_time(last, held, replica),
    }
}

fn are_things_in_time(last: u64, replicas: &Replicas, held: &BTreeMap<FileId, Inode>) -> bool
    ensures { IsTrue result ↔ AllByRecursion (IsThingInTime last replicas.now) held.now.entries }
{
    for (id, inode) in held {
        if !is_thing_in_time(last, replicas, *id, inode) {
            return false;
        }
    }
    true
}

fn is_intent_in_time(last: u64, intent: &Intent) -> bool
    ensures { IsTrue result ↔ IsIntentInTime last intent.now }
{
    match intent {
        Intent::Patch { entry, .. } => entry.place.stamp.time <= last,
        _ => true,
    }
}

fn are_intents_in_time(last: u64, intents: &Intents) -> bool
    ensures { IsTrue result ↔ AllByRecursion (IsIntentInTime last) intents.now }
{
    for intent in intents.iter() {
        if !is_intent_in_time(last, intent) {
            return false;
        }
    }
    true
}

/// Whether no place or version of what is held, and no place in an entry or a Patch, has a later
/// time than the greatest one that the server keeps.
pub(crate) fn is_in_time(store: &Store) -> bool
    ensures { IsTrue result ↔ IsInTime store.now }
{
    let last = store.names.last();
    are_things_in_time(last, &store.replicas, store.names.as_map())
        && are_intents_in_time(last, &store.intents)
}
